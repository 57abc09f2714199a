mod forms;
mod lines;
