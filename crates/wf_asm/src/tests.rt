mod building;
mod faults;
mod generator;
