//! The grammar of class files (JVMS 4): which bytes spell a class, the function on lists that reads them with the
//! first fault, the canonical spelling, and the laws that tie the three. It has no code that runs.
#![tactic(auto)]

mod grammar;

pub use grammar::{
    class_files_are_read_exactly, faults_are_first, one_class_a_file, pools_are_read_exactly,
    spellings_are_exact,
};
