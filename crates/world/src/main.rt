//! `world` reads directories of class files and prints which types, methods and fields an image needs.
#![tactic(auto)]

mod command;
mod load;
mod output;
mod run;

use output::tell;
use run::world_run;
use std::alloc::AllocError;
use std::env;
use std::io::{self, ErrorKind};
use std::process::ExitCode;
use std::rt::Env;
use wf_io::{StdSink, StdTree};

/// The words after the program's name.
fn words<R: Env + AllocGlobal>(rt: &R) -> io::Result<Vec<Vec<u8>>> {
    let mut words = Vec::new(rt.alloc());
    for word in env::args(rt)?.skip(1) {
        words.push(word.into_bytes()).map_err(AllocError::from)?;
    }
    Ok(words)
}

/// Makes the tree of real files and the sinks over the standard streams, and does what the words ask.
/// Words that aren't all UTF-8 come as a whole or not at all, so in their place none are handed on, which
/// are no command either.
fn main(rt: HostRuntime) -> ExitCode {
    let mut out = StdSink::new(rt.stdout());
    let mut err = StdSink::new(rt.stderr());
    let words = match words(&rt) {
        Ok(words) => words,
        Err(error) if error.kind() == ErrorKind::OutOfMemory => {
            tell(&mut err, b"no memory\n");
            return ExitCode::from(9);
        }
        Err(_) => Vec::new(rt.alloc()),
    };
    let mut tree = StdTree::new(&rt);
    ExitCode::from(world_run(&rt, rt.alloc(), &words, &mut tree, &mut out, &mut err))
}

#[cfg(test)]
mod tests;
