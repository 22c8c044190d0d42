// Programs that take commands: that of their arguments, or those of standard input, a command to a line.
#![tactic(auto)]

pub mod mistake;

use mistake::Mistake;
use std::{env, fmt, io};
use words::words_of;

// A program that takes commands.
pub trait Program {
    // What it finds wrong with a command, beyond what any such program may find.
    type Fault: fmt::Display + Copy;

    // Does what the words of a command ask, and prints what came of it.
    fn obey<'a>(&self, rt: &HostRuntime, words: &[&'a str]) -> Result<(), Mistake<'a, Self::Fault>>;
}

// Runs a line of standard input; a mistake in it is said, and is no failure of the program.
fn obey_line<P: Program>(rt: &HostRuntime, program: &P, line: &str) -> io::Result<()> {
    println!(rt; "> {line}")?;
    let words = words_of(rt.alloc(), line)?;
    if let Err(mistake) = program.obey(rt, words.as_slice()) {
        println!(rt; "{mistake}")?;
    }
    Ok(())
}

// Runs every line of standard input.
fn serve<P: Program>(rt: &HostRuntime, program: &P) -> io::Result<()> {
    for line in rt.lines(rt.alloc()) {
        obey_line(rt, program, line?.as_str())?;
    }
    Ok(())
}

// Runs the command of the arguments, or with `-` those of standard input; a mistake in the arguments is a failure. No contract:
// it speaks of the arguments, of standard input and of what is printed.
pub fn run<P: Program>(rt: &HostRuntime, program: &P) -> io::Result<()> {
    let args: Vec<String> = env::args(rt)?.skip(1).collect(rt.alloc())?;
    let words: Vec<&str> = args.iter().map(|arg| arg.as_str()).collect(rt.alloc())?;
    if let ["-"] = words.as_slice() {
        return serve(rt, program);
    }
    if let Err(mistake) = program.obey(rt, words.as_slice()) {
        eprintln!(rt; "{mistake}")?;
        return Err(io::Error::from(io::ErrorKind::InvalidInput));
    }
    Ok(())
}
