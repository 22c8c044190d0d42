// Shows that a file outlives losses: it is protected by a code, in stripes or on the nodes of a level, hurt, and brought back.
//
//     stripe copy M FILE LOST..     one data block and M copies of it
//     stripe sum K FILE LOST..      K data blocks and their XOR
//     stripe rs K M FILE LOST..     K data blocks and M checks of the Cauchy code
//     stripe level N G L CODE..     one of these on a level of N nodes, in groups of G, with L lanes; LOST.. are nodes
//     stripe vectors FILE           compares the Cauchy code with known answers
//     stripe -                      reads such commands from standard input, one to a line
#![tactic(auto)]

mod command;
mod fault;
mod hex;
mod job;
mod level_job;
mod level_report;
mod level_trial;
mod vectors;

use command::Command;
use console::Program;
use fault::{Fault, Mistake};
use std::io;

// The program.
struct Stripe;

impl Program for Stripe {
    type Fault = Fault;

    fn obey<'a>(&self, rt: &HostRuntime, words: &[&'a str]) -> Result<(), Mistake<'a>> {
        // A match and no closures: which of the two is to be done comes as text.
        match command::parse(rt.alloc(), words)? {
            Command::Protect(job) => match job.ground {
                Some(ground) => {
                    let report = level_job::protect(rt, ground, &job)?;
                    println!(rt; "{report}")?;
                }
                None => {
                    let report = job::protect(rt, &job)?;
                    println!(rt; "{report}")?;
                }
            },
            Command::Vectors(path) => vectors::compare(rt, path)?,
        }
        Ok(())
    }
}

fn main(rt: HostRuntime) -> io::Result<()> {
    console::run(&rt, &Stripe)
}
