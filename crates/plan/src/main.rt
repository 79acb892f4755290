// Reads a roster file from standard input, plans the priorities of its tasks and prints the listing.
#![tactic(auto)]

mod answer;
#[cfg(test)]
mod label_press;
mod remembering;
#[cfg(test)]
mod whole_files;

use crate::answer::{Answer, write_answer};
use std::env;
use std::io::{Read, Write};
use std::process::ExitCode;

// No listing has more than 777 bytes. An array, since a text is written into space handed in.
const SPACE: usize = 1024;

const USAGE: &str = "usage: plan < FILE.roster
Reads a roster file from standard input and prints the priority order of its tasks:
place, number, S or T, normal and abnormal response time. A file or a list of tasks
that is refused gives the line `refused N` and the exit status 1.";

// The refusal of a file is part of the answer: it is written as the listing is, and only the exit status tells the two apart.
fn run(rt: &HostRuntime) -> anyhow::Result<ExitCode> {
    let mut file = Vec::new(rt.alloc());
    rt.stdin().read_to_end(&mut file)?;
    let mut space = [0; SPACE];
    let answer = write_answer(&file, &mut space)?;
    rt.stdout().write_all(&space[0..answer.len()])?;
    Ok(match answer {
        Answer::Listed(_) => ExitCode::SUCCESS,
        Answer::Refused(_) => ExitCode::FAILURE,
    })
}

fn main(rt: HostRuntime) -> anyhow::Result<ExitCode> {
    if env::args(&rt)?.nth(1).is_some() {
        eprintln!(rt; "{USAGE}")?;
        return Ok(ExitCode::FAILURE);
    }
    run(&rt)
}
