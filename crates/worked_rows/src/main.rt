//! Whole runs as data: a program that reads cases from standard input, makes the top call for each of them over memory, and
//! writes what was answered and what was put. Its `stdin` has the cases, and its `stdout` what is to come of them.
#![tactic(auto)]

mod case;
mod fault;
mod gate;
mod holds;
mod outcome;
mod put;
mod reading;
mod stages;
mod streams;
mod texts;

use crate::case::Case;
use crate::outcome::lines_of;
use crate::reading::read_cases;
use std::alloc::Global;
use std::io;
use std::sync::Wait;
use std::thread::Threads;

fn main(rt: HostRuntime) -> anyhow::Result<()> {
    let text = io::read_to_string(rt.alloc(), rt.reader())?;
    let cases = read_cases(rt.alloc(), &text)?;
    write_all(&rt, rt.alloc(), &cases)?;
    Ok(())
}

/// Writes what comes of each case.
fn write_all<R: Threads + Wait + Sync + Print>(
    rt: &R,
    alloc: Global,
    cases: &[Case],
) -> io::Result<()> {
    for case in cases {
        let lines = lines_of(rt, alloc, case)?;
        print!(rt; "{lines}")?;
    }
    Ok(())
}
