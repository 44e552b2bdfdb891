//! What comes of a case.
use crate::case::{Case, CaseStage, Deed};
use crate::gate::{CaseGate, Place};
use crate::put::{write_answer, write_put};
use crate::streams::{is_in_order, spread};
use command_line::{Status, run};
use shift_io::{MemSink, MemSource};
use std::alloc::{AllocError, Global};
use std::mem;
use std::sync::Wait;
use std::thread::Threads;

/// The lines that are written of a case.
pub fn lines_of<R: Threads + Wait + Sync>(
    rt: &R,
    alloc: Global,
    case: &Case,
) -> Result<String, AllocError> {
    let mut lines = String::new(alloc);
    let name = &case.name;
    if case.each_prefix {
        write_prefixes(rt, alloc, case, &mut lines)?;
    } else {
        writeln!(lines, "case {name}:")?;
        write_runs(rt, alloc, case, &case.text, &mut lines)?;
    }
    Ok(lines)
}

/// Writes what comes of it for each prefix of its text.
fn write_prefixes<R: Threads + Wait + Sync>(
    rt: &R,
    alloc: Global,
    case: &Case,
    lines: &mut String,
) -> Result<(), AllocError> {
    let name = &case.name;
    for length in 0..=case.text.len() {
        let prefix = case.text.get(..length).unwrap_or(b"");
        writeln!(lines, "case {name} at {length}:")?;
        write_runs(rt, alloc, case, prefix, lines)?;
    }
    Ok(())
}

/// Runs it as often as it says, and writes what came first, and whatever came later that differs.
fn write_runs<R: Threads + Wait + Sync>(
    rt: &R,
    alloc: Global,
    case: &Case,
    text: &[u8],
    lines: &mut String,
) -> Result<(), AllocError> {
    let first = run_once(rt, alloc, case, text, 0)?;
    lines.push_str(&first)?;
    for time in 1..case.times {
        let again = run_once(rt, alloc, case, text, time as u64)?;
        if again != first {
            write!(lines, "again:\n{again}")?;
        }
    }
    Ok(())
}

/// What comes of one run of it, the first one being at time 0.
fn run_once<R: Threads + Wait + Sync>(
    rt: &R,
    alloc: Global,
    case: &Case,
    text: &[u8],
    time: u64,
) -> Result<String, AllocError> {
    let pace = if case.slow { Some(time) } else { None };
    let mut progress = Progress {
        source: Vec::new(alloc),
        text: Vec::from_slice(alloc, text)?,
        gate: CaseGate::new(alloc, &case.holds, pace)?,
        lines: String::new(alloc),
    };
    progress.go(rt, alloc, case)?;
    let Progress { lines, .. } = progress;
    Ok(lines)
}

/// How far a run of a case is.
#[derive(Drop)]
struct Progress<'a> {
    /// What the last call read.
    source: Vec<u8>,
    /// What it put.
    text: Vec<u8>,
    /// The gate of the calls, which has counted those of the last one.
    gate: CaseGate<'a>,
    /// What is to be written.
    lines: String,
}

impl<'a> Progress<'a> {
    /// Each stage, up to the first one that is not done, and then what was put.
    fn go<R: Threads + Wait + Sync>(
        &mut self,
        rt: &R,
        alloc: Global,
        case: &Case,
    ) -> Result<(), AllocError> {
        for stage in &case.stages {
            if !self.is_done(rt, alloc, case, stage)? {
                break;
            }
        }
        write_put(alloc, &mut self.lines, &self.text, &case.alike)
    }

    /// Does a stage.
    fn is_done<R: Threads + Wait + Sync>(
        &mut self,
        rt: &R,
        alloc: Global,
        case: &Case,
        stage: &CaseStage,
    ) -> Result<bool, AllocError> {
        match &stage.deed {
            Deed::Call(words) => {
                let status = self.call(rt, alloc, case, words)?;
                write_answer(alloc, &mut self.lines, &stage.words, status)?;
                self.write_late()?;
                Ok(status == Status::Done)
            }
            Deed::Spread(streams) => {
                self.text = spread(alloc, &self.text, *streams)?;
                Ok(true)
            }
            Deed::Order => {
                let answer = is_in_order(alloc, &self.source, &self.text)?;
                self.write_order(&stage.words, answer)?;
                Ok(true)
            }
            Deed::Count(place) => {
                self.write_count(&stage.words, *place)?;
                Ok(true)
            }
        }
    }

    fn write_order(&mut self, words: &str, is_in_order: bool) -> Result<(), AllocError> {
        let answer = if is_in_order { "yes" } else { "no" };
        writeln!(self.lines, "{words}: {answer}")
    }

    fn write_count(&mut self, words: &str, place: Place) -> Result<(), AllocError> {
        let count = self.gate.count(place);
        writeln!(self.lines, "{words}: {count}")
    }

    /// Writes how many holds of the last call ended before what they wait for came, if any did.
    fn write_late(&mut self) -> Result<(), AllocError> {
        let late = self.gate.late();
        if late > 0 {
            writeln!(self.lines, "late: {late}")?;
        }
        Ok(())
    }

    /// Makes the top call over memory.
    fn call<R: Threads + Wait + Sync>(
        &mut self,
        rt: &R,
        alloc: Global,
        case: &Case,
        words: &[String],
    ) -> Result<Status, AllocError> {
        let mut source = source_of(alloc, case, &self.text)?;
        let mut sink = sink_of(alloc, case)?;
        self.gate.reset();
        let status = run(rt, alloc, words, &mut source, &mut sink, &self.gate);
        let put = Vec::from_slice(alloc, sink.bytes())?;
        let read = mem::replace(&mut self.text, put);
        self.source = read;
        Ok(status)
    }
}

/// The source of a case that has these bytes.
fn source_of(alloc: Global, case: &Case, bytes: &[u8]) -> Result<MemSource, AllocError> {
    let bytes = Vec::from_slice(alloc, bytes)?;
    let fails = Vec::from_slice(alloc, case.takes.fails.as_slice())?;
    Ok(MemSource::new(bytes, case.takes.most, fails))
}

/// The sink of a case.
fn sink_of(alloc: Global, case: &Case) -> Result<MemSink, AllocError> {
    let room = vec![in alloc; 0u8; case.room]?;
    let fails = Vec::from_slice(alloc, case.puts.fails.as_slice())?;
    Ok(MemSink::new(room, case.puts.most, fails))
}
