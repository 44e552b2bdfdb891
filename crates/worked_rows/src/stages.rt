//! The stages of a case.
use crate::case::{CaseStage, Deed};
use crate::fault::LineFault;
use crate::holds::read_place;
use crate::reading::read_number;
use std::alloc::{AllocError, Global};

/// The stages of a case, which stand between bars.
pub fn read_stages(alloc: Global, text: &str) -> Result<Vec<CaseStage>, LineFault> {
    let mut stages = Vec::new(alloc);
    for words in text.split(" | ") {
        stages.push(read_stage(alloc, words)?)?;
    }
    Ok(stages)
}

fn read_stage(alloc: Global, words: &str) -> Result<CaseStage, LineFault> {
    let deed = read_deed(alloc, words)?;
    let words = String::from_str(alloc, words)?;
    Ok(CaseStage { words, deed })
}

/// Words in parentheses are no call.
fn read_deed(alloc: Global, words: &str) -> Result<Deed, LineFault> {
    if words == "(in order)" {
        return Ok(Deed::Order);
    }
    if let Some(place) = words.strip_prefix("(gate ") {
        return read_count(place);
    }
    match words.strip_prefix("(on ") {
        Some(streams) => Ok(Deed::Spread(read_streams(streams)?)),
        None => Ok(Deed::Call(words_of(alloc, words)?)),
    }
}

/// A place of the gate, whose calls are counted.
fn read_count(words: &str) -> Result<Deed, LineFault> {
    Ok(Deed::Count(read_place(words.strip_suffix(')').unwrap_or(""))?))
}

/// A number of streams, from 1 to 16.
fn read_streams(words: &str) -> Result<u32, LineFault> {
    let streams = read_number(words.strip_suffix(" streams)").unwrap_or(""))?;
    if streams == 0 || streams > 16 {
        return Err(LineFault::BadNumber);
    }
    Ok(streams as u32)
}

/// The words of a call, which stand between single spaces. An empty word stands between two spaces.
fn words_of(alloc: Global, text: &str) -> Result<Vec<String>, AllocError> {
    let mut words = Vec::new(alloc);
    if text.is_empty() {
        return Ok(words);
    }
    for word in text.split(' ') {
        words.push(String::from_str(alloc, word)?)?;
    }
    Ok(words)
}
