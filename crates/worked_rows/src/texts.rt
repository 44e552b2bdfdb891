//! The bytes of a text, as the lines of a case say them.
use crate::fault::LineFault;
use crate::reading::read_number;
use std::alloc::{AllocError, Global};

/// Appends what a line says: the line itself, or what follows a backslash.
pub fn append_line(alloc: Global, text: &mut Vec<u8>, line: &str) -> Result<(), LineFault> {
    match line.strip_prefix('\\') {
        Some(escape) => append_escape(alloc, text, escape),
        None => Ok(append_with(text, line, "\n")?),
    }
}

/// Appends two pieces.
fn append_with(text: &mut Vec<u8>, first: &str, second: &str) -> Result<(), AllocError> {
    text.extend_from_slice(first.as_bytes())?;
    text.extend_from_slice(second.as_bytes())
}

/// Appends what cannot stand in a line, or would be long.
fn append_escape(alloc: Global, text: &mut Vec<u8>, escape: &str) -> Result<(), LineFault> {
    let (word, rest) = escape.split_once(' ').unwrap_or((escape, ""));
    match word {
        "text" => Ok(append_with(text, rest, "")?),
        "hex" => append_hex(text, rest),
        "fill" => append_fill(text, rest),
        "lines" => append_lines(alloc, text, rest),
        _ => Err(LineFault::UnknownLine),
    }
}

/// Appends bytes.
fn append_hex(text: &mut Vec<u8>, bytes: &str) -> Result<(), LineFault> {
    for byte in bytes.split(' ') {
        text.push(read_byte(byte)?)?;
    }
    Ok(())
}

fn read_byte(word: &str) -> Result<u8, LineFault> {
    match u8::from_str_radix(word, 16) {
        Ok(byte) => Ok(byte),
        Err(_) => Err(LineFault::BadNumber),
    }
}

/// The number that words begin with, and what follows it.
fn read_count(words: &str) -> Result<(usize, &str), LineFault> {
    let (count, rest) = words.split_once(' ').unwrap_or((words, ""));
    Ok((read_number(count)?, rest))
}

/// Appends a byte so many times.
fn append_fill(text: &mut Vec<u8>, words: &str) -> Result<(), LineFault> {
    let (count, byte) = read_count(words)?;
    let byte = read_byte(byte)?;
    for _ in 0..count {
        text.push(byte)?;
    }
    Ok(())
}

/// Appends a line so many times, each with its number, from 0, in the place of `%`.
fn append_lines(alloc: Global, text: &mut Vec<u8>, words: &str) -> Result<(), LineFault> {
    let (count, line) = read_count(words)?;
    for i in 0..count {
        let number = format!(in alloc; "{i}")?;
        append_numbered(text, line, &number)?;
    }
    Ok(())
}

fn append_numbered(text: &mut Vec<u8>, line: &str, number: &str) -> Result<(), AllocError> {
    let mut is_first = true;
    for piece in line.split('%') {
        if !is_first {
            text.extend_from_slice(number.as_bytes())?;
        }
        text.extend_from_slice(piece.as_bytes())?;
        is_first = false;
    }
    append_with(text, "", "\n")
}
