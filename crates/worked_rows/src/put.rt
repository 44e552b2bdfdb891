//! How answers and what was put are written.
use command_line::{Status, exit_status, report};
use std::alloc::{AllocError, Global};
use std::cell::RefCell;
use std::fmt::{Display, Write};
use std::{io, str};

/// A standard error that keeps what is written to it.
#[derive(Drop)]
struct Reported {
    text: RefCell<String>,
}

impl Eprint for Reported {
    fn eprint<D: Display + Drop>(&self, value: D) -> io::Result<()> {
        if let Ok(mut text) = self.text.try_borrow_mut() {
            let _ = write!(text, "{value}");
        }
        Ok(())
    }

    fn eprintln<D: Display + Drop>(&self, value: D) -> io::Result<()> {
        if let Ok(mut text) = self.text.try_borrow_mut() {
            let _ = writeln!(text, "{value}");
        }
        Ok(())
    }
}

/// What is reported of a status.
fn report_text(alloc: Global, status: Status) -> String {
    let error = Reported {
        text: RefCell::new(String::new(alloc)),
    };
    let _ = report(&error, status);
    error.text.into_inner()
}

/// Writes the words of a call, its exit status, and what is reported of it.
pub fn write_answer(
    alloc: Global,
    lines: &mut String,
    words: &str,
    status: Status,
) -> Result<(), AllocError> {
    let number = exit_status(&status);
    let text = report_text(alloc, status);
    if text.is_empty() {
        writeln!(lines, "{words}: exit {number}")
    } else {
        write!(lines, "{words}: exit {number}: {text}")
    }
}

/// Writes a text that was put, each line after a bar, and what follows its last line feed after a plus.
pub fn write_put(
    alloc: Global,
    lines: &mut String,
    put: &[u8],
    alike: &[String],
) -> Result<(), AllocError> {
    let Ok(text) = str::from_utf8(put) else {
        return writeln!(lines, "? {put:?}");
    };
    for line in text.split_inclusive('\n') {
        write_line(alloc, lines, line, alike)?;
    }
    Ok(())
}

fn write_line(
    alloc: Global,
    lines: &mut String,
    line: &str,
    alike: &[String],
) -> Result<(), AllocError> {
    let (mark, line) = match line.strip_suffix('\n') {
        Some(line) => ('|', line),
        None => ('+', line),
    };
    let shown = without(alloc, line, alike)?;
    writeln!(lines, "{mark} {shown}")
}

/// A line with `~` in the place of each of these texts.
fn without(alloc: Global, line: &str, alike: &[String]) -> Result<String, AllocError> {
    let mut shown = String::from_str(alloc, line)?;
    for text in alike {
        if let Some(other) = without_one(alloc, &shown, text)? {
            shown = other;
        }
    }
    Ok(shown)
}

/// A line with `~` in the place of this text, if it has it.
fn without_one(alloc: Global, line: &str, text: &str) -> Result<Option<String>, AllocError> {
    match line.split_once(text) {
        Some((before, after)) => Ok(Some(format!(in alloc; "{before}~{after}")?)),
        None => Ok(None),
    }
}
