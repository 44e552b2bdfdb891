//! Cases, read line by line.
use crate::case::{Case, Pieces};
use crate::fault::{CasesFault, LineFault};
use crate::holds::read_hold;
use crate::stages::read_stages;
use crate::texts::append_line;
use std::alloc::Global;

/// The cases of a text.
pub fn read_cases(alloc: Global, text: &str) -> Result<Vec<Case>, CasesFault> {
    let mut reader = Reader {
        alloc,
        cases: Vec::new(alloc),
        is_in_text: false,
    };
    reader.read_lines(text)?;
    let Reader { cases, .. } = reader;
    Ok(cases)
}

/// The cases so far. Further lines are of the last one.
#[derive(Drop)]
struct Reader {
    alloc: Global,
    cases: Vec<Case>,
    /// Whether the next line is of its text.
    is_in_text: bool,
}

impl Reader {
    fn read_lines(&mut self, text: &str) -> Result<(), CasesFault> {
        let mut line = 0usize;
        for words in text.lines() {
            line = line.wrapping_add(1);
            if let Err(fault) = self.read_line(words) {
                return Err(CasesFault { line, fault });
            }
        }
        if self.is_in_text {
            let fault = LineFault::OpenText;
            return Err(CasesFault { line, fault });
        }
        Ok(())
    }

    fn read_line(&mut self, line: &str) -> Result<(), LineFault> {
        if self.is_in_text {
            return self.read_text(line);
        }
        if line.is_empty() || line.starts_with('#') {
            return Ok(());
        }
        match line.strip_prefix("case ") {
            Some(head) => self.begin(head),
            None => self.read_option(line),
        }
    }

    /// A case of this name and these stages is the last one.
    fn begin(&mut self, head: &str) -> Result<(), LineFault> {
        let Some((name, stages)) = head.split_once(':') else {
            return Err(LineFault::UnknownLine);
        };
        let stages = stages.strip_prefix(' ').unwrap_or(stages);
        let stages = read_stages(self.alloc, stages)?;
        let name = String::from_str(self.alloc, name)?;
        self.cases.push(Case::new(self.alloc, name, stages))?;
        Ok(())
    }

    /// A line that says how the last case is run, or which text it has.
    fn read_option(&mut self, line: &str) -> Result<(), LineFault> {
        if line == "same text" {
            let text = self.text_before()?;
            return self.set_text(text);
        }
        let alloc = self.alloc;
        self.is_in_text = line == "text";
        match self.cases.last_mut() {
            Some(case) => read_option(alloc, case, line),
            None => Err(LineFault::NoCase),
        }
    }

    /// The text of the case before the last one.
    fn text_before(&self) -> Result<Vec<u8>, LineFault> {
        match self.cases.iter().rev().nth(1) {
            Some(case) => Ok(Vec::from_slice(self.alloc, case.text.as_slice())?),
            None => Err(LineFault::NoCase),
        }
    }

    fn set_text(&mut self, text: Vec<u8>) -> Result<(), LineFault> {
        match self.cases.last_mut() {
            Some(case) => {
                case.text = text;
                Ok(())
            }
            None => Err(LineFault::NoCase),
        }
    }

    /// A line of the last case's text, or the end of the text.
    fn read_text(&mut self, line: &str) -> Result<(), LineFault> {
        if line == "." {
            self.is_in_text = false;
            return Ok(());
        }
        let alloc = self.alloc;
        match self.cases.last_mut() {
            Some(case) => append_line(alloc, &mut case.text, line),
            None => Err(LineFault::NoCase),
        }
    }
}

/// A line that says how a case is run, or that its text begins.
fn read_option(alloc: Global, case: &mut Case, line: &str) -> Result<(), LineFault> {
    let (word, rest) = line.split_once(' ').unwrap_or((line, ""));
    match word {
        "takes" => case.takes = read_pieces(alloc, rest)?,
        "puts" => case.puts = read_pieces(alloc, rest)?,
        "room" => case.room = read_number(rest)?,
        "alike" => case.alike.push(String::from_str(alloc, rest)?)?,
        "times" => case.times = read_number(rest)?,
        "hold" => case.holds.push(read_hold(rest)?)?,
        "slow" if rest.is_empty() => case.slow = true,
        "each" if rest == "prefix" => case.each_prefix = true,
        "text" if rest.is_empty() => {}
        _ => return Err(LineFault::UnknownLine),
    }
    Ok(())
}

/// A number of bytes, and where calls fail the word `fails` and their numbers.
fn read_pieces(alloc: Global, words: &str) -> Result<Pieces, LineFault> {
    let (most, numbers) = words.split_once(" fails ").unwrap_or((words, ""));
    let fails = read_fails(alloc, numbers)?;
    let most = read_number(most)?;
    if most == 0 {
        return Err(LineFault::BadNumber);
    }
    Ok(Pieces { most, fails })
}

/// The numbers of calls.
fn read_fails(alloc: Global, numbers: &str) -> Result<Vec<u64>, LineFault> {
    let mut fails = Vec::new(alloc);
    for number in numbers.split_whitespace() {
        fails.push(read_number(number)? as u64)?;
    }
    Ok(fails)
}

/// A number.
pub fn read_number(word: &str) -> Result<usize, LineFault> {
    match word.parse::<usize>() {
        Ok(number) => Ok(number),
        Err(_) => Err(LineFault::BadNumber),
    }
}
