//! The writer of processor lists, and the test whether a text is the one that would be written.

ghost use Rattle.std.specs.Prelude.{◌≡◌, ℕ, ◌<◌, ◌≤◌, ◌↔◌, ◌++◌, IsTrue, [], ◌∷◌, length, take, OnOk, OnErr, MatchOption};
ghost use Rattle.affinity_mask.specs.ListText.{canonical_list, run_text};
ghost use Rattle.affinity_mask.specs.Number.{canonical_number};
ghost use Rattle.affinity_mask.specs.ListSteps.{item_text, IsBetween, IsNextRun, EndsBelow, AfterFront};

use crate::out_of_memory::OutOfMemory;
use crate::proc_set::ProcSet;

/// How many bytes a member adds to a list at most: two digits, after a comma or a '-'.
const MEMBER_BYTES: usize = 3;

impl ProcSet {
    /// Appends the canonical list of the set: its longest runs in ascending order, and nothing for the empty set.
    /// Refused only where memory runs out.
    pub fn write_list(&self, into: &mut Vec<u8>) -> Result<(), OutOfMemory>
        ensures written { OnOk result (into.new.items ≡ into.old.items ++ canonical_list self.now) }
        ensures unchanged { OnErr result (into.new.items ≡ into.old.items) }
    {
        let before = into.len();
        let written = self.append_list(into);
        if written.is_err() {
            into.truncate(before);
        }
        written
    }

    /// Whether a text is the canonical list of the set.
    pub fn is_list(&self, text: &[u8]) -> bool
        ensures { IsTrue result ↔ (text.now ≡ canonical_list self.now) }
    {
        let _valid = self.count();
        let mut rest = text;
        let mut from = 0;
        while let Some((low, high)) = self.run_from(from) {
            let is_first = rest.len() == text.len();
            let Some(after) = after_item(rest, is_first, low, high) else {
                return false;
            };
            rest = after;
            from = high + 1;
        }
        rest.is_empty()
    }

    /// Appends the canonical list, or a prefix of it where memory is refused.
    fn append_list(&self, into: &mut Vec<u8>) -> Result<(), OutOfMemory>
        ensures written { OnOk result (into.new.items ≡ into.old.items ++ canonical_list self.now) }
        ensures prefix { take (length into.old.items) into.new.items ≡ into.old.items }
    {
        let before = into.len();
        into.reserve(MEMBER_BYTES * self.count() as usize)?;
        let mut from = 0;
        while let Some((low, high)) = self.run_from(from) {
            let is_first = into.len() == before;
            append_item(is_first, low, high, into)?;
            from = high + 1;
        }
        Ok(())
    }

    /// The first run of a set from a processor on, at which none goes on, by its ends.
    fn run_from(&self, from: u8) -> Option<(u8, u8)>
        requires { IsBetween self.now from }
        ensures { MatchOption result (EndsBelow self.now from)
            (λ run. IsNextRun self.now from run.0 run.1) }
    {
        let _valid = self.count();
        match self.minus(&ProcSet::first(from)).least() {
            Some(low) => Some((low, self.run_end(low))),
            None => None,
        }
    }
}

/// Appends a run, after a comma unless it is the first.
fn append_item(is_first: bool, low: u8, high: u8, into: &mut Vec<u8>) -> Result<(), OutOfMemory>
    requires ascends { low ≤ high }
    requires small { high < 64 }
    ensures written { OnOk result (into.new.items
        ≡ into.old.items ++ item_text is_first low high) }
    ensures prefix { take (length into.old.items) into.new.items ≡ into.old.items }
{
    if !is_first {
        into.push(b',')?;
    }
    append_run(low, high, into)
}

/// Appends a run.
fn append_run(low: u8, high: u8, into: &mut Vec<u8>) -> Result<(), OutOfMemory>
    requires ascends { low ≤ high }
    requires small { high < 64 }
    ensures written { OnOk result (into.new.items ≡ into.old.items ++ run_text (low, high)) }
    ensures prefix { take (length into.old.items) into.new.items ≡ into.old.items }
{
    append_number(low, into)?;
    if low == high {
        return Ok(());
    }
    into.push(b'-')?;
    append_number(high, into)
}

/// Appends a number below 100.
fn append_number(n: u8, into: &mut Vec<u8>) -> Result<(), OutOfMemory>
    requires { n < 100 }
    ensures written { OnOk result (into.new.items ≡ into.old.items ++ canonical_number n) }
    ensures prefix { take (length into.old.items) into.new.items ≡ into.old.items }
{
    if n < 10 {
        into.push(b'0' + n)?;
        return Ok(());
    }
    into.push(b'0' + n / 10)?;
    into.push(b'0' + n % 10)?;
    Ok(())
}

/// What stands after a run, and a comma before it unless it is the first, where the text begins so.
fn after_item(text: &[u8], is_first: bool, low: u8, high: u8) -> Option<&[u8]>
    requires ascends { low ≤ high }
    requires small { high < 64 }
    ensures { AfterFront text.now (item_text is_first low high) result }
{
    if is_first {
        return after_run(text, low, high);
    }
    match after_byte(text, b',') {
        Some(run) => after_run(run, low, high),
        None => None,
    }
}

/// What stands after a run, where the text begins with it.
pub(crate) fn after_run(text: &[u8], low: u8, high: u8) -> Option<&[u8]>
    requires ascends { low ≤ high }
    requires small { high < 64 }
    ensures { AfterFront text.now (run_text (low, high)) result }
{
    let Some(rest) = after_number(text, low) else {
        return None;
    };
    if low == high {
        return Some(rest);
    }
    match after_byte(rest, b'-') {
        Some(last) => after_number(last, high),
        None => None,
    }
}

/// What stands after a number below 100, where the text begins with it.
fn after_number(text: &[u8], n: u8) -> Option<&[u8]>
    requires { n < 100 }
    ensures { AfterFront text.now (canonical_number n) result }
{
    if n < 10 {
        return after_byte(text, b'0' + n);
    }
    match after_byte(text, b'0' + n / 10) {
        Some(rest) => after_byte(rest, b'0' + n % 10),
        None => None,
    }
}

/// What stands after a byte, where the text begins with it.
fn after_byte(text: &[u8], byte: u8) -> Option<&[u8]>
    ensures { AfterFront text.now (byte ∷ []) result }
{
    if text.is_empty() || text[0] != byte {
        None
    } else {
        Some(&text[1..])
    }
}
