//! What the weak and the strong scheduler have linked, side by side.
ghost use Rattle.std.specs.Prelude.{◌≡◌, ◌<◌, ◌++◌, length, OnOk, IsSome, MatchOption};
ghost use Rattle.std.specs.Option.{ForSome};
ghost use Rattle.task_set.specs.TaskSet.{SetData};
ghost use Rattle.strong_apa.specs.State.{HasSameTasks, IsState};
ghost use Rattle.weak_apa.specs.Apart.{IsOnlyOn, IsNobodyOnlyOn, IsFirstOnlyIn, IsNobodyOnlyIn};
ghost use Rattle.weak_apa.specs.Compared.{Compares, IsFirstApart, linked_count};
ghost use Rattle.weak_apa.specs.WeakText.{comparison_line, name_or_dash};

use affinity_mask::OutOfMemory;
use link_table::Links;
use task_set::TaskSet;
use text_fields::{write_name, write_number};

/// How many tasks the weak and the strong scheduler have linked, and the most urgent task that just one of them has.
#[derive(Clone, Copy, Debug, PartialEq, Eq)]
pub struct Comparison {
    pub weak: u8,
    pub strong: u8,
    pub first: Option<u32>,
}

impl Comparison {
    /// Compares the links of the weak scheduler with those of the strong one, over the same tasks.
    pub fn new(weak: &Links, strong: &Links) -> Comparison
        requires { HasSameTasks weak.now strong.now }
        ensures { Compares weak.now strong.now result }
    {
        Comparison {
            weak: linked_count(weak),
            strong: linked_count(strong),
            first: first_apart(weak, strong),
        }
    }

    /// Appends the line of a comparison. Refused only where memory runs out.
    pub fn write(&self, text: &mut Vec<u8>, set: &TaskSet) -> Result<(), OutOfMemory>
        requires { ForSome self.now.first (λ t. t < length set.now.tasks) }
        ensures { OnOk result (text.new.items ≡ text.old.items ++ comparison_line set.now self.now) }
    {
        write_number(text, u64::from(self.weak))?;
        text.push(b' ')?;
        write_number(text, u64::from(self.strong))?;
        text.push(b' ')?;
        write_name_or_dash(text, set, self.first)?;
        text.push(b'\n')?;
        Ok(())
    }
}

/// Appends the name of a task, or a dash. Refused only where memory runs out.
fn write_name_or_dash(
    text: &mut Vec<u8>,
    set: &TaskSet,
    task: Option<u32>,
) -> Result<(), OutOfMemory>
    requires { ForSome task (λ t. t < length set.now.tasks) }
    ensures { OnOk result (text.new.items ≡ text.old.items ++ name_or_dash set.now task) }
{
    match task {
        Some(t) => write_name(text, set, t),
        None => {
            text.push(b'-')?;
            Ok(())
        }
    }
}

/// How many tasks are linked: as many as there are occupied processors.
fn linked_count(links: &Links) -> u8
    ensures { result ≡ linked_count links.now }
{
    let _valid = links.processors();
    links.linked().count()
}

/// The most urgent task that is linked in just one of two tables.
fn first_apart(weak: &Links, strong: &Links) -> Option<u32>
    requires { HasSameTasks weak.now strong.now }
    ensures { IsFirstApart weak.now strong.now result }
{
    let found = first_only_in(strong, weak);
    match first_only_in(weak, strong) {
        Some(t) => Some(strong.more_urgent(found, t)),
        None => found,
    }
}

/// The most urgent task that is linked in one table and not in another, if there is one.
fn first_only_in(one: &Links, other: &Links) -> Option<u32>
    requires { HasSameTasks one.now other.now }
    ensures first { MatchOption result (IsNobodyOnlyIn one.now other.now)
        (IsFirstOnlyIn one.now other.now) }
    ensures valid { IsState one.now }
{
    let mut found = None;
    for p in 0..one.processors() {
        if let Some(t) = only_on(one, other, p) {
            found = Some(one.more_urgent(found, t));
        }
    }
    found
}

/// The task that is linked to a processor in one table, where it is not linked in the other.
fn only_on(one: &Links, other: &Links, p: u8) -> Option<u32>
    requires processor { p < one.now.processors }
    requires tasks { HasSameTasks one.now other.now }
    ensures { MatchOption result (IsNobodyOnlyOn one.now other.now p) (IsOnlyOn one.now other.now p) }
{
    let t = one.on(p)?;
    if other.of(t).is_none() { Some(t) } else { None }
}
