//! The words of a call, and the command that they mean.
ghost use Rattle.std.specs.Prelude.{◌≡◌, ℕ, [], ◌∷◌, MatchOption, map, string_bytes, codes};
ghost use Rattle.command_line.specs.declared.words.Command.{Command};
ghost use Rattle.commands.specs.declared.sizes.Sizes.{Sizes};
ghost use Rattle.schedule_picture.specs.declared.window.Window.{Window};
ghost use Rattle.command_line.specs.Command.{IsCommand, IsWindow, AreSizes};
ghost use Rattle.text_fields.specs.Number.{IsNumberWithin};

use crate::watch::MAX_OBSERVERS;
use commands::Sizes;
use schedule_picture::{Axis, LAST_START, Window};
use task_set::MAX_TASKS;
use text_fields::limits::{MAX_EVENTS, MAX_PROCESSORS};
use text_fields::read_number;

/// What the program can do.
#[derive(Clone, Copy, Debug, PartialEq, Eq)]
pub enum Command {
    /// The source is an input text; its events are replayed, and the schedule text is written.
    Run,
    /// The source is a schedule text; it is checked, and the number of its entries is written.
    Check,
    /// The source is an input text; its events are replayed by the weak scheduler and by the strong one, and what differs
    /// is written.
    Weak,
    /// The source is an input text of version 1 whose masks nest; its events are decided by counts, and the replies are
    /// written.
    Nested,
    /// The source is a text of jobs; they are released and run, and when each of them ends is written.
    Jobs,
    /// The source is a text of jobs; they are released and run by the weak scheduler and by the strong one, and when each
    /// of them ends under either is written.
    WeakJobs,
    /// The source is a text of jobs; they are released and run, and the schedule text of the run is written.
    RunJobs,
    /// The source is an input text; its events are replayed while so many observers read, and the schedule text is
    /// written, and what they read.
    Watch(u32),
    /// The source is a trace of the Linux scheduler, and the text of the input that it comes to is written.
    Import,
    /// The source is a trace of the Linux scheduler, and the text of the jobs that its tasks had is written.
    ImportJobs,
    /// The source is a schedule text; it is checked, and a picture of this window of it is written.
    Draw(Axis, Window),
    /// The source is a schedule text; it is checked, and a trace of it in Chrome's format that begins at this moment is
    /// written.
    Chrome(u64),
    /// The source is a trace of the Linux scheduler, and what each of its tasks lost is written.
    Lost,
    /// The source is a trace of the Linux scheduler, and a picture of this window of it is written.
    Show(Window),
    /// The text of the input of these numbers is written. Nothing is read.
    Make(Sizes),
    /// The events of the input of these numbers are replayed, and a summary of the schedule is written. Nothing is
    /// read.
    Large(Sizes),
}

/// The whole of a schedule or a trace: none ends later.
const WHOLE: Window = Window {
    from: 0,
    to: u64::MAX,
};

/// The command that the words mean, if they mean one.
pub fn command_of(words: &[String]) -> Option<Command>
    ensures { MatchOption result ((command : Command) → IsCommand (map string_bytes words.now) command → ⊥)
        (IsCommand (map string_bytes words.now)) }
{
    match words {
        [word] => match word.as_str() {
            "run" => Some(Command::Run),
            "check" => Some(Command::Check),
            "weak" => Some(Command::Weak),
            "nested" => Some(Command::Nested),
            "jobs" => Some(Command::Jobs),
            "weakjobs" => Some(Command::WeakJobs),
            "runjobs" => Some(Command::RunJobs),
            "import" => Some(Command::Import),
            "importjobs" => Some(Command::ImportJobs),
            "draw" => Some(Command::Draw(Axis::Time, WHOLE)),
            "steps" => Some(Command::Draw(Axis::Steps, WHOLE)),
            "chrome" => Some(Command::Chrome(0)),
            "lost" => Some(Command::Lost),
            "show" => Some(Command::Show(WHOLE)),
            _ => None,
        },
        [word, number] => numbered(word, number),
        [word, from, to] => {
            let Some(window) = window_of(from, to) else {
                return None;
            };
            match word.as_str() {
                "draw" => Some(Command::Draw(Axis::Time, window)),
                "steps" => Some(Command::Draw(Axis::Steps, window)),
                "show" => Some(Command::Show(window)),
                _ => None,
            }
        }
        [word, number, processors, tasks, events] => {
            let Some(sizes) = sizes_of(number, processors, tasks, events) else {
                return None;
            };
            match word.as_str() {
                "make" => Some(Command::Make(sizes)),
                "large" => Some(Command::Large(sizes)),
                _ => None,
            }
        }
        _ => None,
    }
}

/// The command that a word and a number mean, if they mean one.
fn numbered(word: &str, number: &str) -> Option<Command>
    ensures { MatchOption result
        ((command : Command) → IsCommand (word.now ∷ number.now ∷ []) command → ⊥)
        (IsCommand (word.now ∷ number.now ∷ [])) }
{
    match word {
        "watch" => {
            let observers = observers_of(number)?;
            Some(Command::Watch(observers))
        }
        "chrome" => {
            let start = start_of(number)?;
            Some(Command::Chrome(start))
        }
        _ => None,
    }
}

/// The moment at which a trace begins that this word is, if it is a number within its bounds.
fn start_of(number: &str) -> Option<u64>
    ensures { MatchOption result
        ((start : ℕ) → IsNumberWithin 0 9007199254740991 number.now start → ⊥)
        (IsNumberWithin 0 9007199254740991 number.now) }
{
    read_number(number.as_bytes(), 0, LAST_START)
}

/// The number of observers that this word is, if it is a number within its bounds.
fn observers_of(number: &str) -> Option<u32>
    ensures { MatchOption result
        ((observers : ℕ) → IsNumberWithin 1 8 number.now observers → ⊥)
        (IsNumberWithin 1 8 number.now) }
{
    let observers = read_number(number.as_bytes(), 1, MAX_OBSERVERS as u64)?;
    Some(observers as u32)
}

/// The window from one of these words to the other, if they are numbers, and the second is no less than the first.
fn window_of(from: &str, to: &str) -> Option<Window>
    ensures { MatchOption result ((window : Window) → IsWindow from.now to.now window → ⊥)
        (IsWindow from.now to.now) }
{
    let from = read_number(from.as_bytes(), 0, u64::MAX)?;
    let to = read_number(to.as_bytes(), from, u64::MAX)?;
    Some(Window { from, to })
}

/// The numbers that these words are, if each is a number within its bounds.
fn sizes_of(number: &str, processors: &str, tasks: &str, events: &str) -> Option<Sizes>
    ensures { MatchOption result
        ((sizes : Sizes) → AreSizes number.now processors.now tasks.now events.now sizes → ⊥)
        (AreSizes number.now processors.now tasks.now events.now) }
{
    let number = read_number(number.as_bytes(), 0, u64::MAX)?;
    let processors = read_number(processors.as_bytes(), 1, MAX_PROCESSORS)?;
    let tasks = read_number(tasks.as_bytes(), 1, MAX_TASKS as u64)?;
    let events = read_number(events.as_bytes(), 0, MAX_EVENTS as u64)?;
    Some(Sizes {
        number,
        processors: processors as u8,
        tasks: tasks as u32,
        events: events as u32,
    })
}
