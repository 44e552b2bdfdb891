//! The top call: from the words and the bytes read to the bytes written.
ghost use Rattle.std.specs.Prelude.{◌≡◌, ◌≢◌, ℕ, ◌+◌, ◌↔◌, ◌≤◌, ◌⊎◌, List, false, length, map, true, IfOk, IsErrOf, IsOk, string_bytes};
ghost use Rattle.std.specs.Io.KnownBytes.{Appends};
ghost use Rattle.shift_io.specs.declared.whole.ReadAllFault.{ReadAllFault};
ghost use Rattle.shift_io.specs.declared.whole.ReadAllFault.TheVariants as fault;
ghost use Rattle.shift_io.specs.Causes.{Rose};
ghost use Rattle.shift_io.specs.Stream.{TakesAtMost, TakesExactly, AppendsPrefix};
ghost use Rattle.commands.specs.declared.status.Status.{Status};
ghost use Rattle.commands.specs.Answers.{Answers};
ghost use Rattle.commands.specs.Status.{BeforePut};
ghost use Rattle.command_line.specs.declared.words.Command.{Command};
ghost use Rattle.command_line.specs.Command.{IsCommand, IsBounded, byte_limit, Reads, ReadsNothing, IsToRead, Makes, Accepts, Refuses, ReadsAndMakes, ReadsRefused};

use crate::large::summary_of;
use crate::replayed::replayed_text;
use crate::watch::watched_text;
use crate::words::{Command, command_of};
use commands::{
    MAX_BYTES, MAX_TRACE_BYTES, Status, checked_text, chrome_trace, drawn_text, imported_jobs_text,
    imported_text, jobs_schedule_text, jobs_text, lost_text, made_text, nested_text, show_text,
    weak_jobs_text, weak_text,
};
use processor_seat::Gate;
use shift_io::{ReadAllFault, Sink, Source, put_all, read_all};
use std::alloc::Global;
use std::sync::Wait;
use std::thread::Threads;

/// Does what the words say. `run` reads the source to its end as an input text, replays its events on threads, a worker
/// for each processor and a thread for each stream that has events, and writes the schedule text into the sink. The
/// gate is called before and after each post, and before the first try of each take. `check` reads the source as a
/// schedule text, whoever made it, and where that is a valid schedule, writes how many entries it has. `weak` reads an
/// input text, replays its events by the weak scheduler beside the strong one, and writes what differs. `nested` reads
/// an input text of version 1 whose masks nest, and writes what counts decide. `jobs` reads a text of jobs, stated one by
/// one or periodic, and writes when each of them ends, `weakjobs` when it ends under the weak scheduler and under the
/// strong one, and `runjobs` the schedule text of the run. `watch` works as `run` does, but for the posts, which are in the order of the lines, and beside it so many
/// observers read which processors are occupied, each on a thread of its own. It writes the schedule text, and then what
/// they read; the gate is also called before each of their reads. `import` reads a trace of the Linux scheduler, and
/// writes the input that it comes to, `importjobs` the text of the jobs that its tasks had, and `lost` what each of its
/// tasks lost beside the best set, and `show` a picture of what they did beside what strong scheduling would have had. `draw`, `steps` and `chrome` read what `check` reads, and of a valid schedule write a picture, or a trace in
/// Chrome's format. `make` writes the text of the input of its four numbers, and `large` replays that input as `run` does
/// and writes a summary; neither reads the source.
#[tactic(auto, unfolding(crate::specs::Command::Refuses))]
pub fn run<R: Threads + Wait + Sync, S: Source, K: Sink, G: Gate + Sync>(
    rt: &R,
    alloc: Global,
    words: &[String],
    source: &mut S,
    sink: &mut K,
    gate: &G,
) -> Status
    // The text that the command makes of the bytes that it read, whole.
    ensures done { result ≡ Status.Done → (text : List ℕ)
        × ReadsAndMakes (map string_bytes words.now) (S.left source.old) (S.left source.new) text
        × Appends (K.bytes sink.old) (K.bytes sink.new) text
        × (K.calls sink.new ≤ K.calls sink.old + length text) }

    // The words come first, then the source, then what was read, then the sink.
    ensures usage { (result ≡ Status.Usage)
        ↔ ((command : Command) → IsCommand (map string_bytes words.now) command → ⊥) }
    ensures unread { result ≡ Status.Usage → source.new ≡ source.old }
    ensures nothing_to_read { (command : Command) → IsCommand (map string_bytes words.now) command
        → ReadsNothing command → source.new ≡ source.old }
    ensures read_fault { result ≡ Status.ReadFault → Rose (S.faults source.old) (S.faults source.new) }
    ensures too_long { (most : ℕ) → result ≡ Status.TooLong most → (command : Command)
        → IsCommand (map string_bytes words.now) command → (most ≡ byte_limit command)
        × TakesExactly (S.left source.old) (S.left source.new) (most + 1) }
    ensures within { (command : Command) → IsCommand (map string_bytes words.now) command
        → ((most : ℕ) → result ≢ Status.TooLong most)
        → TakesAtMost (S.left source.old) (S.left source.new) (byte_limit command) }
    ensures input { (line kind : ℕ) → result ≡ Status.Input line kind
        → ReadsRefused (map string_bytes words.now) (S.left source.old) (S.left source.new) result }
    ensures version { result ≡ Status.Version
        → ReadsRefused (map string_bytes words.now) (S.left source.old) (S.left source.new) result }
    ensures crossing { (one other : ℕ) → result ≡ Status.Crossing one other
        → ReadsRefused (map string_bytes words.now) (S.left source.old) (S.left source.new) result }
    ensures invalid { (line defect : ℕ) → result ≡ Status.Invalid line defect
        → ReadsRefused (map string_bytes words.now) (S.left source.old) (S.left source.new) result }
    ensures write_fault { result ≡ Status.WriteFault → Rose (K.faults sink.old) (K.faults sink.new)
        × ((text : List ℕ)
        × ReadsAndMakes (map string_bytes words.now) (S.left source.old) (S.left source.new) text
        × AppendsPrefix (K.bytes sink.old) (K.bytes sink.new) text
        × (K.calls sink.new ≤ K.calls sink.old + length text)) }

    // At most two more takes than the most bytes that are read.
    ensures takes { (command : Command) → IsCommand (map string_bytes words.now) command
        → S.calls source.new ≤ S.calls source.old + byte_limit command + 2 }

    // Where nothing fails, the bytes alone decide, unless memory is out.
    ensures complete { (command : Command) (read : List ℕ)
        → IsCommand (map string_bytes words.now) command
        → IsToRead command (S.left source.old) read → Accepts command read
        → (Rose (S.faults source.old) (S.faults source.new) → ⊥)
        → (Rose (K.faults sink.old) (K.faults sink.new) → ⊥)
        → (result ≡ Status.Done) ⊎ (result ≡ Status.OutOfMemory) }
    ensures refuses { (command : Command) (read : List ℕ) (expected : Status)
        → IsCommand (map string_bytes words.now) command
        → IsToRead command (S.left source.old) read → Refuses command read expected
        → (Rose (S.faults source.old) (S.faults source.new) → ⊥)
        → (result ≡ expected) ⊎ (result ≡ Status.OutOfMemory) }
    ensures unput { BeforePut result (sink.new ≡ sink.old) }
{
    let Some(command) = command_of(words) else {
        return Status::Usage;
    };
    let bytes = match bytes_for(alloc, command, source) {
        Ok(bytes) => bytes,
        Err(ReadAllFault::ReadFault) => return Status::ReadFault,
        Err(ReadAllFault::TooLong) => {
            return Status::TooLong {
                most: limit_of(command) as u64,
            };
        }
        Err(ReadAllFault::OutOfMemory) => return Status::OutOfMemory,
    };
    let text = match text_made(rt, alloc, command, &bytes, gate) {
        Ok(text) => text,
        Err(refusal) => return refusal,
    };
    match put_all(sink, &text) {
        Ok(()) => Status::Done,
        Err(_) => Status::WriteFault,
    }
}

/// The bytes that a command reads: all that the source has left, or none, and then the source is not touched.
fn bytes_for<S: Source>(
    alloc: Global,
    command: Command,
    source: &mut S,
) -> Result<Vec<u8>, ReadAllFault>
    ensures reads { IfOk result (λ bytes.
        Reads command (S.left source.old) (S.left source.new) bytes.items) }
    ensures untouched { ReadsNothing command → source.new ≡ source.old }
    ensures nothing { ReadsNothing command → IsOk result }
    ensures read_fault { IsErrOf result fault.ReadFault →
        Rose (S.faults source.old) (S.faults source.new) }
    ensures too_long { IsErrOf result fault.TooLong →
        TakesExactly (S.left source.old) (S.left source.new) (byte_limit command + 1) }
    ensures within { IsErrOf result fault.TooLong
        ⊎ TakesAtMost (S.left source.old) (S.left source.new) (byte_limit command) }
    ensures takes { S.calls source.new ≤ S.calls source.old + byte_limit command + 2 }
{
    if reads_nothing(command) {
        return Ok(Vec::new(alloc));
    }
    read_all(alloc, source, limit_of(command))
}

/// Whether a command reads nothing.
fn reads_nothing(command: Command) -> bool
    ensures nothing { result ≡ true → ReadsNothing command }
    ensures something { result ≡ false → ReadsNothing command → ⊥ }
{
    matches!(command, Command::Make(_) | Command::Large(_))
}

/// The most bytes that a command reads.
fn limit_of(command: Command) -> usize
    ensures { result ≡ byte_limit command }
{
    match command {
        Command::Import | Command::ImportJobs | Command::Lost | Command::Show(_) => MAX_TRACE_BYTES,
        Command::Run
        | Command::Check
        | Command::Weak
        | Command::Nested
        | Command::Jobs
        | Command::WeakJobs
        | Command::RunJobs
        | Command::Watch(_)
        | Command::Draw(_, _)
        | Command::Chrome(_)
        | Command::Make(_)
        | Command::Large(_) => MAX_BYTES,
    }
}

/// The text that a command makes of these bytes, or the status that says why there is none.
#[tactic(auto, unfolding(crate::specs::Command::Makes, crate::specs::Command::Accepts, crate::specs::Command::Refuses))]
fn text_made<R: Threads + Wait + Sync, G: Gate + Sync>(
    rt: &R,
    alloc: Global,
    command: Command,
    bytes: &[u8],
    gate: &G,
) -> Result<Vec<u8>, Status>
    requires { IsBounded command }
    ensures { Answers (Makes command bytes.now) (Accepts command bytes.now)
        (Refuses command bytes.now) result }
{
    match command {
        Command::Run => replayed_text(rt, alloc, bytes, gate),
        Command::Check => checked_text(alloc, bytes),
        Command::Weak => weak_text(alloc, bytes),
        Command::Nested => nested_text(alloc, bytes),
        Command::Jobs => jobs_text(alloc, bytes),
        Command::WeakJobs => weak_jobs_text(alloc, bytes),
        Command::RunJobs => jobs_schedule_text(alloc, bytes),
        Command::Watch(observers) => watched_text(rt, alloc, bytes, observers, gate),
        Command::Import => imported_text(alloc, bytes),
        Command::ImportJobs => imported_jobs_text(alloc, bytes),
        Command::Draw(axis, window) => drawn_text(alloc, bytes, axis, window),
        Command::Chrome(start) => chrome_trace(alloc, bytes, start),
        Command::Lost => lost_text(alloc, bytes),
        Command::Show(window) => show_text(alloc, bytes, window),
        Command::Make(sizes) => {
            let text = made_text(alloc, sizes)?;
            Ok(text)
        }
        Command::Large(sizes) => {
            let text = summary_of(rt, alloc, sizes, gate)?;
            Ok(text)
        }
    }
}
