//! Writers of std as sinks.
ghost use Rattle.std.specs.Prelude.{◌≡◌, ◌+◌, ◌<◌, ◌≤◌, length, take, None, IfSome, IfOk, OnOk, OnErr};
ghost use Rattle.std.specs.Io.KnownBytes.{Appends};
ghost use Rattle.shift_io.specs.Causes.{HasCause, count_after};
ghost use Rattle.shift_io.specs.Stream.{Puts};

use crate::calls::Calls;
use crate::sink::Sink;
use crate::source::Failed;
use std::io::Write;

/// A writer of std as a sink. One put is one write and one flush; an `Err` of either is a fault,
/// and so is a write that takes nothing. It does not report its bytes, because a flush may fail after
/// the write took some. What a real file, pipe or terminal took is trusted to the writer.
#[derive(Drop)]
pub struct StdSink<W: Write> {
    writer: W,
    faults: u64,
    calls: Calls,
}

impl<W: Write> StdSink<W> {
    ghost use Rattle.shift_io.specs.StdSink.{call_count, fault_count, writer_contents};

    /// A sink that puts into the writer. Lend the writer, as `&mut`, where it is used again later.
    /// Takes no memory.
    pub fn new(writer: W) -> StdSink<W>
        ensures contents { writer_contents W.contents result ≡ W.contents writer }
        ensures faults { fault_count result ≡ 0 }
        ensures calls { call_count result ≡ 0 }
    {
        StdSink {
            writer,
            faults: 0,
            calls: Calls::new(),
        }
    }
}

impl<W: Write> Sink for StdSink<W> {
    ghost use Rattle.shift_io.specs.StdSink.{call_count, fault_count, writer_contents};

    ghost bytes = { λ _. None };

    ghost faults = { fault_count };

    ghost calls = { call_count };

    /// One write and one flush, and neither for an empty piece. The count of faults stands still at
    /// the last `u64`. Takes no memory.
    fn put(&mut self, from: &[u8]) -> Result<usize, Failed>
        ensures bytes { Puts None None result from.now }
        ensures cause { HasCause (fault_count self.old) (fault_count self.new) result }
        ensures one_call { call_count self.new ≡ call_count self.old + 1 }

        ensures kept { OnOk result (fault_count self.new ≡ fault_count self.old) }
        ensures counted { OnErr result (fault_count self.new ≡ count_after (fault_count self.old)) }

        // What the writer reports of its own bytes; after a failure nothing is said.
        ensures written { IfOk result (λ n. Appends (writer_contents W.contents self.old)
            (writer_contents W.contents self.new) (take n from.now)) }
    {
        self.calls.tick();
        if from.is_empty() {
            return Ok(0);
        }
        let Some(count) = write_flushed(&mut self.writer, from) else {
            self.faults = self.faults.saturating_add(1);
            return Err(Failed);
        };
        Ok(count)
    }
}

/// How many bytes one write took, where it took some and the flush after it went well.
fn write_flushed<W: Write>(writer: &mut W, from: &[u8]) -> Option<usize>
    requires { 0 < length from.now }
    ensures bound { IfSome result (λ n. (0 < n) × (n ≤ length from.now)) }
    ensures written { IfSome result (λ n.
        Appends (W.contents writer.old) (W.contents writer.new) (take n from.now)) }
{
    let count = writer.write(from).ok()?;
    if count == 0 {
        return None;
    }
    writer.flush().ok()?;
    Some(count)
}
