//! Readers of std as sources.
ghost use Rattle.std.specs.Prelude.{◌≡◌, ◌+◌, OnOk, OnErr};
ghost use Rattle.shift_io.specs.Causes.{HasCause, count_after};
ghost use Rattle.shift_io.specs.Stream.{Takes};

use crate::calls::Calls;
use crate::source::{Failed, Source};
use std::io::Read;

/// A reader of std as a source. Each read that gives an `Err` is a fault, an interrupted one too.
/// It reports its bytes as the reader does. What a real file, pipe or terminal holds is trusted to
/// the reader.
#[derive(Drop)]
pub struct StdSource<R: Read> {
    reader: R,
    faults: u64,
    calls: Calls,
}

impl<R: Read> StdSource<R> {
    ghost use Rattle.shift_io.specs.StdSource.{bytes_left, call_count, fault_count};

    /// A source of what the reader has left. Lend the reader, as `&mut`, where it is used again
    /// later. Takes no memory.
    pub fn new(reader: R) -> StdSource<R>
        ensures bytes { bytes_left R.remaining result ≡ R.remaining reader }
        ensures faults { fault_count result ≡ 0 }
        ensures calls { call_count result ≡ 0 }
    {
        StdSource {
            reader,
            faults: 0,
            calls: Calls::new(),
        }
    }
}

impl<R: Read> Source for StdSource<R> {
    ghost use Rattle.shift_io.specs.StdSource.{bytes_left, call_count, fault_count};

    ghost left = { bytes_left R.remaining };

    ghost faults = { fault_count };

    ghost calls = { call_count };

    /// One read. The count of faults stands still at the last `u64`. Takes no memory.
    fn take(&mut self, into: &mut [u8]) -> Result<usize, Failed>
        ensures bytes { Takes (bytes_left R.remaining self.old) (bytes_left R.remaining self.new)
            result into.new }
        ensures cause { HasCause (fault_count self.old) (fault_count self.new) result }
        ensures one_call { call_count self.new ≡ call_count self.old + 1 }

        ensures kept { OnOk result (fault_count self.new ≡ fault_count self.old) }
        ensures counted { OnErr result (fault_count self.new ≡ count_after (fault_count self.old)) }
    {
        self.calls.tick();
        match self.reader.read(into) {
            Ok(count) => Ok(count),
            Err(_) => {
                self.faults = self.faults.saturating_add(1);
                Err(Failed)
            }
        }
    }
}
