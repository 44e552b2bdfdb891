//! A source in memory that never fails.
ghost use Rattle.std.specs.Prelude.{◌≡◌, ◌+◌, ◌≤◌, length, min, drop, Some, Ok};
ghost use Rattle.shift_io.specs.Causes.{HasCause};
ghost use Rattle.shift_io.specs.Stream.{Takes};
ghost use Rattle.shift_io.specs.SoundSource.{SoundSourceView};

use crate::calls::Calls;
use crate::source::{Failed, Source};
use std::marker::Model;

/// A source over bytes in memory that never fails: its count of faults is always 0. Contracts see
/// it as a `SoundSourceView`.
#[derive(Drop)]
pub struct SoundSource {
    bytes: Vec<u8>,
    taken: usize,
    calls: Calls,
}

impl Model for SoundSource {
    ghost Value = { SoundSourceView };

    ghost view = { λ source. record {
      left = drop source.taken source.bytes.items;
      calls = source.calls.count;
    } };

    ghost invariant = { λ source. source.taken ≤ length source.bytes.items };
}

impl SoundSource {
    /// A source that gives just these bytes. Takes no memory.
    pub fn new(bytes: Vec<u8>) -> SoundSource
        ensures fresh { result ≡ record { left = bytes.items; calls = 0 } }
    {
        SoundSource {
            bytes,
            taken: 0,
            calls: Calls::new(),
        }
    }
}

impl Source for SoundSource {
    ghost left = { λ source. Some source.left };

    ghost faults = { λ _. 0 };

    ghost calls = { λ source. source.calls };

    /// Gives as many bytes as are left and have room. Takes no memory.
    fn take(&mut self, into: &mut [u8]) -> Result<usize, Failed>
        ensures bytes { Takes (Some self.old.left) (Some self.new.left) result into.new }
        ensures cause { HasCause 0 0 result }
        ensures one_call { self.new.calls ≡ self.old.calls + 1 }

        ensures sound { result ≡ Ok (min (length self.old.left) (length into.old)) }
    {
        self.calls.tick();
        let left = &self.bytes[self.taken..];
        let count = left.len().min(into.len());
        into[..count].copy_from_slice(&left[..count]);
        self.taken += count;
        Ok(count)
    }
}
