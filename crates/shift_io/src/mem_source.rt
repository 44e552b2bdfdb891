//! A source in memory that fails at chosen calls.
ghost use Rattle.std.specs.Prelude.{◌≡◌, ◌+◌, ◌≤◌, length, Some, IsErr, Contains, ◌↔◌};
ghost use Rattle.shift_io.specs.Causes.{HasCause};
ghost use Rattle.shift_io.specs.Stream.{Takes};
ghost use Rattle.shift_io.specs.MemSource.{MemSourceView, TakesFrom};

use crate::calls::Calls;
use crate::fault_plan::FaultPlan;
use crate::sound_source::SoundSource;
use crate::source::{Failed, Source};
use std::marker::Model;

/// A source over bytes in memory that fails at chosen calls, for tests of whoever reads from it.
/// Contracts see it as a `MemSourceView`.
#[derive(Drop)]
pub struct MemSource {
    bytes: SoundSource,
    most: usize,
    plan: FaultPlan,
    calls: Calls,
}

impl Model for MemSource {
    ghost Value = { MemSourceView };

    ghost view = { λ source. record {
      left = source.bytes.left;
      most = source.most;
      fails = source.plan.fails;
      call = source.plan.call;
      faults = source.plan.faults;
      calls = source.calls.count;
    } };

    ghost invariant = { λ source. 1 ≤ source.most };
}

impl MemSource {
    /// A source that gives these bytes, at most `most` at a call, and fails at the calls whose
    /// numbers, from 0, are in `fails`. Takes no memory.
    pub fn new(bytes: Vec<u8>, most: usize, fails: Vec<u64>) -> MemSource
        requires { 1 ≤ most }
        ensures fresh { result ≡ record {
          left = bytes.items;
          most = most;
          fails = fails.items;
          call = 0;
          faults = 0;
          calls = 0;
        } }
    {
        MemSource {
            bytes: SoundSource::new(bytes),
            most,
            plan: FaultPlan::new(fails),
            calls: Calls::new(),
        }
    }
}

impl Source for MemSource {
    ghost left = { λ source. Some source.left };

    ghost faults = { λ source. source.faults };

    ghost calls = { λ source. source.calls };

    /// Takes no memory. The number of the next call and the count of faults stand still at the last
    /// `u64`.
    fn take(&mut self, into: &mut [u8]) -> Result<usize, Failed>
        ensures bytes { Takes (Some self.old.left) (Some self.new.left) result into.new }
        ensures cause { HasCause self.old.faults self.new.faults result }
        ensures one_call { self.new.calls ≡ self.old.calls + 1 }

        ensures fails { IsErr result ↔ Contains self.old.fails self.old.call }
        ensures after { TakesFrom self.old self.new result (length into.old) }
    {
        self.calls.tick();
        self.plan.next_call(false)?;
        let room = into.len().min(self.most);
        self.bytes.take(&mut into[..room])
    }
}
