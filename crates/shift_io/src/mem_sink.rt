//! A sink in memory that fails at chosen calls.
ghost use Rattle.std.specs.Prelude.{◌≡◌, ◌+◌, ◌-◌, ◌<◌, ◌≤◌, [], ◌++◌, length, take, Some, IsErr, Contains, vec_len, ◌⊎◌, ◌↔◌};
ghost use Rattle.shift_io.specs.Causes.{HasCause};
ghost use Rattle.shift_io.specs.Stream.{Puts};
ghost use Rattle.shift_io.specs.MemSink.{MemSinkView, PutsInto, sink_after_call};

use crate::calls::Calls;
use crate::fault_plan::FaultPlan;
use crate::sink::Sink;
use crate::source::Failed;
use std::marker::Model;

/// A sink over memory that its maker hands in, which fails at chosen calls, for tests of whoever
/// writes to it. Contracts see it as a `MemSinkView`.
#[derive(Drop)]
pub struct MemSink {
    room: Vec<u8>,
    filled: usize,
    most: usize,
    plan: FaultPlan,
    calls: Calls,
}

impl Model for MemSink {
    ghost Value = { MemSinkView };

    ghost view = { λ sink. record {
      bytes = take sink.filled sink.room.items;
      room = length sink.room.items - sink.filled;
      most = sink.most;
      fails = sink.plan.fails;
      call = sink.plan.call;
      faults = sink.plan.faults;
      calls = sink.calls.count;
    } };

    ghost invariant = { λ sink. (sink.filled ≤ length sink.room.items) × (1 ≤ sink.most) };
}

impl MemSink {
    /// A sink with no bytes yet. What is put overwrites `room` from its start, at most `most` bytes
    /// at a call. The calls with a piece that is not empty are numbered from 0; those fail whose
    /// number is in `fails` or that find no room left. Neither this nor any call takes memory.
    pub fn new(room: Vec<u8>, most: usize, fails: Vec<u64>) -> MemSink
        requires { 1 ≤ most }
        ensures fresh { result ≡ record {
          bytes = [];
          room = vec_len room;
          most = most;
          fails = fails.items;
          call = 0;
          faults = 0;
          calls = 0;
        } }
    {
        MemSink {
            room,
            filled: 0,
            most,
            plan: FaultPlan::new(fails),
            calls: Calls::new(),
        }
    }

    /// The bytes that were appended.
    pub fn bytes(&self) -> &[u8]
        ensures bytes { result.now ≡ self.now.bytes }
    {
        &self.room[..self.filled]
    }
}

impl Sink for MemSink {
    ghost bytes = { λ sink. Some sink.bytes };

    ghost faults = { λ sink. sink.faults };

    ghost calls = { λ sink. sink.calls };

    /// The number of the next call and the count of faults stand still at the last `u64`. A call with
    /// an empty piece has no number.
    fn put(&mut self, from: &[u8]) -> Result<usize, Failed>
        ensures bytes { Puts (Some self.old.bytes) (Some self.new.bytes) result from.now }
        ensures cause { HasCause self.old.faults self.new.faults result }
        ensures one_call { self.new.calls ≡ self.old.calls + 1 }

        ensures fails { IsErr result ↔ ((0 < length from.now) ×
            ((self.old.room ≡ 0) ⊎ Contains self.old.fails self.old.call)) }
        ensures after { 0 < length from.now → PutsInto self.old self.new result from.now }
        ensures empty { length from.now ≡ 0 → self.new ≡ sink_after_call self.old }
    {
        self.calls.tick();
        if from.is_empty() {
            return Ok(0);
        }
        let room = self.room.len() - self.filled;
        self.plan.next_call(room == 0)?;
        let count = from.len().min(self.most).min(room);
        overwrite(&mut self.room, self.filled, &from[..count]);
        self.filled += count;
        Ok(count)
    }
}

/// Overwrites the places from `at` on by the piece.
fn overwrite(room: &mut [u8], at: usize, piece: &[u8])
    requires { at + length piece.now ≤ length room.old }
    ensures prefix { take (at + length piece.now) room.new ≡ take at room.old ++ piece.now }
{
    room[at..at + piece.len()].copy_from_slice(piece);
}
