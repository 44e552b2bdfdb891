//! The levels of a search, in a list.
ghost use Rattle.std.specs.Prelude.{◌≡◌, ℕ, ◌<◌, ◌≤◌, List, [], ◌∷◌, ◌++◌, length, get_or, take};
ghost use Rattle.affinity_mask.specs.ProcSet.{empty};

use affinity_mask::ProcSet;
use std::marker::Model;

/// A list of at most 64 sets of processors. It lies in the value itself and takes no memory.
#[derive(Drop)]
pub struct Levels {
    sets: [ProcSet; 64],
    count: usize,
}

impl Model for Levels {
    ghost use Rattle.std.specs.Prelude.{◌≡◌, ℕ, ◌≤◌, List, length, take};

    ghost Value = { List ℕ };

    ghost view = { λ l. take l.count l.sets };

    ghost invariant = { λ l. (length l.sets ≡ 64) × (l.count ≤ 64) };
}

impl Levels {
    /// The empty list.
    pub fn new() -> Levels
        ensures { result ≡ [] }
    {
        Levels {
            sets: [ProcSet::empty(); 64],
            count: 0,
        }
    }

    /// How many sets it has.
    pub fn len(&self) -> usize
        ensures value { result ≡ length self.now }
        ensures fits { result ≤ 64 }
    {
        self.count
    }

    /// The set at place `i`, counted from 0.
    pub fn at(&self, i: usize) -> ProcSet
        requires { i < length self.now }
        ensures { result ≡ get_or self.now i empty }
    {
        let _fits = self.len();
        self.sets[i]
    }

    /// Puts a set at the end.
    pub fn push(&mut self, set: ProcSet)
        requires { length self.old < 64 }
        ensures { self.new ≡ self.old ++ set ∷ [] }
    {
        self.sets[self.count] = set;
        self.count += 1;
    }
}
