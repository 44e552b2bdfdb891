//! Lists of processors.
ghost use Rattle.std.specs.Prelude.{◌≡◌, ℕ, ◌<◌, ◌≤◌, ◌↔◌, List, [], ◌∷◌, ◌++◌, length, reverse, slice_get, Some, All, IsTrue, nat_eq};
ghost use Rattle.std.specs.Cmp.{partial_equiv_from_equiv};
ghost use Rattle.std.specs.Cmp.Lexicographic.{pointwise, nat_list_eq_equiv};

use arrayvec::ArrayVec;
use std::marker::Model;

/// A list of at most 64 processors, along which tasks are shifted. It lies in the value itself and takes no memory.
#[derive(Debug, Drop)]
pub struct Chain {
    processors: ArrayVec<u8, 64>,
}

impl Model for Chain {
    ghost Value = { List ℕ };

    ghost view = { λ c. c.processors.items };

    ghost invariant = { λ c. (length c.processors.items ≤ 64) × All (λ p. p < 64) c.processors.items };
}

impl Chain {
    /// The empty list.
    pub fn new() -> Chain
        ensures { result ≡ [] }
    {
        Chain {
            processors: ArrayVec::new(),
        }
    }

    /// How many processors it has, with repetitions.
    pub fn len(&self) -> usize
        ensures value { result ≡ length self.now }
        ensures fits { result ≤ 64 }
    {
        self.processors.len()
    }

    /// Whether it has no processor. A chain of a task has one at least.
    pub fn is_empty(&self) -> bool
        ensures { IsTrue result ↔ (self.now ≡ []) }
    {
        self.processors.is_empty()
    }

    /// The processors, in their order.
    pub fn processors(&self) -> &[u8]
        ensures value { result.now ≡ self.now }
        ensures each { All (λ p. p < 64) result.now }
        ensures fits { length result.now ≤ 64 }
    {
        self.processors.as_slice()
    }

    /// The processor at place `i`, counted from 0.
    pub fn at(&self, i: usize) -> u8
        requires { i < length self.now }
        ensures value { slice_get self.now i ≡ Some result }
        ensures processor { result < 64 }
    {
        self.processors[i]
    }

    /// Puts a processor at the end. Of 64 processors a list that repeats none always has room.
    pub fn push(&mut self, p: u8)
        requires room { length self.old < 64 }
        requires processor { p < 64 }
        ensures { self.new ≡ self.old ++ p ∷ [] }
    {
        self.processors.push(p);
    }

    /// The list from its end to its start: a back chain read in the direction in which tasks move.
    pub fn reversed(&self) -> Chain
        ensures { result ≡ reverse self.now }
    {
        let mut reversed = Chain::new();
        let len = self.len();
        for i in 0..len {
            reversed.push(self.at(len - 1 - i));
        }
        reversed
    }

    /// The same list. Unlike `clone` it wants no allocator and cannot fail.
    pub fn copy(&self) -> Chain
        ensures { result ≡ self.now }
    {
        let mut copy = Chain::new();
        copy.put_all(self.processors());
        copy
    }

    /// Puts these processors into a list that is empty.
    fn put_all(&mut self, processors: &[u8])
        requires empty { self.old ≡ [] }
        requires few { length processors.now ≤ 64 }
        requires each { All (λ p. p < 64) processors.now }
        ensures { self.new ≡ processors.now }
    {
        let _ = self.processors.try_extend_from_slice(processors);
    }
}

impl PartialEq for Chain {
    ghost eq = { pointwise nat_eq };

    ghost laws = { partial_equiv_from_equiv nat_list_eq_equiv };

    fn eq(&self, other: &Chain) -> bool {
        self.processors == other.processors
    }
}

impl Eq for Chain {
    ghost laws = { nat_list_eq_equiv };
}
