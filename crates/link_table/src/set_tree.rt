//! Sets in a row, with a tree of unions over them.
ghost use Rattle.std.specs.Prelude.{◌≡◌, ℕ, ◌<◌, ◌≤◌, set, length, get_or, IfOk, MatchOption};
ghost use Rattle.std.specs.List.{swap};
ghost use Rattle.affinity_mask.specs.ProcSet.{empty};
ghost use Rattle.link_table.specs.SetTree.{IsWidthFor, IsMetByNone, IsFirstMeeting};

use affinity_mask::{OutOfMemory, ProcSet};
use std::alloc::Global;
use std::marker::Model;

/// A row of sets. The first one that meets a given set is found from the root down: where the union over a half meets
/// it, some set of that half does.
#[derive(Drop)]
pub(crate) struct SetTree {
    /// How many leaves there are: a power of two.
    width: usize,

    /// From place 1 on: below place k stand 2k and 2k + 1, and the leaves are the last half.
    nodes: Vec<ProcSet>,
}

impl Model for SetTree {
    ghost use Rattle.std.specs.Prelude.{ℕ, List};

    ghost Value = { List ℕ };

    ghost use Rattle.link_table.specs.SetTree.{leaf_row, IsSummed};

    ghost view = { leaf_row };

    ghost invariant = { IsSummed };
}

impl SetTree {
    /// So many empty sets, or more.
    pub(crate) fn new(alloc: Global, least: usize) -> Result<SetTree, OutOfMemory>
        requires { least ≤ 1024 }
        ensures width { IfOk result (λ tree. IsWidthFor least (length tree)) }
        ensures empty { IfOk result (λ tree. (r : ℕ) → get_or tree r empty ≡ empty) }
    {
        let width = width_for(least);
        let mut nodes = Vec::new(alloc);
        for _k in 0..2 * width {
            nodes.push(ProcSet::empty())?;
        }
        Ok(SetTree { width, nodes })
    }

    /// Writes a set at a place of the row. The unions above it follow, up to the first that stays as it was.
    pub(crate) fn write(&mut self, r: usize, item: ProcSet)
        requires { r < length self.old }
        ensures { self.new ≡ set self.old r item }
    {
        let mut k = self.width + r;
        let mut sum = item;
        while k > 0 && sum != self.nodes[k] {
            self.nodes[k] = sum;
            sum = sum.either_of(&self.nodes[k ^ 1]);
            k /= 2;
        }
    }

    /// The sets at two places of the row change places.
    pub(crate) fn swap(&mut self, r: usize, other: usize)
        requires place { r < length self.old }
        requires other { other < length self.old }
        ensures { self.new ≡ swap self.old r other }
    {
        let first = self.at(r);
        let second = self.at(other);
        self.write(r, second);
        self.write(other, first);
    }

    /// The set at a place of the row.
    fn at(&self, r: usize) -> ProcSet
        requires { r < length self.now }
        ensures { result ≡ get_or self.now r empty }
    {
        self.nodes[self.width + r]
    }

    /// The place of the first set of the row that meets this one.
    pub(crate) fn first_meeting(&self, other: &ProcSet) -> Option<usize>
        ensures { MatchOption result (IsMetByNone self.now other.now) (IsFirstMeeting self.now other.now) }
    {
        if !other.meets(&self.nodes[1]) {
            return None;
        }
        let mut k = 1;
        while k < self.width {
            if other.meets(&self.nodes[k + k]) {
                k += k;
            } else {
                k += k + 1;
            }
        }
        Some(k - self.width)
    }

    /// Becomes equal to another row of as many sets. No memory is taken.
    pub(crate) fn set_to(&mut self, other: &SetTree)
        requires { length self.old ≡ length other.now }
        ensures { self.new ≡ other.now }
    {
        self.nodes.copy_from_slice(&other.nodes);
    }
}

/// The least power of two that is not less.
fn width_for(least: usize) -> usize
    requires { least ≤ 1024 }
    ensures width { IsWidthFor least result }
    ensures bound { result ≤ 2048 }
{
    let mut width = 1;
    while width < least {
        width += width;
    }
    width
}
