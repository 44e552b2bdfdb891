//! Why a set of tasks has no scheduler by counts.
ghost use Rattle.std.specs.Prelude.{◌≡◌};

use affinity_mask::OutOfMemory;

/// Why there is no scheduler by counts.
#[derive(Clone, Copy, Debug, PartialEq, Eq)]
pub enum NestedFault {
    /// The masks of these two tasks meet, and neither lies within the other. It is the pair with the least `one`, and of
    /// those with the least `other`, where `one` is below `other`.
    Crossing { one: u32, other: u32 },

    /// Memory was refused.
    OutOfMemory,
}

impl From<OutOfMemory> for NestedFault {
    ghost use Rattle.nested_masks.specs.declared.fault.NestedFault.TheVariants.{OutOfMemory};

    ghost from_gives = { λ _ fault. fault ≡ OutOfMemory };

    fn from(_refused: OutOfMemory) -> NestedFault {
        NestedFault::OutOfMemory
    }
}
