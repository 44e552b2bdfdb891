//! Masks that cross.
ghost use Rattle.std.specs.Prelude.{◌<◌, ◌≤◌, ◌↔◌, IsTrue, MatchOption, length};
ghost use Rattle.nested_masks.specs.Laminar.{Cross, IsLaminar, IsFirstCrossing};
ghost use Rattle.nested_masks.specs.Scans.{CrossesNone, IsFirstCrossed};

use affinity_mask::ProcSet;

/// The first two tasks whose masks cross, by the lower number and then by the higher.
pub(crate) fn first_crossing(masks: &[ProcSet]) -> Option<(u32, u32)>
    requires { length masks.now ≤ 1024 }
    ensures { MatchOption result (IsLaminar masks.now) (λ pair. IsFirstCrossing masks.now pair.0 pair.1) }
{
    for one in 0..masks.len() {
        if let Some(other) = first_crossed(masks, one) {
            return Some((one as u32, other));
        }
    }
    None
}

/// The first task after one whose mask crosses that of this one.
fn first_crossed(masks: &[ProcSet], one: usize) -> Option<u32>
    requires number { one < length masks.now }
    requires few { length masks.now ≤ 1024 }
    ensures { MatchOption result (CrossesNone masks.now one) (IsFirstCrossed masks.now one) }
{
    for other in one + 1..masks.len() {
        if cross(masks, one, other) {
            return Some(other as u32);
        }
    }
    None
}

/// Whether the masks of two tasks meet, and neither lies within the other. Equal masks do not cross.
fn cross(masks: &[ProcSet], one: usize, other: usize) -> bool
    requires one { one < length masks.now }
    requires other { other < length masks.now }
    ensures { IsTrue result ↔ Cross masks.now one other }
{
    let (x, y) = (masks[one], masks[other]);
    x.meets(&y) && !x.within(&y) && !y.within(&x)
}
