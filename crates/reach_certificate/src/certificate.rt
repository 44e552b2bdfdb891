//! The test of a certificate.
ghost use Rattle.std.specs.Prelude.{◌<◌, ◌↔◌, IsTrue};
ghost use Rattle.strong_apa.specs.State.{task_count};
ghost use Rattle.strong_apa.specs.Certificate.{IsCertificate};

use crate::set_rule::SetRule;
use affinity_mask::ProcSet;
use link_table::Links;

/// Whether the set certifies that the task rightly waits, where it does. It may be asked of any task and of any set:
/// the empty set certifies a task that may run nowhere, and a set with a processor that there is not certifies none.
pub fn is_certificate(links: &Links, w: u32, x: ProcSet) -> bool
    requires { w < task_count links.now }
    ensures { IsTrue result ↔ IsCertificate links.now w x }
{
    prove!(w < links.len());
    SetRule::HeldAgainst(w).first_misfit(links, x).is_none()
}
