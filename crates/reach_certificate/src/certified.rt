//! The test of a certificate for each waiting task.
ghost use Rattle.std.specs.Prelude.{◌≡◌, ◌↔◌, length, IsTrue};
ghost use Rattle.strong_apa.specs.State.{task_count};
ghost use Rattle.strong_apa.specs.Certified.{IsCertifiedBy};
ghost use Rattle.strong_apa.specs.CertificateLaws.{LinkedIsBest, LinkedIsLargest, LinkedIsAsUrgent};

use crate::is_certificate;
use affinity_mask::ProcSet;
use link_table::Links;

/// Whether each waiting task is certified by the set at its number. The sets of the other tasks are not looked at.
pub fn all_certified(links: &Links, sets: &[ProcSet]) -> bool
    requires { length sets.now ≡ task_count links.now }
    ensures certified { IsTrue result ↔ IsCertifiedBy links.now sets.now }
    ensures best { IsTrue result → LinkedIsBest links.now }
    ensures largest { IsTrue result → LinkedIsLargest links.now }
    ensures rank_by_rank { IsTrue result → LinkedIsAsUrgent links.now }
{
    for t in 0..links.len() {
        if links.is_waiting(t) && !is_certificate(links, t, sets[t as usize]) {
            return false;
        }
    }
    true
}
