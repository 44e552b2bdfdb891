//! The test of the task that enters where a processor has become idle.
ghost use Rattle.std.specs.Prelude.{◌≡◌, ◌≢◌, ◌<◌, [], MatchOption};
ghost use Rattle.reach_certificate.specs.Defect.{EntersRightly, EntersWrongly, last_processor};

use affinity_mask::ProcSet;
use link_table::{Chain, Links};

/// The task that should enter and does not, or not rightly, or that enters and should not.
pub fn wrong_entrant(
    links: &Links,
    entered: Option<u32>,
    chain: &Chain,
    back: ProcSet,
) -> Option<u32>
    requires { chain.now ≢ [] }
    ensures { MatchOption result (EntersRightly links.now entered chain.now back)
        (EntersWrongly links.now entered chain.now back) }
{
    let Some(v) = links.most_urgent_in(back) else {
        return entered;
    };
    if entered == Some(v) && links.effective(v).has(last_of(chain)) {
        None
    } else {
        Some(v)
    }
}

/// The processor on which a chain ends.
pub fn last_of(chain: &Chain) -> u8
    requires { chain.now ≢ [] }
    ensures value { result ≡ last_processor chain.now }
    ensures processor { result < 64 }
{
    chain.at(chain.len() - 1)
}
