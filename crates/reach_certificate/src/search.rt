//! The search for an idle processor.
ghost use Rattle.std.specs.Prelude.{◌<◌};
ghost use Rattle.strong_apa.specs.State.{task_count};
ghost use Rattle.reach_certificate.specs.Search.{IsSearched};

use affinity_mask::ProcSet;
use link_table::{Chain, Links};

/// What a search found.
#[derive(Drop)]
pub enum Found {
    /// The processors of a chain to an idle processor, from its end to its beginning.
    Way(Chain),

    /// The visited processors, and occupied ones, from which no shift leads out.
    Full(ProcSet),
}

/// Looks for a chain of a task to an idle processor, depth first, past the processors that were visited before.
pub fn find_way(links: &Links, t: u32, visited: ProcSet) -> Found
    requires { t < task_count links.now }
    ensures { IsSearched links.now t visited result }
{
    let mut seen = visited;
    for p in 0..links.processors() {
        if !links.effective(t).has(p) || seen.has(p) {
            continue;
        }
        seen = seen.with(p);
        let Some(u) = links.on(p) else {
            let mut back = Chain::new();
            back.push(p);
            return Found::Way(back);
        };
        match find_way(links, u, seen) {
            Found::Way(mut back) => {
                back.push(p);
                return Found::Way(back);
            }
            Found::Full(full) => seen = full,
        }
    }
    Found::Full(seen)
}
