//! Who is on a processor, whether the machine has it or not.
ghost use Rattle.std.specs.Prelude.{◌≡◌, ◌<◌, ◌↔◌, IsTrue};
ghost use Rattle.strong_apa.specs.State.{IsState, task_on};
ghost use Rattle.strong_apa.specs.Chain.{CanShift};

use link_table::Links;

/// The task that is linked to a processor. On one that the machine does not have there is nobody.
pub fn occupant(links: &Links, q: u8) -> Option<u32>
    ensures value { result ≡ task_on links.now q }
    ensures valid { IsState links.now }
{
    if q >= links.processors() {
        return None;
    }
    links.on(q)
}

/// Whether the occupant of a processor may run on another one.
pub fn can_shift(links: &Links, p: u8, q: u8) -> bool
    requires { q < 64 }
    ensures { IsTrue result ↔ CanShift links.now p q }
{
    match occupant(links, p) {
        Some(u) => links.effective(u).has(q),
        None => false,
    }
}
