//! The count of the calls that were made on a stream. Only clauses read it.
ghost use Rattle.std.specs.Prelude.{◌≡◌, ℕ, ◌+◌};
ghost use Rattle.std.specs.Borrow.{ftrue};

use std::marker::Model;

/// How many calls of `take` or of `put` were made on a stream, for those who implement `Source` or
/// `Sink`. It is exact, takes no bytes, and to count takes no time: at run time there is no number.
#[derive(Drop)]
pub struct Calls {
    seal: (),
    pub ghost count: { ℕ },
}

impl Model for Calls {
    ghost also_owns = { λ _. ftrue };
}

// It owns nothing.
unsafe impl Send for Calls {}

unsafe impl Sync for Calls {}

impl Calls {
    /// No call yet.
    pub fn new() -> Calls
        ensures { result.count ≡ 0 }
    {
        Calls { seal: () }
    }

    /// One call more.
    pub fn tick(&mut self)
        ensures { self.new.count ≡ self.old.count + 1 }
    {}
}
