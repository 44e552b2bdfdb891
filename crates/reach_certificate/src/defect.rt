//! Why an entry is not accepted.
ghost use Rattle.std.specs.Prelude.{◌≡◌};
ghost use Rattle.reach_certificate.specs.Defect.{number_of};

/// The first part of a reply that fails.
#[derive(Clone, Copy, Debug, PartialEq, Eq)]
pub enum Defect {
    /// A reply of this kind may not stand with the event.
    WrongReply,

    /// The chain fails first at this place, counted from 0.
    BadChain(u8),

    /// Of the processors that do not fit the set, this is the least.
    BadSet(u8),

    /// This task had to be displaced, or had to come in, or had not to.
    WrongTask(u32),
}

impl Defect {
    /// The number of its kind. The kinds are tried in this order.
    pub fn number(&self) -> u8
        ensures { result ≡ number_of self.now }
    {
        match self {
            Defect::WrongReply => 1,
            Defect::BadChain(_) => 2,
            Defect::BadSet(_) => 3,
            Defect::WrongTask(_) => 4,
        }
    }
}
