//! What observers are handed: a picture, and that the entries which it shows are published.
ghost use Rattle.std.specs.Prelude.{◌≡◌};
ghost use Rattle.schedule_board.specs.Pictures.{IsPictureOf};

use crate::chronicle::Reached;
use crate::picture::Picture;
use left_right::Absorb;
use std::alloc::AllocError;

/// A picture, and the token that its entries are published.
#[derive(Drop)]
pub struct Shown {
    pub picture: Picture,
    pub reached: Reached,
    pub ghost drawn: { IsPictureOf picture.occupants.processors reached.log picture },
}

impl Shown {
    /// The same again.
    pub fn again(&self) -> Shown
        ensures { result ≡ self.now }
    {
        Shown {
            picture: self.picture,
            reached: self.reached.again(),
        }
    }
}

/// The whole new picture is the one operation.
impl Absorb<Shown> for Shown {
    type State = Shown;

    ghost state = { λ s. s };

    ghost applied = { λ s o. o };

    ghost never_fails = { Unit {0} };

    fn absorb_first(&mut self, operation: &Shown, _other: &Shown) -> Result<(), AllocError> {
        *self = operation.again();
        Ok(())
    }
}
