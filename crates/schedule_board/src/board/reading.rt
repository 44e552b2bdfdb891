//! What an observer does.
ghost use Rattle.std.specs.Prelude.{◌≡◌, ◌++◌, ◌∷◌, [], true, length};
ghost use mathlib.Core.List.{IsPrefix};
ghost use Rattle.left_right.specs.Sides.{view};
ghost use Rattle.schedule_board.specs.Pictures.{IsPictureOf};
ghost use Rattle.schedule_board.specs.Views.{HasSeenPrefix};
ghost use Rattle.schedule_board.specs.Boards.{board_at, seen, told, looks};

use super::Observer;
use crate::picture::Picture;
use crate::rule::{Looks, Place};
use crate::shown::Shown;
use core::mem::replace_with;
use std::sync::Wait;

impl Observer {
    /// The picture of what is published at one moment of this call. Takes no turn, no pass and no memory. After the
    /// publisher was dropped it may not return.
    pub fn read<R: Wait>(&mut self, rt: &R) -> Picture
        ensures same { (board_at self.new ≡ board_at self.old) × (told self.new ≡ told self.old) }
        ensures later { IsPrefix (seen self.old) (seen self.new) }
        ensures told { IsPrefix (told self.old) (seen self.new) }
        ensures looks { looks self.new ≡ looks self.old ++ result.count ∷ [] }
        ensures picture { IsPictureOf (board_at self.old).processors (seen self.new) result }
    {
        let shown = replace_with(&mut self.place, rt, look::<R>);
        let mut both = shown.reached.again();
        both.learn(&self.told);
        if shown.picture.count() < self.told_count {
            wait_for_ever(rt)
        }
        shown.picture
    }
}

/// Enters until a value is handed out.
fn look<R: Wait>(place: Place, rt: &R) -> (Place, Shown)
    ensures seen { ((view result.0.place).seen ≡ result.1.reached)
        × ((view result.0.place).bound ≡ true)
        × ((view result.0.place).processors ≡ result.1.picture.occupants.processors) }
    ensures kept { HasSeenPrefix result.1 (view place.place) }
    ensures looks { (view result.0.place).looks
        ≡ (view place.place).looks ++ length result.1.reached.log ∷ [] }
{
    let mut place = place;
    for _ in rt.forever() {
        match place.enter_as::<Looks>() {
            Ok(reading) => {
                let shown = reading.get().again();
                return (reading.leave(), shown);
            }
            Err(back) => place = back,
        }
    }
    unreachable!()
}

/// What was told is published before it is told, so this is never met.
fn wait_for_ever<R: Wait>(rt: &R)
    ensures { ⊥ }
{
    for _ in rt.forever() {}
    unreachable!()
}
