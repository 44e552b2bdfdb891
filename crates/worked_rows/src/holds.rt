//! Where the gate of a case holds threads.
use crate::fault::LineFault;
use crate::gate::{Hold, Moment, Place};
use crate::reading::read_number;

/// A hold: a call of the gate, the word `until`, and the call that is waited for.
pub fn read_hold(words: &str) -> Result<Hold, LineFault> {
    let (at, until) = words.split_once(" until ").unwrap_or((words, ""));
    let at = read_moment(at)?;
    let until = read_moment(until)?;
    Ok(Hold { at, until })
}

/// A place of the gate, and which call there, from 1.
fn read_moment(words: &str) -> Result<Moment, LineFault> {
    let (place, call) = words.rsplit_once(' ').unwrap_or((words, ""));
    let place = read_place(place)?;
    let call = read_number(call)? as u64;
    Ok(Moment { place, call })
}

/// The number of a stream, a processor or an observer, below 64, and what it does where the gate is called.
pub fn read_place(words: &str) -> Result<Place, LineFault> {
    let (who, deed) = words.split_once(' ').unwrap_or((words, ""));
    let point = read_point(deed)?;
    match read_number(who)? {
        who if who < 64 => Ok(Place {
            who: who as u32,
            point,
        }),
        _ => Err(LineFault::BadNumber),
    }
}

/// A point of the gate.
fn read_point(deed: &str) -> Result<u32, LineFault> {
    match deed {
        "post" => Ok(0),
        "posted" => Ok(1),
        "take" => Ok(2),
        "read" => Ok(3),
        _ => Err(LineFault::UnknownLine),
    }
}
