//! What an observer saw of a history.
use schedule_board::Picture;

/// What an observer saw: the first and the last of its reads beside the posts, and the read after it was told of the whole
/// history.
#[derive(Clone, Copy)]
pub struct Sighting {
    pub first: Picture,
    pub last: Picture,
    pub told: Picture,
}
