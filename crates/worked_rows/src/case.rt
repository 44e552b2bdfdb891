//! What a case says.
ghost use Rattle.std.specs.Prelude.{◌≤◌};

use crate::gate::{Hold, Place};
use std::alloc::Global;

/// What is run on which bytes, and how the streams behave.
#[derive(Drop)]
pub struct Case {
    /// What it shows.
    pub name: String,
    /// What is done, one after another.
    pub stages: Vec<CaseStage>,
    /// How each source gives bytes.
    pub takes: Pieces,
    /// How each sink takes bytes.
    pub puts: Pieces,
    /// How many bytes each sink has room for.
    pub room: usize,
    /// What depends on how threads run, and so is not written.
    pub alike: Vec<String>,
    /// How often it is run.
    pub times: usize,
    /// Where the gate holds threads.
    pub holds: Vec<Hold>,
    /// Whether the gate takes its time.
    pub slow: bool,
    /// Whether it is run for each prefix of its text.
    pub each_prefix: bool,
    /// The bytes of the first source.
    pub text: Vec<u8>,
}

/// What is done with a text.
#[derive(Drop)]
pub struct CaseStage {
    /// As the case says it.
    pub words: String,
    pub deed: Deed,
}

/// A kind of stage.
#[derive(Drop)]
pub enum Deed {
    /// The top call with these words reads the text. What it puts is the next text.
    Call(Vec<String>),
    /// The events on stream 0 go on so many streams in turn. That is the next text.
    Spread(u32),
    /// Whether the entries of each stream are those of the last call's source, in their order.
    Order,
    /// How often the last call called the gate there.
    Count(Place),
}

/// How many bytes a stream moves at most at a call, and which of its calls fail, numbered from 0.
#[derive(Drop)]
pub struct Pieces {
    pub most: usize,
    pub fails: Vec<u64>,
    ghost moves: { 1 ≤ most },
}

impl Pieces {
    /// A megabyte at a call, and no call fails.
    fn large(alloc: Global) -> Pieces {
        Pieces {
            most: 1_048_576,
            fails: Vec::new(alloc),
        }
    }
}

impl Case {
    /// It has no text, and its streams do not fail.
    pub fn new(alloc: Global, name: String, stages: Vec<CaseStage>) -> Case {
        Case {
            name,
            stages,
            takes: Pieces::large(alloc),
            puts: Pieces::large(alloc),
            room: 131_072,
            alike: Vec::new(alloc),
            times: 1,
            holds: Vec::new(alloc),
            slow: false,
            each_prefix: false,
            text: Vec::new(alloc),
        }
    }
}
