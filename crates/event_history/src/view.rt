//! What a seat at the turn word is seen to know. No value of it is made: only proofs speak of it.
use link_table::Entry;
use std::collections::LinkedList;

/// What a pass knows of the history, and what it did. A note knows what its pass knew, and did nothing.
pub struct PassView {
    /// It is a pass, and no note.
    pub is_pass: bool,
    pub caller: u32,

    /// How many passes were made so far, where this one makes them.
    pub made: u32,

    /// The beginning of the history that it has seen.
    pub seen: LinkedList<Entry>,

    /// The places of its own entries.
    pub mine: LinkedList<u64>,

    /// The greatest count of entries that it knows.
    pub known: u64,
    pub saw_close: bool,

    /// The words that its own loads and exchanges found.
    pub looks: LinkedList<u64>,

    /// The history of the core whose turn it has, and whether that core is closed.
    pub held: Option<(LinkedList<Entry>, bool)>,

    /// The seen lists that a join compared, each with whether its view saw the close.
    pub olds: LinkedList<(LinkedList<Entry>, bool)>,

    /// The callers of the passes that were joined in, each with the places of its entries.
    pub ended: LinkedList<(u32, LinkedList<u64>)>,
}
