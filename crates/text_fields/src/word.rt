//! Words of the formats.
ghost use Rattle.std.specs.Prelude.{◌≡◌, ◌↔◌, IsTrue, MatchOption};
ghost use Rattle.text_fields.specs.EventWord.{word_text, IsNoEventWord};

/// The first word of an event.
#[derive(Clone, Copy, Debug, PartialEq, Eq)]
pub enum EventWord {
    /// A task arrives.
    Arrive,

    /// A task departs.
    Depart,

    /// Units of time pass.
    Tick,

    /// A task has another mask.
    Affinity,

    /// A processor goes off line.
    Offline,

    /// A processor comes on line.
    Online,
}

/// The word of an event that a field is.
pub fn event_word(field: &[u8]) -> Option<EventWord>
    ensures { MatchOption result (IsNoEventWord field.now) (λ word. field.now ≡ word_text word) }
{
    if is_word(field, "arrive") {
        Some(EventWord::Arrive)
    } else if is_word(field, "depart") {
        Some(EventWord::Depart)
    } else if is_word(field, "tick") {
        Some(EventWord::Tick)
    } else if is_word(field, "affinity") {
        Some(EventWord::Affinity)
    } else if is_word(field, "offline") {
        Some(EventWord::Offline)
    } else if is_word(field, "online") {
        Some(EventWord::Online)
    } else {
        None
    }
}

/// Whether a field is this word of an event.
pub fn is_word_of(field: &[u8], word: EventWord) -> bool
    ensures { IsTrue result ↔ (field.now ≡ word_text word) }
{
    match event_word(field) {
        Some(found) => found == word,
        None => false,
    }
}

/// Whether a field is this word. Most others differ in their length or first byte. No byte ends the loop, so that of a word
/// which the caller names it makes one comparison or two.
#[inline(always)]
pub fn is_word(field: &[u8], word: &str) -> bool
    ensures { IsTrue result ↔ (field.now ≡ word.now) }
{
    let word = word.as_bytes();
    if field.len() != word.len() {
        return false;
    }
    if !word.is_empty() && field[0] != word[0] {
        return false;
    }
    let mut same = true;
    for i in 0..word.len() {
        same &= field[i] == word[i];
    }
    same
}
