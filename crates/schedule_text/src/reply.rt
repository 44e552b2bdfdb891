//! The reply of an entry.
ghost use Rattle.std.specs.Prelude.{◌≡◌, ◌↔◌, IsTrue, ◌⊎◌, ◌∷◌, [], List, ℕ, codes, IfOk, IfErr, IfSome, MatchOption, MatchResult};
ghost use Rattle.task_set.specs.TaskSet.{SetData};
ghost use Rattle.strong_apa.specs.declared.reply.Came.{Came as CameData};
ghost use Rattle.strong_apa.specs.declared.reply.Reply.TheVariants.{Waits};
ghost use Rattle.strong_apa.specs.Reply.{reply_of_came};
ghost use Rattle.text_fields.specs.Fields.{texts};
ghost use Rattle.schedule_text.specs.LineFields.{
  displaced_fields,
  gone_words,
  both_of,
  IsSaid,
  IsCameFields,
  IsCameFault,
  IsGoneFields,
  IsGoneFault,
  IsGoneThen,
  IsReplyFields,
  IsReplyFault,
};
ghost use Rattle.schedule_text.specs.declared.fault.TextKind.TheVariants.{BadLine};

use crate::fault::TextKind;
use crate::field::{both, chain_of, known_task, set_of, somebody_of};
use affinity_mask::ProcSet;
use strong_apa::{Came, Gone, Moved, Reply};
use task_set::TaskSet;
use text_fields::is_word;
use text_fields::limits::LAST_VERSION;

/// How many fields say who came in at a processor.
const GONE_FIELDS: usize = 5;

/// The set of a reply that a task waits, if it is one.
pub fn waiting_reach(fields: &[&[u8]]) -> Option<ProcSet>
    ensures { IfSome result (λ reach. (version : ℕ) (tasks : SetData)
        → IsReplyFields version (texts fields.now) tasks (Waits reach)) }
{
    let [word, value] = fields else {
        return None;
    };
    if !is_word(word, "waits") {
        return None;
    }
    set_of(value).ok()
}

/// The reply of some fields, in a version of the format. Like the two calls below it is laid into its callers, since a
/// reply is long, and what a call returns is copied.
#[inline(always)]
pub fn read_reply(version: u8, set: &TaskSet, fields: &[&[u8]]) -> Result<Reply, TextKind>
    ensures read { IfOk result (IsReplyFields version (texts fields.now) set.now) }
    ensures refused { IfErr result (λ kind. IsReplyFault version (texts fields.now) set.now kind) }
{
    let [word, rest @ ..] = fields else {
        return Err(TextKind::BadLine);
    };
    if is_word(word, "freed") {
        return Ok(Reply::from(read_gone(set, rest)?));
    }
    if is_word(word, "on") {
        return on_reply(version, set, rest);
    }
    if is_word(word, "off") {
        return off_reply(version, set, rest);
    }
    if is_word(word, "remasked") {
        return remasked_reply(version, set, rest);
    }
    if rest.is_empty() {
        return word_reply(version, word);
    }
    came_reply(set, fields)
}

/// The reply of one word.
#[inline(always)]
fn word_reply(version: u8, word: &[u8]) -> Result<Reply, TextKind>
    ensures { MatchResult result
        (λ reply. (tasks : SetData) → IsReplyFields version (word.now ∷ []) tasks reply)
        (λ kind. (kind ≡ BadLine) × (IsSaid (IsReplyFields version (word.now ∷ [])) → ⊥)) }
{
    if is_word(word, "left") {
        return Ok(Reply::Left);
    }
    if is_word(word, "ticked") {
        return Ok(Reply::Ticked);
    }
    if is_word(word, "already") {
        return Ok(Reply::AlreadyReady);
    }
    if is_word(word, "absent") {
        return Ok(Reply::NotReady);
    }
    if version != LAST_VERSION {
        return Err(TextKind::BadLine);
    }
    if is_word(word, "masked") {
        return Ok(Reply::Masked);
    }
    if is_word(word, "already_off") {
        return Ok(Reply::AlreadyOff);
    }
    if is_word(word, "already_on") {
        return Ok(Reply::AlreadyOn);
    }
    Err(TextKind::BadLine)
}

/// The reply that is the result of an arrival alone. Each case returns by itself, since what cases join in is copied.
#[inline(always)]
fn came_reply(set: &TaskSet, fields: &[&[u8]]) -> Result<Reply, TextKind>
    ensures read { IfOk result (λ reply. (came : CameData) × (reply ≡ reply_of_came came)
        × IsCameFields (texts fields.now) set.now came) }
    ensures refused { IfErr result (λ kind. IsCameFault (texts fields.now) set.now kind) }
{
    match read_came(set, fields)? {
        Came::Placed { chain } => return Ok(Reply::Placed { chain }),
        Came::Displaced { chain, out, reach } => return Ok(Reply::Displaced { chain, out, reach }),
        Came::Waits { reach } => return Ok(Reply::Waits { reach }),
    }
}

/// The result of an arrival.
fn read_came(set: &TaskSet, fields: &[&[u8]]) -> Result<Came, TextKind>
    ensures read { IfOk result (IsCameFields (texts fields.now) set.now) }
    ensures refused { IfErr result (λ kind. IsCameFault (texts fields.now) set.now kind) }
{
    if let [word, value] = fields {
        return valued_came(word, value);
    }
    let [word, chain, middle, name, last, processors] = fields else {
        return Err(TextKind::BadLine);
    };
    if !is_displaced(word, middle, last) {
        return Err(TextKind::BadLine);
    }
    displaced(set, chain, name, processors)
}

/// The result of an arrival that is said by a word and a chain or a set.
fn valued_came(word: &[u8], value: &[u8]) -> Result<Came, TextKind>
    ensures read { IfOk result (λ came. (tasks : SetData)
        → IsCameFields (word.now ∷ value.now ∷ []) tasks came) }
    ensures refused { IfErr result (λ kind. ((kind ≡ BadLine)
        × (IsSaid (IsCameFields (word.now ∷ value.now ∷ [])) → ⊥))) }
{
    if is_word(word, "waits") {
        let reach = set_of(value)?;
        return Ok(Came::Waits { reach });
    }
    if is_word(word, "placed") {
        let chain = chain_of(value)?;
        return Ok(Came::Placed { chain });
    }
    Err(TextKind::BadLine)
}

/// Whether the words of six fields are those of a result that a task was displaced.
fn is_displaced(word: &[u8], middle: &[u8], last: &[u8]) -> bool
    ensures { IsTrue result ↔ ((word.now ≡ codes "displaced") × (middle.now ≡ codes "out")
        × (last.now ≡ codes "reach")) }
{
    is_word(word, "displaced") && is_word(middle, "out") && is_word(last, "reach")
}

/// The result that a task was displaced.
fn displaced(set: &TaskSet, chain: &[u8], name: &[u8], processors: &[u8]) -> Result<Came, TextKind>
    ensures read { IfOk result (IsCameFields
        (displaced_fields chain.now name.now processors.now) set.now) }
    ensures refused { IfErr result (λ kind. IsCameFault (displaced_fields chain.now name.now processors.now) set.now kind) }
{
    let chain = chain_of(chain)?;
    let reach = set_of(processors)?;
    let out = known_task(set, name)?;
    Ok(Came::Displaced { chain, out, reach })
}

/// Who came in at a processor that became idle.
fn read_gone(set: &TaskSet, fields: &[&[u8]]) -> Result<Gone, TextKind>
    ensures read { IfOk result (IsGoneFields (texts fields.now) set.now) }
    ensures refused { IfErr result (λ kind. IsGoneFault (texts fields.now) set.now kind) }
{
    let [chain, middle, name, last, processors] = fields else {
        return Err(TextKind::BadLine);
    };
    if are_gone_words(middle, last) {
        gone_of(set, chain, name, processors)
    } else {
        Err(TextKind::BadLine)
    }
}

/// Whether the words of five fields are those that say who came in.
fn are_gone_words(middle: &[u8], last: &[u8]) -> bool
    ensures { IsTrue result ↔ ((middle.now ≡ codes "enters") × (last.now ≡ codes "back")) }
{
    is_word(middle, "enters") && is_word(last, "back")
}

/// Who came in, by the fields between the words.
fn gone_of(set: &TaskSet, chain: &[u8], name: &[u8], processors: &[u8]) -> Result<Gone, TextKind>
    ensures read { IfOk result (IsGoneFields (gone_words chain.now name.now processors.now)
        set.now) }
    ensures refused { IfErr result (λ kind. IsGoneFault (gone_words chain.now name.now processors.now) set.now kind) }
{
    let chain = chain_of(chain)?;
    let back = set_of(processors)?;
    let entered = somebody_of(set, name)?;
    Ok(Gone {
        entered,
        chain,
        back,
    })
}

/// The reply that a processor is on line, by the fields after its word.
fn on_reply(version: u8, set: &TaskSet, rest: &[&[u8]]) -> Result<Reply, TextKind>
    ensures read { IfOk result (IsReplyFields version (codes "on" ∷ texts rest.now) set.now) }
    ensures refused { IfErr result (λ kind. IsReplyFault version (codes "on" ∷ texts rest.now) set.now kind) }
{
    if version != LAST_VERSION {
        return Err(TextKind::BadLine);
    }
    let parts = read_gone(set, rest)?;
    Ok(Reply::On { parts })
}

/// The reply that a processor is off line, by the fields after its word.
fn off_reply(version: u8, set: &TaskSet, rest: &[&[u8]]) -> Result<Reply, TextKind>
    ensures read { IfOk result (IsReplyFields version (codes "off" ∷ texts rest.now) set.now) }
    ensures refused { IfErr result (λ kind. IsReplyFault version (codes "off" ∷ texts rest.now) set.now kind) }
{
    if version != LAST_VERSION {
        return Err(TextKind::BadLine);
    }
    match rest {
        [dash] => {
            if is_word(dash, "-") {
                Ok(Reply::Off { moved: None })
            } else {
                Err(TextKind::BadLine)
            }
        }
        [name, then, arrival @ ..] => {
            if is_word(then, "then") {
                moved_reply(set, name, arrival)
            } else {
                Err(TextKind::BadLine)
            }
        }
        _ => Err(TextKind::BadLine),
    }
}

/// The reply that a processor is off line and its task came elsewhere.
fn moved_reply(set: &TaskSet, name: &[u8], arrival: &[&[u8]]) -> Result<Reply, TextKind>
    ensures read { IfOk result (IsReplyFields 2
        (codes "off" ∷ name.now ∷ codes "then" ∷ texts arrival.now) set.now) }
    ensures refused { IfErr result (λ kind. IsReplyFault 2
        (codes "off" ∷ name.now ∷ codes "then" ∷ texts arrival.now) set.now kind) }
{
    let _valid = set.len();
    match both(known_task(set, name), read_came(set, arrival)) {
        Ok((task, came)) => Ok(Reply::Off {
            moved: Some(Moved { task, came }),
        }),
        Err(kind) => Err(kind),
    }
}

/// The reply that the mask of a ready task was set, by the fields after its word.
fn remasked_reply(version: u8, set: &TaskSet, rest: &[&[u8]]) -> Result<Reply, TextKind>
    ensures read { IfOk result (IsReplyFields version (codes "remasked" ∷ texts rest.now) set.now) }
    ensures refused { IfErr result (λ kind. IsReplyFault version (codes "remasked" ∷ texts rest.now) set.now kind) }
{
    let [word, rest @ ..] = rest else {
        return Err(TextKind::BadLine);
    };
    if version != LAST_VERSION {
        Err(TextKind::BadLine)
    } else if is_word(word, "left") {
        waiting_remasked(set, rest)
    } else if is_word(word, "freed") {
        linked_remasked(set, rest)
    } else {
        Err(TextKind::BadLine)
    }
}

/// The reply that the mask of a task was set that had waited, by the fields after its words.
fn waiting_remasked(set: &TaskSet, rest: &[&[u8]]) -> Result<Reply, TextKind>
    ensures read { IfOk result (IsReplyFields 2
        (codes "remasked" ∷ codes "left" ∷ texts rest.now) set.now) }
    ensures refused { IfErr result (λ kind. IsReplyFault 2
        (codes "remasked" ∷ codes "left" ∷ texts rest.now) set.now kind) }
{
    let [then, arrival @ ..] = rest else {
        return Err(TextKind::BadLine);
    };
    if is_word(then, "then") {
        let came = read_came(set, arrival)?;
        Ok(Reply::Remasked { gone: None, came })
    } else {
        Err(TextKind::BadLine)
    }
}

/// The reply that the mask of a task was set that left a processor, by the fields after its words.
fn linked_remasked(set: &TaskSet, rest: &[&[u8]]) -> Result<Reply, TextKind>
    ensures read { IfOk result (IsReplyFields 2
        (codes "remasked" ∷ codes "freed" ∷ texts rest.now) set.now) }
    ensures refused { IfErr result (λ kind. IsReplyFault 2
        (codes "remasked" ∷ codes "freed" ∷ texts rest.now) set.now kind) }
{
    let _valid = set.len();
    let Some((gone, arrival)) = gone_then(rest) else {
        return Err(TextKind::BadLine);
    };
    match both(read_gone(set, gone), read_came(set, arrival)) {
        Ok((gone, came)) => Ok(Reply::Remasked {
            gone: Some(gone),
            came,
        }),
        Err(kind) => Err(kind),
    }
}

/// The fields of who came in, and those after the word `then`, which comes next.
fn gone_then<'f, 'a>(fields: &'f [&'a [u8]]) -> Option<(&'f [&'a [u8]], &'f [&'a [u8]])>
    ensures { MatchOption result
        ((gone arrival : List (List ℕ)) → IsGoneThen (texts fields.now) gone arrival → ⊥)
        (λ parts. IsGoneThen (texts fields.now) (texts parts.0.now) (texts parts.1.now)) }
{
    if fields.len() <= GONE_FIELDS {
        return None;
    }
    if is_word(fields[GONE_FIELDS], "then") {
        Some((&fields[..GONE_FIELDS], &fields[GONE_FIELDS + 1..]))
    } else {
        None
    }
}
