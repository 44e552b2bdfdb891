//! The names that tasks may have.

ghost use Rattle.std.specs.Prelude.{◌≡◌, ◌↔◌, IsTrue};
ghost use Rattle.task_set.specs.Name.{IsName, begins_name, continues_name};

/// How many bytes a name has at most.
pub(crate) const MAX_NAME: usize = 32;

/// Whether a text is a name.
pub(crate) fn is_name(text: &[u8]) -> bool
    ensures { IsTrue result ↔ IsName text.now }
{
    match text {
        [] => false,
        [first, others @ ..] => {
            text.len() <= MAX_NAME
                && begins_name(*first)
                && others.iter().all(|byte| continues_name(*byte))
        }
    }
}

fn begins_name(byte: u8) -> bool
    ensures { result ≡ begins_name byte }
{
    byte.is_ascii_alphabetic() || byte == b'_'
}

fn continues_name(byte: u8) -> bool
    ensures { result ≡ continues_name byte }
{
    byte.is_ascii_alphanumeric() || byte == b'_' || byte == b'.' || byte == b'-'
}
