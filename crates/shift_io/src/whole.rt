//! Whole reads and whole puts.
ghost use Rattle.std.specs.Prelude.{◌≡◌, ◌+◌, ◌<◌, ◌≤◌, Some, length, vec_len, IfOk, OnOk, OnErr, IsErrOf};
ghost use Rattle.std.specs.Io.KnownBytes.{Appends};
ghost use Rattle.shift_io.specs.Causes.{Rose, HasCause};
ghost use Rattle.shift_io.specs.ReadAllFault.{fault_text};
ghost use Rattle.shift_io.specs.Stream.{TakesAll, TakesAtMost, TakesExactly, AppendsPrefix};
ghost use Rattle.shift_io.specs.declared.whole.ReadAllFault.TheVariants.{ReadFault, TooLong, OutOfMemory};

use crate::sink::Sink;
use crate::source::{Failed, Source};
use std::alloc::{AllocError, Global};
use std::error::Error;
use std::fmt;

/// The bytes of the buffer that each take fills.
const PIECE: usize = 4096;

/// Why a whole read gave no bytes.
#[derive(Clone, Copy, Debug, PartialEq, Eq)]
pub enum ReadAllFault {
    /// A take failed.
    ReadFault,
    /// There are more bytes than the limit.
    TooLong,
    /// Out of memory for the bytes.
    OutOfMemory,
}

impl fmt::Display for ReadAllFault {
    ghost output = { λ fault. Some (fault_text fault) };

    fn fmt<W: fmt::Write>(&self, f: &mut fmt::Formatter<W>) -> fmt::Result {
        match self {
            ReadAllFault::ReadFault => write!(f, "the source failed"),
            ReadAllFault::TooLong => write!(f, "more bytes than the limit"),
            ReadAllFault::OutOfMemory => write!(f, "out of memory"),
        }
    }
}

impl Error for ReadAllFault {}

impl From<Failed> for ReadAllFault {
    ghost from_gives = { λ _ fault. fault ≡ ReadFault };

    fn from(_failed: Failed) -> ReadAllFault {
        ReadAllFault::ReadFault
    }
}

impl From<AllocError> for ReadAllFault {
    ghost from_gives = { λ _ fault. fault ≡ OutOfMemory };

    fn from(_error: AllocError) -> ReadAllFault {
        ReadAllFault::OutOfMemory
    }
}

/// All bytes up to the end of input, if there are at most `limit`. A take that failed is not tried
/// again, and what was taken before it is lost.
///
/// `ReadFault`: a take failed. `TooLong`: there is a byte after the limit, and it was taken too.
/// `OutOfMemory`: no memory for the bytes; it may come at any input.
pub fn read_all<S: Source>(
    alloc: Global,
    source: &mut S,
    limit: usize,
) -> Result<Vec<u8>, ReadAllFault>
    requires { limit < usize.MAX }
    ensures ok { IfOk result (λ bytes. (vec_len bytes ≤ limit) ×
        TakesAll (S.left source.old) (S.left source.new) bytes.items) }
    ensures read_fault { IsErrOf result ReadFault →
        Rose (S.faults source.old) (S.faults source.new) ×
        TakesAtMost (S.left source.old) (S.left source.new) limit }
    ensures too_long { IsErrOf result TooLong →
        TakesExactly (S.left source.old) (S.left source.new) (limit + 1) }
    ensures out_of_memory { IsErrOf result OutOfMemory →
        TakesAtMost (S.left source.old) (S.left source.new) limit }
    ensures later { S.faults source.old ≤ S.faults source.new }

    // Each take but the last gave a byte.
    ensures bounded_takes { S.calls source.new ≤ S.calls source.old + limit + 2 }
    ensures no_retry { IfOk result (λ bytes.
        S.calls source.new ≤ S.calls source.old + vec_len bytes + 1) }
{
    let mut bytes = Vec::new(alloc);
    let mut piece = [0u8; PIECE];
    'pieces: loop {
        // One byte after the limit is asked for, to see whether the input ends there.
        let room = (limit + 1 - bytes.len()).min(PIECE);
        let count = source.take(&mut piece[..room])?;
        if count == 0 {
            return Ok(bytes);
        }
        if bytes.len() + count > limit {
            return Err(ReadAllFault::TooLong);
        }
        bytes.extend_from_slice(&piece[..count])?;
    }
}

/// Puts all the bytes, in order. Each put is handed the whole rest.
///
/// Fails where a put failed, which is not tried again; a prefix of the bytes was appended then.
/// Takes no memory.
pub fn put_all<K: Sink>(sink: &mut K, bytes: &[u8]) -> Result<(), Failed>
    ensures ok { OnOk result (Appends (K.bytes sink.old) (K.bytes sink.new) bytes.now) }
    ensures failed { OnErr result (AppendsPrefix (K.bytes sink.old) (K.bytes sink.new) bytes.now) }
    ensures cause { HasCause (K.faults sink.old) (K.faults sink.new) result }

    // Each put but a failed one took a byte.
    ensures bounded_puts { K.calls sink.new ≤ K.calls sink.old + length bytes.now }
{
    let mut done = 0;
    while done < bytes.len() {
        done += sink.put(&bytes[done..])?;
    }
    Ok(())
}
