//! What the reader or the writer under a stream is called for. Streams in memory that fail are in worked_rows.
use crate::same::{same, same_at};
use shift_io::{Failed, ReadAllFault, Sink, SoundSource, StdSink, StdSource, put_all, read_all};
use std::alloc::Global;
use std::io;
use std::io::{ErrorKind, Read, Write};
use std::process::Abort;

/// A whole read of three bytes, with room for just these or for fewer.
#[test]
fn read_all_limit(rt: HostRuntime) {
    let bytes = read_within(&rt, rt.alloc(), 3).expect(&rt, "three bytes");
    same(&rt, bytes.as_slice(), b"abc".as_slice());
    let fault = read_within(&rt, rt.alloc(), 2).err();
    same(&rt, fault, Some(ReadAllFault::TooLong));
}

/// A whole read of three bytes, with room for so many.
fn read_within(rt: &impl Abort, alloc: Global, most: u8) -> Result<Vec<u8>, ReadAllFault> {
    let mut source = SoundSource::new(b"abc".to_vec(alloc).expect(rt, "memory"));
    read_all(alloc, &mut source, usize::from(most))
}

/// What is read of three bytes and written again is the same.
#[test]
fn std_streams(rt: HostRuntime) {
    let mut source = StdSource::new(b"abc".as_slice());
    let bytes = read_all(rt.alloc(), &mut source, 3).expect(&rt, "three bytes");
    let mut written = Vec::new(rt.alloc());
    assert!(rt; put_all(&mut StdSink::new(&mut written), &bytes).is_ok());
    same(&rt, written.as_slice(), b"abc".as_slice());
}

/// What a reader gives and a writer takes here.
const TEXT: &[u8] = b"abcde";

/// How many bytes a reader gives and a writer takes at one call.
const PACE: usize = 2;

/// A reader that counts its reads. The one of this number fails, and the later ones go on.
#[derive(Drop)]
struct OneFaultReader<'a> {
    left: &'a [u8],
    fails_at: u32,
    reads: u32,
}

impl Read for OneFaultReader<'_> {
    fn read(&mut self, into: &mut [u8]) -> io::Result<usize> {
        self.reads = self.reads.saturating_add(1);
        if self.reads == self.fails_at {
            return Err(io::Error::from(ErrorKind::Interrupted));
        }
        let room = into.len().min(PACE);
        self.left.read(&mut into[..room])
    }
}

/// A whole read ends at its failed read, and the next whole read gives what is left then.
fn expect_failed_read(rt: &impl Abort, alloc: Global, reader: &mut OneFaultReader, left: &[u8]) {
    let fails_at = reader.fails_at;
    let first = read_all(alloc, &mut StdSource::new(&mut *reader), 5);
    same_at(rt, first.err(), Some(ReadAllFault::ReadFault), &fails_at);
    same(rt, reader.reads, fails_at);
    let bytes = read_all(alloc, &mut StdSource::new(&mut *reader), 5).expect(rt, "what is left");
    same_at(rt, bytes.as_slice(), left, &fails_at);
}

/// Three reads give the text, and the fourth finds its end. The failed one is the last of a whole
/// read, also where it was interrupted.
#[test]
fn a_failed_read_is_not_tried_again(rt: HostRuntime) {
    for (fails_at, left) in [(1, TEXT), (2, b"cde"), (3, b"e"), (4, b"")] {
        let mut reader = OneFaultReader {
            left: TEXT,
            fails_at,
            reads: 0,
        };
        expect_failed_read(&rt, rt.alloc(), &mut reader, left);
    }
}

/// A writer that counts its calls. The write and the flush of these numbers, from 1, fail.
#[derive(Drop)]
struct CountedWriter {
    fails: [u32; 2],
    writes: u32,
    flushes: u32,
    taken: usize,
}

impl CountedWriter {
    fn new(fails: [u32; 2]) -> CountedWriter {
        CountedWriter {
            fails,
            writes: 0,
            flushes: 0,
            taken: 0,
        }
    }

    /// Its writes, its flushes and the bytes that it took.
    fn calls(&self) -> (u32, u32, usize) {
        (self.writes, self.flushes, self.taken)
    }
}

impl Write for CountedWriter {
    fn write(&mut self, from: &[u8]) -> io::Result<usize> {
        self.writes = self.writes.saturating_add(1);
        if self.writes == self.fails[0] {
            return Err(io::Error::from(ErrorKind::Interrupted));
        }
        let count = from.len().min(PACE);
        self.taken = self.taken.saturating_add(count);
        Ok(count)
    }

    fn flush(&mut self) -> io::Result<()> {
        self.flushes = self.flushes.saturating_add(1);
        if self.flushes == self.fails[1] {
            return Err(io::Error::from(ErrorKind::Other));
        }
        Ok(())
    }
}

/// Whether a whole put of the text into a writer is a fault.
fn put_fails(writer: &mut CountedWriter) -> bool {
    put_all(&mut StdSink::new(writer), TEXT).is_err()
}

/// The write and the flush that fail, and the calls of a whole put, of which a failed one is the last; then those of the next
/// whole put too, which goes well by three writes with a flush after each.
const FAILED_PUTS: [([u32; 2], bool, (u32, u32, usize), (u32, u32, usize)); 7] = [
    ([1, 0], true, (1, 0, 0), (4, 3, 5)),
    ([2, 0], true, (2, 1, 2), (5, 4, 7)),
    ([3, 0], true, (3, 2, 4), (6, 5, 9)),
    ([0, 1], true, (1, 1, 2), (4, 4, 7)),
    ([0, 3], true, (3, 3, 5), (6, 6, 10)),
    ([0, 0], false, (3, 3, 5), (6, 6, 10)),
    ([7, 7], false, (3, 3, 5), (6, 6, 10)),
];

#[test]
fn a_failed_write_or_flush_is_not_tried_again(rt: HostRuntime) {
    for (fails, is_fault, calls, later) in FAILED_PUTS {
        let mut writer = CountedWriter::new(fails);
        let first = (put_fails(&mut writer), writer.calls());
        let next = (put_fails(&mut writer), writer.calls());
        same_at(
            &rt,
            [first, next],
            [(is_fault, calls), (false, later)],
            &fails,
        );
    }
}

/// An empty piece is no write and no flush; a piece whose flush failed is a fault.
#[test]
fn pieces_by_calls(rt: HostRuntime) {
    let mut writer = CountedWriter::new([1, 1]);
    let mut sink = StdSink::new(&mut writer);
    same(&rt, sink.put(b""), Ok(0));
    same(&rt, put_all(&mut sink, b""), Ok(()));
    drop(sink);
    same(&rt, writer.calls(), (0, 0, 0));
    let mut sink = StdSink::new(CountedWriter::new([0, 1]));
    same(&rt, sink.put(b"ab"), Err(Failed));
    same(&rt, sink.put(b""), Ok(0));
}
