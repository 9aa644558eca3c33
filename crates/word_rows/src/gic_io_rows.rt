//! The sources and sinks, with calls that fail, and with inputs at the limit.

use gic_io::{
    Failed, MemSink, MemSource, ReadError, Sink, Source, StdSink, StdSource, SureSink, SureSource,
    read_all, write_all,
};
use std::alloc::{AllocError, Allocator, Global};
use std::io::{BufRead, Input, Print, Read};
use std::test::Fail;
use std::{fmt, io};

const TEXT: &[u8] = b"0123456789abcdefghij";

/// What reading to the end answers: the bytes, or an error.
type Reads = Result<&'static [u8], ReadError>;

/// Whether a source is read to its end so, with at most `max` bytes.
fn reads<S: Source>(alloc: Global, source: &mut S, max: u16, want: Reads) -> bool {
    match (read_all(alloc, source, usize::from(max)), want) {
        (Ok(bytes), Ok(all)) => bytes.as_slice() == all,
        (Err(error), Err(other)) => error == other,
        _ => false,
    }
}

/// A source of the text, of which a call gives at most `cut` bytes, and at least one. The calls with these numbers fail.
fn text_source(alloc: Global, cut: usize, fails: &[u64]) -> Result<MemSource, AllocError> {
    let bytes = Vec::from_slice(alloc, TEXT)?;
    Ok(MemSource::of(bytes, Vec::from_slice(alloc, fails)?, cut.max(1)))
}

/// Whether the text is read so, in pieces of at most `cut` bytes and with no fault.
fn text_reads(alloc: Global, cut: usize, max: u16, want: Reads) -> Result<bool, AllocError> {
    let mut source = text_source(alloc, cut, &[])?;
    Ok(reads(alloc, &mut source, max, want) && source.faults() == 0)
}

/// The bytes of a piece, the most that are read, and what is answered.
const READS: [(usize, u16, Reads); 13] = [
    (1, 20, Ok(TEXT)),
    (7, 20, Ok(TEXT)),
    (20, 20, Ok(TEXT)),
    (5000, 20, Ok(TEXT)),
    (1, 21, Ok(TEXT)),
    (7, 21, Ok(TEXT)),
    (5000, 21, Ok(TEXT)),
    (1, 19, Err(ReadError::TooLong)),
    (7, 19, Err(ReadError::TooLong)),
    (5000, 19, Err(ReadError::TooLong)),
    (1, 0, Err(ReadError::TooLong)),
    (7, 0, Err(ReadError::TooLong)),
    (5000, 0, Err(ReadError::TooLong)),
];

#[test]
fn reads_in_pieces_up_to_the_limit(rt: HostRuntime) -> Result<(), Fail> {
    for (cut, max, want) in READS {
        assert!(rt; text_reads(rt.alloc(), cut, max, want)?);
    }
    Ok(())
}

/// Whether a source whose second call fails answers that fault, and after it what the failed call left: all behind the first piece.
fn goes_on_after_a_fault(alloc: Global) -> Result<bool, AllocError> {
    let mut source = text_source(alloc, 7, &[2])?;
    if !reads(alloc, &mut source, 20, Err(ReadError::ReadFault)) || source.faults() != 1 {
        return Ok(false);
    }
    Ok(reads(alloc, &mut source, 20, Ok(b"789abcdefghij")))
}

#[test]
fn answers_a_fault_of_the_source(rt: HostRuntime) -> Result<(), Fail> {
    assert!(rt; goes_on_after_a_fault(rt.alloc())?);
    Ok(())
}

/// Whether 10,000 bytes, which are more than one buffer, are all read.
fn reads_long(alloc: Global) -> Result<bool, AllocError> {
    let mut source = SureSource::of(vec![in alloc; 5u8; 10000]?);
    match read_all(alloc, &mut source, 10000) {
        Ok(bytes) => Ok(bytes.len() == 10000 && bytes.iter().all(|byte| *byte == 5)),
        Err(_) => Ok(false),
    }
}

#[test]
fn reads_nothing_and_more_than_one_buffer(rt: HostRuntime) -> Result<(), Fail> {
    let mut nothing = SureSource::of(Vec::new(rt.alloc()));
    assert!(rt; reads(rt.alloc(), &mut nothing, 0, Ok(&[])));
    assert!(rt; reads_long(rt.alloc())?);
    Ok(())
}

/// Whether the text is written to its end in pieces of at most `cut` bytes, and at least one, with no fault.
fn text_is_written(alloc: Global, cut: usize) -> bool {
    let mut sink = MemSink::of(alloc, Vec::new(alloc), cut.max(1));
    write_all(&mut sink, TEXT) == Ok(()) && sink.taken() == Some(TEXT) && sink.faults() == 0
}

/// Whether texts are written one behind the other.
fn texts_are_written(alloc: Global) -> bool {
    let mut sure = SureSink::new(alloc);
    for text in [b"ab".as_slice(), b"", b"c"] {
        if write_all(&mut sure, text) != Ok(()) {
            return false;
        }
    }
    sure.taken() == Some(b"abc".as_slice())
}

#[test]
fn writes_to_the_end_in_pieces(rt: HostRuntime) {
    for cut in [1, 7, 5000] {
        assert!(rt; text_is_written(rt.alloc(), cut));
    }
    assert!(rt; texts_are_written(rt.alloc()));
}

/// Whether writing the text fails, and the sink has taken these bytes and counted these faults then.
fn write_fails(sink: &mut MemSink, taken: &[u8], faults: u64) -> bool {
    write_all(sink, TEXT) == Err(Failed) && sink.taken() == Some(taken) && sink.faults() == faults
}

#[test]
fn stops_at_a_fault_of_the_sink(rt: HostRuntime) -> Result<(), Fail> {
    let mut sink = MemSink::of(rt.alloc(), Vec::from_slice(rt.alloc(), &[2u64, 4])?, 10);
    assert!(rt; write_fails(&mut sink, b"0123456789", 1));
    // the third call takes, and the fourth fails
    assert!(rt; write_fails(&mut sink, b"01234567890123456789", 2));
    Ok(())
}

/// Some letters `x`, one for each call, or a failure at each call.
#[derive(Clone, Copy)]
struct Letters {
    left: u8,
    fails: bool,
}

impl Read for Letters {
    fn read(&mut self, buf: &mut [u8]) -> io::Result<usize> {
        if self.fails {
            return Err(io::Error::from(io::ErrorKind::BrokenPipe));
        }
        if self.left == 0 || buf.is_empty() {
            return Ok(0);
        }
        self.left -= 1;
        buf[0] = b'x';
        Ok(1)
    }
}

impl BufRead for Letters {
    fn fill_buf(&mut self) -> io::Result<&[u8]> {
        Ok(TEXT)
    }

    fn consume(&mut self, _amount: usize) {}
}

/// An input that gives letters.
#[derive(Clone, Copy)]
struct Given(Letters);

impl Input for Given {
    type Reader = Letters;

    fn read_line<A: Allocator + Clone>(&self, buf: &mut String<A>) -> io::Result<usize> {
        self.reader().read_line(buf)
    }

    fn lines<A: Allocator>(&self, alloc: A) -> io::Lines<Letters, A> {
        self.reader().lines(alloc)
    }

    fn reader(&self) -> Letters {
        self.0
    }
}

/// Whether an input that gives three letters is read so.
fn letters_read(alloc: Global, fails: bool, want: Reads) -> bool {
    let mut source = StdSource::new(&Given(Letters { left: 3, fails }));
    reads(alloc, &mut source, 3, want)
}

#[test]
fn standard_input_is_read(rt: HostRuntime) {
    let mut source = StdSource::new(&rt);
    assert!(rt; !reads(rt.alloc(), &mut source, 1000, Err(ReadError::NoMemory)));
    assert!(rt; letters_read(rt.alloc(), false, Ok(b"xxx")));
    assert!(rt; letters_read(rt.alloc(), true, Err(ReadError::ReadFault)));
}

/// An output that accepts nothing, or answers an error.
#[derive(Clone, Copy)]
struct Stuck {
    accepts: bool,
}

impl Print for Stuck {
    fn print<D: fmt::Display + Drop>(&self, _value: D) -> io::Result<()> {
        Ok(())
    }

    fn println<D: fmt::Display + Drop>(&self, _value: D) -> io::Result<()> {
        Ok(())
    }

    fn write_all(&self, _bytes: &[u8]) -> io::Result<()> {
        Ok(())
    }

    fn write_some(&self, _bytes: &[u8]) -> io::Result<usize> {
        if self.accepts {
            Ok(0)
        } else {
            Err(io::Error::from(io::ErrorKind::BrokenPipe))
        }
    }
}

/// Whether an output that accepts nothing, or answers an error, fails at the first byte alone.
fn is_stuck(accepts: bool) -> bool {
    let mut sink = StdSink::new(Stuck { accepts });
    write_all(&mut sink, b"") == Ok(()) && write_all(&mut sink, b"x") == Err(Failed)
}

#[test]
fn standard_output_takes_a_line(rt: HostRuntime) {
    let mut sink = StdSink::new(&rt);
    assert!(rt; write_all(&mut sink, b"a line\n") == Ok(()));
    assert!(rt; is_stuck(true));
    assert!(rt; is_stuck(false));
}
