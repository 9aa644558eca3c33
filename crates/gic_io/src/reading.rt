//! Reading an input to its end.

ghost use Rattle.std.specs.Prelude.{◌≡◌, ℕ, ◌+◌, ◌-◌, ◌<◌, ◌≤◌, ◌^◌, [], ◌++◌, Some, length, take, vec_len, IfOk, OnOk, OnErr, IfSome, OnSome, IsSome};
ghost use Rattle.gic_io.specs.Faults.{HasRisen};
ghost use Rattle.gic_io.specs.Source.{HasRead, HasReadCount, HasReadAtMost};

use crate::fault::Failed;
use crate::sources::Source;
use floor_words::ListOf;
use std::alloc::{AllocError, Global};
use std::error::Error;
use std::fmt;

/// A list of bytes.
pub type Bytes = ListOf<u8>;

/// Why an input was not read to its end.
#[derive(Clone, Copy, Debug, PartialEq, Eq)]
pub enum ReadError {
    /// A call of the source failed.
    ReadFault,
    /// The input is longer than was allowed.
    TooLong,
    /// There was no memory for the bytes.
    NoMemory,
}

impl fmt::Display for ReadError {
    ghost use Rattle.gic_io.specs.ReadError.{error_text};

    ghost output = { λ error. Some (error_text error) };

    fn fmt<W: fmt::Write>(&self, f: &mut fmt::Formatter<W>) -> fmt::Result {
        match self {
            ReadError::ReadFault => write!(f, "the input could not be read"),
            ReadError::TooLong => write!(f, "the input is too long"),
            ReadError::NoMemory => write!(f, "there is no memory for the input"),
        }
    }
}

impl Error for ReadError {}

impl From<Failed> for ReadError {
    ghost use Rattle.gic_io.specs.declared.reading.ReadError.TheVariants.{ReadFault};

    ghost from_gives = { λ _ error. error ≡ ReadFault };

    fn from(_failed: Failed) -> Self {
        ReadError::ReadFault
    }
}

impl From<AllocError> for ReadError {
    ghost use Rattle.gic_io.specs.declared.reading.ReadError.TheVariants.{NoMemory};

    ghost from_gives = { λ _ error. error ≡ NoMemory };

    fn from(_error: AllocError) -> Self {
        ReadError::NoMemory
    }
}

/// How many bytes are asked for at a time, at most.
const CHUNK: usize = 4096;

/// Reads once into `buffer`, adds what came to `bytes`, and says how many bytes it was. Where the
/// bytes become more than `max` they are refused before memory is asked for.
fn read_some<S: Source>(
    source: &mut S,
    buffer: &mut [u8],
    bytes: &mut Vec<u8>,
    max: usize,
) -> Result<usize, ReadError>
    requires at_most_max { vec_len bytes.old ≤ max }
    requires at_most_one_past { vec_len bytes.old + length buffer.old ≤ max + 1 }
    ensures added { IfOk result (λ count.
        bytes.new.items ≡ bytes.old.items ++ take count buffer.new) }
    ensures len { IfOk result (λ count. vec_len bytes.new ≡ vec_len bytes.old + count) }
    ensures within { OnOk result (vec_len bytes.new ≤ max) }
    ensures next { IfOk result (λ count.
        HasRead (S.left source.old) (S.left source.new) (take count buffer.new)) }
    ensures end { result ≡ Ok 0 → 0 < length buffer.old →
        IfSome (S.left source.new) (λ rest. rest ≡ []) }
    ensures read_fault { result ≡ Err ReadError.ReadFault →
        HasRisen (S.faults source.old) (S.faults source.new) }
    ensures too_long { result ≡ Err ReadError.TooLong →
        HasReadCount (S.left source.old) (S.left source.new) (max + 1 - vec_len bytes.old) }
    ensures no_memory { result ≡ Err ReadError.NoMemory →
        HasReadAtMost (S.left source.old) (S.left source.new) (max - vec_len bytes.old) }
    ensures told { OnSome (S.left source.old) (IsSome (S.left source.new)) }
    ensures never_falls { S.faults source.old ≤ S.faults source.new }
{
    let count = source.read(buffer)?;
    if max - bytes.len() < count {
        return Err(ReadError::TooLong);
    }
    bytes.extend_from_slice(&buffer[..count])?;
    Ok(count)
}

/// Reads an input to its end, and refuses one of more than `max` bytes. It takes at most `max + 1`
/// bytes of the source. Want of memory may be answered at any time.
pub fn read_all<S: Source>(alloc: Global, source: &mut S, max: usize) -> Result<Bytes, ReadError>
    requires { max < usize.MAX }

    // Where the source told what it had left, that is the result, and nothing is left.
    ensures whole { IfOk result (λ bytes. IfSome (S.left source.old) (λ all. bytes ≡ all)) }
    ensures ended { OnOk result (OnSome (S.left source.old) (S.left source.new ≡ Some [])) }
    ensures at_most_max { IfOk result (λ bytes. length bytes ≤ max) }

    // More than `max` bytes were taken at `TooLong`, and at no other answer but a fault, after
    // which the source does not say what it lost.
    ensures too_long_past_max { result ≡ Err ReadError.TooLong →
        HasReadCount (S.left source.old) (S.left source.new) (max + 1) }
    ensures no_memory_within_max { result ≡ Err ReadError.NoMemory →
        HasReadAtMost (S.left source.old) (S.left source.new) max }
    ensures read_fault_only_where_risen { result ≡ Err ReadError.ReadFault →
        HasRisen (S.faults source.old) (S.faults source.new) }

    ensures told { OnSome (S.left source.old) (IsSome (S.left source.new)) }
    ensures never_falls { S.faults source.old ≤ S.faults source.new }
    ensures in_range { S.faults source.new < 2 ^ 64 }
{
    let mut bytes = Vec::new(alloc);
    let mut buffer = [0u8; CHUNK];
    loop {
        let wanted = CHUNK.min(max - bytes.len() + 1);
        let count = read_some(source, &mut buffer[..wanted], &mut bytes, max)?;
        if count == 0 {
            return Ok(Bytes::from(bytes));
        }
    }
}
