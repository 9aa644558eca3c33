//! What C fed of the guest's memory for a call.
ghost use Rattle.std.specs.Prelude.{◌≡◌, ◌+◌, ◌≤◌, IfSome, IfOk, length};
ghost use Rattle.vm_saved.specs.GicVm.GuestMemory.Wants.{bytes_in, most_wanted};
ghost use Rattle.gic_c.specs.Feed.{no_feed, begun, fed_with, next_of, has_doubleword as has_doubleword_in, doubleword_at, read_at};

use crate::bytes::Bytes;
use std::alloc::{AllocError, Global};
use vm_saved::{GuestMemory, Span};

/// The bytes of a doubleword.
const DOUBLEWORD: u64 = 8;

/// An access of the frames, with arguments that were tested.
#[derive(Clone, Copy, Debug, PartialEq, Eq)]
pub(crate) struct Call {
    pub(crate) vcpu: u32,
    pub(crate) address: u64,
    pub(crate) size: u32,
    pub(crate) write: Option<u64>,
}

/// What was fed for a call, range by range.
#[derive(Drop)]
pub(crate) struct Feed {
    pub(crate) call: Option<Call>,
    pub(crate) bytes: Bytes,
}

impl Feed {
    /// Nothing, for no call.
    pub(crate) fn new(alloc: Global) -> Result<Feed, AllocError>
        ensures { IfOk result (λ feed. feed ≡ no_feed) }
    {
        Ok(Feed {
            call: None,
            bytes: Bytes::new(alloc)?,
        })
    }

    /// Drops what was fed.
    pub(crate) fn clear(&mut self)
        ensures { self.new ≡ no_feed }
    {
        self.call = None;
        self.bytes.clear();
    }

    /// Begins a call: what was fed for another one is dropped.
    pub(crate) fn begin(&mut self, call: Call)
        ensures { self.new ≡ begun self.old call }
    {
        if self.call != Some(call) {
            self.call = Some(call);
            self.bytes.clear();
        }
    }

    /// Adds bytes.
    pub(crate) fn push(&mut self, bytes: &[u8])
        requires { length self.old.bytes + length bytes.now ≤ most_wanted }
        ensures { self.new ≡ fed_with self.old bytes.now }
    {
        self.bytes.push(bytes);
    }
}

/// The range that comes next where so many bytes were fed: the first that is not empty behind those that these fill.
pub(crate) fn next(spans: &[Span], count: u64) -> Option<Span>
    ensures value { result ≡ next_of spans.now count }
    ensures within { IfSome result (λ span. count + span.bytes ≤ bytes_in spans.now) }
{
    let mut left = count;
    for span in spans {
        if left < span.bytes {
            return (left == 0).then_some(*span);
        }
        left -= span.bytes;
    }
    None
}

/// The eight bytes at an offset as a number.
fn doubleword(bytes: &[u8], offset: usize) -> Option<u64>
    ensures { result ≡ doubleword_at bytes.now offset }
{
    let eight = *bytes.get(offset..)?.first_chunk::<8>()?;
    Some(u64::from_le_bytes(eight))
}

/// Whether a range has the eight bytes at an address.
fn has_doubleword(span: Span, address: u64) -> bool
    ensures { result ≡ has_doubleword_in span address }
{
    match address.checked_sub(span.address) {
        Some(offset) => offset <= span.bytes && span.bytes - offset >= DOUBLEWORD,
        None => false,
    }
}

/// The doubleword at an address, of the first range that has it. None where none does.
fn read(spans: &[Span], bytes: &[u8], address: u64) -> Option<u64>
    ensures { result ≡ read_at spans.now bytes.now address }
{
    let mut rest = bytes;
    for span in spans {
        if has_doubleword(*span, address) {
            return doubleword(rest, (address - span.address) as usize);
        }
        rest = rest.get(span.bytes as usize..).unwrap_or(&[]);
    }
    None
}

/// The guest's memory as far as it was fed: these ranges, whose bytes stand one behind the other.
#[derive(Clone, Copy)]
pub(crate) struct Fed<'a> {
    pub(crate) spans: &'a [Span],
    pub(crate) bytes: &'a [u8],
}

impl GuestMemory for Fed<'_> {
    ghost may_read = { λ fed address answer. answer ≡ read_at fed.spans.now fed.bytes.now address };

    fn read(&self, address: u64) -> Option<u64> {
        read(self.spans, self.bytes, address)
    }
}
