//! The configuration byte of an LPI.
ghost use Rattle.std.specs.Prelude.{◌<◌, ◌/◌, IsTrue, IfSome, Some};
ghost use Rattle.port_call.specs.Words.{has_interrupt, Lpi};
ghost use Rattle.port_call.specs.Core.{shape_of};
ghost use Rattle.its_exec.specs.Config.{HoldsCommand, ReadsWord, ReadsConfig};

use crate::fetch::Fetched;
use port_call::{PlainWord, Port, config_address, extract, read_plain, split};

/// A word of the guest's memory during a command: as it was fetched, where it is one of the command's doublewords, and
/// else by a look.
fn memory_word<P: Port>(port: &mut P, fetched: &Fetched, index: u32) -> u64
    requires there { index < (shape_of (P.seen port.old)).ram / 8 }
    requires holds { HoldsCommand (P.seen port.old) fetched.now }
    ensures { ReadsWord (P.seen port.old) (P.seen port.new) fetched.now index result }
{
    match fetched.word(index) {
        Some(word) => word,
        None => read_plain(port, PlainWord::Ram { index }),
    }
}

/// The configuration byte of an LPI in the table of a vCPU: at GICR_PROPBASER of that vCPU; 0 outside of the memory.
pub(crate) fn config_byte<P: Port>(port: &mut P, fetched: &Fetched, vcpu: u32, lpi: u32) -> u8
    requires vcpu { vcpu < (shape_of (P.seen port.old)).vcpus }
    requires lpi { IsTrue (has_interrupt (shape_of (P.seen port.old)) (Lpi lpi)) }
    requires holds { HoldsCommand (P.seen port.old) fetched.now }
    ensures { ReadsConfig (P.seen port.old) (P.seen port.new) fetched.now (Some vcpu) lpi result }
{
    let propbaser = read_plain(port, PlainWord::Propbaser { vcpu });
    let ram = port.shape().ram;
    match split(config_address(propbaser, lpi), 1, ram) {
        Some(part) => extract(memory_word(port, fetched, part.index), &part) as u8,
        None => 0,
    }
}

/// The configuration byte of an LPI that is for a vCPU, or for none: then it is 0.
pub(crate) fn byte_for<P: Port>(
    port: &mut P,
    fetched: &Fetched,
    target: Option<u32>,
    lpi: u32,
) -> u8
    requires target { IfSome target (λ vcpu. vcpu < (shape_of (P.seen port.old)).vcpus) }
    requires lpi { IsTrue (has_interrupt (shape_of (P.seen port.old)) (Lpi lpi)) }
    requires holds { HoldsCommand (P.seen port.old) fetched.now }
    ensures { ReadsConfig (P.seen port.old) (P.seen port.new) fetched.now target lpi result }
{
    match target {
        Some(vcpu) => config_byte(port, fetched, vcpu, lpi),
        None => 0,
    }
}
