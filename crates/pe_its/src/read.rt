//! Reads of the registers of the ITS.
ghost use Rattle.std.specs.Prelude.{◌≡◌, None};
ghost use Rattle.pe_mem.specs.Words.{Its};
ghost use Rattle.pe_mem.specs.Registers.{Creadr};
ghost use Rattle.pe_mem.specs.GicImap.declared.map.Reg.TheVariants.{Ctlr};
ghost use Rattle.pe_mem.specs.PortCall.Rest.{IsAtEase};
ghost use Rattle.pe_mem.specs.Call.{ServesAccess};
ghost use Rattle.pe_its.specs.Read.{ReadsIts};

use crate::register::low;
use pe_mem::{
    CoreStep, IIDR, PIDR2, PlainWord, Port, Reg, RegRef, Table, WordId, baser, creadr, decode,
    enabled_in, its_ctlr as ctlr, read_plain, typer,
};

/// What GITS_CTLR reads: Enabled, and Quiescent.
fn read_ctlr<P: Port>(port: &mut P) -> u64
    requires { IsAtEase (P.seen port.old).local }
    ensures { ReadsIts (P.seen port.old) (P.seen port.new) Ctlr result }
{
    let stored = read_plain(port, PlainWord::ItsCtlr);
    u64::from(ctlr(enabled_in(low(stored))))
}

/// What GITS_CREADR reads: where the next command is, and whether the queue is stalled at it.
fn read_creadr<P: Port>(port: &mut P) -> u64
    requires { IsAtEase (P.seen port.old).local }
    ensures { ReadsIts (P.seen port.old) (P.seen port.new) Creadr result }
{
    let word = port.step(CoreStep::Look {
        word: WordId::Queue,
    });
    let queue = pe_mem::unpack(word).unwrap();
    creadr(queue.stalled, queue.offset)
}

/// What a register reads. At most one look.
fn read_register<P: Port>(port: &mut P, reg: Reg) -> u64
    requires { IsAtEase (P.seen port.old).local }
    ensures { ReadsIts (P.seen port.old) (P.seen port.new) reg result }
{
    match reg {
        Reg::Ctlr => read_ctlr(port),
        Reg::Iidr => u64::from(IIDR),
        Reg::Typer => typer(&port.shape()),
        Reg::Cbaser => read_plain(port, PlainWord::Cbaser),
        Reg::Cwriter => read_plain(port, PlainWord::Cwriter),
        Reg::Creadr => read_creadr(port),
        Reg::Baser0 => baser(Table::Devices, read_plain(port, PlainWord::Baser0)),
        Reg::Baser1 => baser(Table::Collections, read_plain(port, PlainWord::Baser1)),
        Reg::Pidr2 => u64::from(PIDR2),
    }
}

/// Reads so many bytes at a byte offset in the ITS: a register, or a half of one. It reads 0 where the map has none there that
/// takes such an access, and in a guest without LPIs, which has no ITS.
pub(crate) fn read_its<P: Port>(port: &mut P, offset: u32, size: u32) -> u64
    requires { IsAtEase (P.seen port.old).local }
    ensures { ServesAccess (P.seen port.old) (P.seen port.new) Its offset size None result }
{
    let RegRef::Plain { reg, half } = decode(offset, size) else {
        return 0;
    };
    if port.shape().lpis == 0 {
        return 0;
    }
    half.of(read_register(port, reg))
}
