//! The registers, before any command.
ghost use Rattle.std.specs.Prelude.{◌≡◌, ◌%◌, ◌^◌, ◌<◌, IfSome, is_some, true, false};
ghost use Rattle.pe_mem.specs.Registers.{half_limit, Half, Cbaser, Cwriter};
ghost use Rattle.pe_mem.specs.GicImap.declared.map.Reg.TheVariants.{Ctlr};
ghost use Rattle.pe_mem.specs.Calls.{takes_its};
ghost use Rattle.pe_mem.specs.Core.{known_maps};
ghost use Rattle.pe_mem.specs.ItsExec.Queue.{HasIts};
ghost use Rattle.pe_its.specs.Register.{IsReadyNow, WritesRegister, RetriesBy, retried, baser_reg, baser_word};

use crate::change::{Change, change_word};
use pe_mem::{
    Half, KnownQueue, PlainWord, Port, Reg, Table, enabled_in, move_queue, offset_in, put_plain,
    retries,
};
use std::sync::Wait;

/// The low half of a value, which has all of GITS_CTLR.
pub(crate) fn low(value: u64) -> u32
    ensures { result ≡ value % 2 ^ 32 }
{
    (value % (1 << 32)) as u32
}

/// A write of GITS_CTLR: Enabled is stored.
fn write_control<P: Port, R: Wait>(
    rt: &R,
    port: &mut P,
    queue: KnownQueue,
    value: u64,
) -> KnownQueue
    requires ready { IsReadyNow (P.seen port.old) queue }
    ensures writes { (half : Half) → WritesRegister (P.seen port.old) (P.seen port.new) queue Ctlr half value true }
    ensures ready { IsReadyNow (P.seen port.new) result }
    ensures has { HasIts (P.seen port.new) (known_maps (P.seen port.old).own) }
{
    let ctlr = u64::from(enabled_in(low(value)));
    put_plain(rt, port, PlainWord::ItsCtlr, ctlr);
    KnownQueue { ctlr, ..queue }
}

/// A write of GITS_CBASER, which starts the queue anew; it is ignored while the ITS is enabled.
fn write_cbaser<P: Port, R: Wait>(rt: &R, port: &mut P, queue: KnownQueue, half: Half, value: u64)
    requires fits { value < half_limit half }
    requires ready { IsReadyNow (P.seen port.old) queue }
    ensures writes { WritesRegister (P.seen port.old) (P.seen port.new) queue Cbaser half value false }
    ensures has { HasIts (P.seen port.new) (known_maps (P.seen port.old).own) }
{
    if enabled_in(low(queue.ctlr)) {
        return;
    }
    put_plain(rt, port, PlainWord::Cwriter, 0);
    let mut queue = KnownQueue {
        cwriter: 0,
        ..queue
    };
    move_queue(port, &mut queue, 0);
    change_word(rt, port, PlainWord::Cbaser, Change::Cbaser { half, value });
}

/// Ends the stall of the queue, if it has one and the value of a write of GITS_CWRITER has Retry.
fn retry<P: Port>(port: &mut P, queue: &mut KnownQueue, value: u64)
    requires ready { IsReadyNow (P.seen port.old) queue.old }
    ensures retries { RetriesBy (P.seen port.old) (P.seen port.new) queue.old value }
    ensures queue { queue.new ≡ retried queue.old value }
    ensures ready { IsReadyNow (P.seen port.new) queue.new }
    ensures has { HasIts (P.seen port.new) (known_maps (P.seen port.old).own) }
{
    if queue.stalled && retries(queue.cbaser, value) {
        let offset = queue.offset;
        move_queue(port, queue, offset);
    }
}

/// A write of GITS_CWRITER; it is ignored where its offset is not below the queue's bytes. The queue from which commands start,
/// where it is not.
fn write_cwriter<P: Port, R: Wait>(
    rt: &R,
    port: &mut P,
    queue: KnownQueue,
    half: Half,
    value: u64,
) -> Option<KnownQueue>
    requires fits { value < half_limit half }
    requires ready { IsReadyNow (P.seen port.old) queue }
    ensures writes { WritesRegister (P.seen port.old) (P.seen port.new) queue Cwriter half value (is_some result) }
    ensures ready { IfSome result (λ queue. IsReadyNow (P.seen port.new) queue) }
    ensures has { HasIts (P.seen port.new) (known_maps (P.seen port.old).own) }
{
    let change = Change::Cwriter {
        cbaser: queue.cbaser,
        half,
        value,
    };
    let Some(found) = change_word(rt, port, PlainWord::Cwriter, change) else {
        return None;
    };
    let written = half.written(found, value);
    let mut queue = KnownQueue {
        cwriter: offset_in(written),
        ..queue
    };
    retry(port, &mut queue, written);
    Some(queue)
}

/// The plain word of the register of a table's address.
fn word_of(table: Table) -> PlainWord
    ensures { result ≡ baser_word table }
{
    match table {
        Table::Devices => PlainWord::Baser0,
        Table::Collections => PlainWord::Baser1,
    }
}

/// A write of GITS_BASER0 or GITS_BASER1; it is ignored while the ITS is enabled.
fn write_baser<P: Port, R: Wait>(
    rt: &R,
    port: &mut P,
    queue: KnownQueue,
    table: Table,
    half: Half,
    value: u64,
)
    requires fits { value < half_limit half }
    requires ready { IsReadyNow (P.seen port.old) queue }
    ensures writes { WritesRegister (P.seen port.old) (P.seen port.new) queue (baser_reg table) half value false }
    ensures has { HasIts (P.seen port.new) (known_maps (P.seen port.old).own) }
{
    if !enabled_in(low(queue.ctlr)) {
        change_word(rt, port, word_of(table), Change::Baser { half, value });
    }
}

/// Writes a register that takes the ITS, by the actor that has the ITS and knows its queue. The queue from which commands
/// start, where they do.
pub(crate) fn write_register<P: Port, R: Wait>(
    rt: &R,
    port: &mut P,
    queue: KnownQueue,
    reg: Reg,
    half: Half,
    value: u64,
) -> Option<KnownQueue>
    requires takes { takes_its reg ≡ true }
    requires fits { value < half_limit half }
    requires ready { IsReadyNow (P.seen port.old) queue }
    ensures writes { WritesRegister (P.seen port.old) (P.seen port.new) queue reg half value (is_some result) }
    ensures ready { IfSome result (λ queue. IsReadyNow (P.seen port.new) queue) }
    ensures has { HasIts (P.seen port.new) (known_maps (P.seen port.old).own) }
{
    match reg {
        Reg::Ctlr => return Some(write_control(rt, port, queue, value)),
        Reg::Cbaser => write_cbaser(rt, port, queue, half, value),
        Reg::Cwriter => return write_cwriter(rt, port, queue, half, value),
        Reg::Baser0 => write_baser(rt, port, queue, Table::Devices, half, value),
        Reg::Baser1 => write_baser(rt, port, queue, Table::Collections, half, value),
        Reg::Iidr | Reg::Typer | Reg::Creadr | Reg::Pidr2 => unreachable!(),
    }
    None
}
