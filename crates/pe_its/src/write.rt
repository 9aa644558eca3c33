//! A write of a register that takes the ITS, the whole call.
ghost use Rattle.std.specs.Prelude.{◌≡◌, ◌<◌, IsTrue, Some, None, true};
ghost use Rattle.pe_mem.specs.Words.{Its};
ghost use Rattle.pe_mem.specs.Registers.{half_limit, is_size};
ghost use Rattle.pe_mem.specs.GicImap.Map.{decoded};
ghost use Rattle.pe_mem.specs.Calls.{fits as fits_in, takes_its, takes_turn};
ghost use Rattle.pe_mem.specs.Core.{shape_of};
ghost use Rattle.pe_mem.specs.ItsExec.Plan.{IsFresh};
ghost use Rattle.pe_mem.specs.ItsExec.Queue.{HasIts};
ghost use Rattle.pe_mem.specs.Call.{CanAccess, MakesAccess};
ghost use Rattle.pe_its.specs.Write.{ServesWrite};

use crate::register::write_register;
use pe_mem::{
    Half, ItsTables, Port, Reg, RegRef, give_turn, its_access, look_at_queue, run_commands, shut,
    take_turn,
};
use std::sync::Wait;

/// Writes a register, and takes the commands that this starts, by the actor that has the ITS with these tables.
fn serve<P: Port, R: Wait>(
    rt: &R,
    port: &mut P,
    tables: &mut ItsTables,
    reg: Reg,
    half: Half,
    value: u64,
)
    requires takes { takes_its reg ≡ true }
    requires fits { value < half_limit half }
    requires has { HasIts (P.seen port.old) tables.old }
    requires fresh { IsFresh (P.seen port.old) }
    ensures serves { ServesWrite (P.seen port.old) (P.seen port.new) reg half value }
    ensures has { HasIts (P.seen port.new) tables.new }
{
    let queue = look_at_queue(port);
    if let Some(queue) = write_register(rt, port, queue, reg, half, value) {
        let shape = port.shape();
        run_commands(rt, port, tables, &shape, queue);
    }
}

/// Makes a write of 4 or 8 bytes at a byte offset in the ITS, which takes the ITS: of GITS_CTLR, GITS_CBASER, GITS_CWRITER,
/// GITS_BASER0 or GITS_BASER1, or of a half of one of the last four, in a guest with LPIs (IHI 0069, "The ITS register map").
/// The value fits the size. It waits until nobody has the ITS, and until no device is in a translation line. A write of GITS_CBASER or GITS_BASER is ignored while the ITS is
/// enabled, and one of GITS_CWRITER where its offset is not below the queue's bytes. A write of GITS_CTLR, and one of
/// GITS_CWRITER that is not ignored, takes the commands of the queue before it returns. The vCPU has nothing at its
/// interface and owes nothing, before and after, and nobody has the ITS for it then.
pub fn its_write<P: Port, R: Wait>(rt: &R, port: &mut P, offset: u32, size: u32, value: u64)
    requires can { CanAccess (P.seen port.old) }
    requires size { IsTrue (is_size size) }
    requires fits { IsTrue (fits_in size (Some value)) }
    requires takes { takes_turn (shape_of (P.seen port.old)) (decoded offset size) (Some value) ≡ true }
    ensures { MakesAccess (P.seen port.old) (P.seen port.new) Its offset size (Some value) None }
{
    let RegRef::Plain { reg, half } = its_access(offset, size, Some(value)) else {
        unreachable!()
    };
    take_turn(rt, port);
    shut(rt, port);
    let mut tables = port.take_tables();
    serve(rt, port, &mut tables, reg, half, value);
    port.put_tables(tables);
    give_turn(port);
}
