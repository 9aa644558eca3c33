//! Accesses of the ITS, each the whole call.
ghost use Rattle.std.specs.Prelude.{◌≡◌, ℕ, IsTrue, Some};
ghost use Rattle.pe_mem.specs.Words.{Its};
ghost use Rattle.pe_mem.specs.GicImap.Map.{decoded};
ghost use Rattle.pe_mem.specs.Registers.{is_size};
ghost use Rattle.pe_mem.specs.Calls.{fits as fits_in, takes_its, takes_turn};
ghost use Rattle.pe_mem.specs.Call.{CanAccess, MakesAccess};

use crate::read::read_its;
use crate::write::its_write;
use pe_mem::{GuestShape, Port, Reg, RegRef, decode};
use std::sync::Wait;

/// Whether a write of a register takes the ITS.
fn is_turn(reg: Reg) -> bool
    ensures { result ≡ takes_its reg }
{
    match reg {
        Reg::Ctlr | Reg::Cbaser | Reg::Cwriter | Reg::Baser0 | Reg::Baser1 => true,
        Reg::Iidr | Reg::Typer | Reg::Creadr | Reg::Pidr2 => false,
    }
}

/// Whether a write of so many bytes at an offset takes the ITS.
fn is_taking(shape: &GuestShape, offset: u32, size: u32) -> bool
    ensures { (value : ℕ) → result ≡ takes_turn shape.now (decoded offset size) (Some value) }
{
    match decode(offset, size) {
        RegRef::Plain { reg, .. } => shape.lpis != 0 && is_turn(reg),
        RegRef::Reserved => false,
    }
}

/// Makes an access of 1, 2, 4 or 8 bytes at a byte offset in the ITS: a read, which answers its value, or a write of a value
/// that fits the size (IHI 0069, "The ITS register map"). A read looks once at what its register goes by, if it goes by
/// anything. A write of GITS_CTLR, GITS_CBASER, GITS_CWRITER, GITS_BASER0 or GITS_BASER1 is `its_write`. What the map does not
/// have, and all of it in a guest without LPIs, reads 0 and ignores writes; so do writes of the registers that are only read.
/// The vCPU has nothing at its interface and owes nothing, before and after.
pub fn its_op<P: Port, R: Wait>(
    rt: &R,
    port: &mut P,
    offset: u32,
    size: u32,
    write: Option<u64>,
) -> Option<u64>
    requires can { CanAccess (P.seen port.old) }
    requires size { IsTrue (is_size size) }
    requires fits { IsTrue (fits_in size write) }
    ensures { MakesAccess (P.seen port.old) (P.seen port.new) Its offset size write result }
{
    let Some(value) = write else {
        return Some(read_its(port, offset, size));
    };
    if is_taking(&port.shape(), offset, size) {
        its_write(rt, port, offset, size, value);
    }
    None
}
