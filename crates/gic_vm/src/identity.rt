//! What a machine tells of itself beside the ideal controller's registers.
ghost use Rattle.std.specs.Prelude.{◌≡◌, ◌<◌, ◌^◌, IfSome};
ghost use Rattle.ideal_guest.specs.Words.{IsShape};
ghost use Rattle.gic_vm.specs.Identity.{lpis_number as number_of_lpis, is_lpi_count as is_count, typer_told};

use ideal_guest::{Field, GuestShape, dist_typer};

/// GICD_TYPER.num_LPIs: bits [15:11].
const NUM_LPIS: Field = Field {
    place: 11,
    width: 5,
};

/// The number n, 1 to 11, of which there are 2^(n + 1) LPIs. None where there is no such number.
fn lpis_number(lpis: u32) -> Option<u64>
    ensures value { result ≡ number_of_lpis lpis }
    ensures bound { IfSome result (λ number. number < 2 ^ 5) }
{
    match lpis {
        4 => Some(1),
        8 => Some(2),
        16 => Some(3),
        32 => Some(4),
        64 => Some(5),
        128 => Some(6),
        256 => Some(7),
        512 => Some(8),
        1024 => Some(9),
        2048 => Some(10),
        4096 => Some(11),
        _ => None,
    }
}

/// Whether a machine can have so many LPIs: none, or a power of two from 4 to 4096.
pub(crate) fn is_lpi_count(lpis: u32) -> bool
    ensures { result ≡ is_count lpis }
{
    lpis == 0 || lpis_number(lpis).is_some()
}

/// What GICD_TYPER reads.
pub(crate) fn typer(shape: &GuestShape) -> u64
    requires { IsShape shape.now }
    ensures { result ≡ typer_told shape.now }
{
    let number = lpis_number(shape.lpis).unwrap_or(0);
    u64::from(dist_typer(shape)) + NUM_LPIS.put(number)
}
