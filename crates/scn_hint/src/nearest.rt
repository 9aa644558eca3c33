//! Which register of the CPU interface somebody may mean.

use crate::held::Held;
use gic_host::scenarios::IccReg;

/// The registers of the CPU interface.
const REGISTERS: [IccReg; 18] = [
    IccReg::Iar0,
    IccReg::Iar1,
    IccReg::Hppir0,
    IccReg::Hppir1,
    IccReg::Eoir0,
    IccReg::Eoir1,
    IccReg::Dir,
    IccReg::Rpr,
    IccReg::Pmr,
    IccReg::Bpr0,
    IccReg::Bpr1,
    IccReg::Ctlr,
    IccReg::Igrpen0,
    IccReg::Igrpen1,
    IccReg::Ap0r0,
    IccReg::Ap1r0,
    IccReg::Sgi1r,
    IccReg::Sre,
];

/// A register's name without the architecture's prefix and suffix.
fn bare(name: &str) -> &str {
    let name = name
        .strip_prefix("ICC_")
        .or(name.strip_prefix("icc_"))
        .unwrap_or(name);
    name.strip_suffix("_EL1")
        .or(name.strip_suffix("_el1"))
        .unwrap_or(name)
}

/// How many characters two names begin with in common, whatever their case.
fn common(one: &str, other: &str) -> usize {
    one.chars()
        .zip(other.chars())
        .take_while(|(a, b)| a.eq_ignore_ascii_case(b))
        .count()
}

/// The register whose name begins most like what a field holds, if any begins so with two characters.
pub(crate) fn nearest(held: Held<'_>) -> Option<IccReg> {
    let Held::Text(name) = held else {
        return None;
    };
    let mut best = None;
    let mut most = 1;
    for reg in REGISTERS {
        let alike = common(bare(name), reg.name());
        if alike > most {
            most = alike;
            best = Some(reg);
        }
    }
    best
}
