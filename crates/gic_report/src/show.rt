//! How the parts of a line are written.

use std::fmt;

/// A number in lower-case hexadecimal digits, with zeros before them up to a number of digits.
#[derive(Clone, Copy)]
pub(crate) struct Hex<const DIGITS: usize>(pub u64);

impl<const DIGITS: usize> fmt::Display for Hex<DIGITS> {
    ghost use Rattle.std.specs.Prelude.{Some};
    ghost use Rattle.gic_report.specs.Text.{hex};

    ghost output = { λ shown. Some (hex DIGITS shown.0) };

    fn fmt<W: fmt::Write>(&self, f: &mut fmt::Formatter<W>) -> fmt::Result {
        let value = self.0;
        write!(f, "{value:0DIGITS$x}")
    }
}

/// 0 or 1.
#[derive(Clone, Copy)]
pub(crate) struct Flag(pub bool);

impl fmt::Display for Flag {
    ghost use Rattle.std.specs.Prelude.{Some};
    ghost use Rattle.gic_report.specs.Text.{flag};

    ghost output = { λ shown. Some (flag shown.0) };

    fn fmt<W: fmt::Write>(&self, f: &mut fmt::Formatter<W>) -> fmt::Result {
        f.write_str(if self.0 { "1" } else { "0" })
    }
}

/// The trigger of an interrupt: whether it is edge-triggered.
#[derive(Clone, Copy)]
pub(crate) struct Trigger(pub bool);

impl fmt::Display for Trigger {
    ghost use Rattle.std.specs.Prelude.{Some};
    ghost use Rattle.gic_report.specs.Text.{trigger};

    ghost output = { λ shown. Some (trigger shown.0) };

    fn fmt<W: fmt::Write>(&self, f: &mut fmt::Formatter<W>) -> fmt::Result {
        f.write_str(if self.0 { "edge" } else { "level" })
    }
}

/// A vCPU's number, or a dash for none.
#[derive(Clone, Copy)]
pub(crate) struct Vcpu(pub Option<u32>);

impl fmt::Display for Vcpu {
    ghost use Rattle.std.specs.Prelude.{Some};
    ghost use Rattle.gic_report.specs.Text.{vcpu_text};

    ghost output = { λ shown. Some (vcpu_text shown.0) };

    fn fmt<W: fmt::Write>(&self, f: &mut fmt::Formatter<W>) -> fmt::Result {
        match self.0 {
            None => write!(f, "-"),
            Some(vcpu) => write!(f, "{vcpu}"),
        }
    }
}
