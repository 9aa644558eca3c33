//! How an interrupt is named in texts.
use scn_base::Key;
use std::fmt;

/// The name of an interrupt: its INTID, which of a private one follows its vCPU, as in `v1:27`.
#[derive(Clone, Copy)]
pub struct Name(pub Key);

impl fmt::Display for Name {
    ghost use Rattle.std.specs.Prelude.{Some};
    ghost use Rattle.scn_saved.specs.Name.{name_text};

    ghost output = { λ shown. Some (name_text shown.0) };

    fn fmt<W: fmt::Write>(&self, f: &mut fmt::Formatter<W>) -> fmt::Result {
        match self.0 {
            Key::Private { vcpu, id } => write!(f, "v{vcpu}:{id}"),
            Key::Spi(id) | Key::Lpi(id) => write!(f, "{id}"),
        }
    }
}
