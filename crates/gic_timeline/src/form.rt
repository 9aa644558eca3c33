//! Steps and interrupts, as they are named in a picture.
use gic_picture::{DeviceOp, Frame, GuestOp, IrqName, Key, PeOp, Step};
use std::fmt;

/// The name of an interrupt, as in the lines of an end.
#[derive(Clone, Copy)]
pub(crate) struct Name(pub Key);

impl fmt::Display for Name {
    fn fmt<W: fmt::Write>(&self, f: &mut fmt::Formatter<W>) -> fmt::Result {
        match self.0 {
            Key::Private { vcpu, id } => write!(f, "v{vcpu}:{id}"),
            Key::Spi(id) | Key::Lpi(id) => write!(f, "{id}"),
        }
    }
}

/// The same, after the guest where there is more than one.
#[derive(Clone, Copy)]
pub(crate) struct FullName {
    pub name: IrqName,
    pub is_of_several: bool,
}

impl fmt::Display for FullName {
    fn fmt<W: fmt::Write>(&self, f: &mut fmt::Formatter<W>) -> fmt::Result {
        if self.is_of_several {
            write!(f, "{}/", self.name.guest)?;
        }
        write!(f, "{}", Name(self.name.key))
    }
}

/// What a vCPU accesses, without the value that it writes.
#[derive(Clone, Copy)]
pub(crate) struct Place<'a>(pub &'a GuestOp);

impl fmt::Display for Place<'_> {
    fn fmt<W: fmt::Write>(&self, f: &mut fmt::Formatter<W>) -> fmt::Result {
        match *self.0 {
            GuestOp::Icc { reg, .. } => f.write_str(reg.name()),
            GuestOp::Mem { frame, offset, .. } => match frame {
                Frame::Dist => write!(f, "gicd {offset:#x}"),
                Frame::Redist { vcpu } => write!(f, "gicr {vcpu} {offset:#x}"),
                Frame::Its => write!(f, "gits {offset:#x}"),
                Frame::Ram => write!(f, "ram {offset:#x}"),
            },
        }
    }
}

/// The value that an operation writes.
fn written(op: &GuestOp) -> Option<u64> {
    match *op {
        GuestOp::Icc { write, .. } | GuestOp::Mem { write, .. } => write,
    }
}

/// What a device does.
#[derive(Clone, Copy)]
struct Deed<'a>(&'a DeviceOp);

impl fmt::Display for Deed<'_> {
    fn fmt<W: fmt::Write>(&self, f: &mut fmt::Formatter<W>) -> fmt::Result {
        match *self.0 {
            DeviceOp::Message { spi } => write!(f, "message {spi}"),
            DeviceOp::Wire { key, up: true } => write!(f, "wire {} up", Name(key)),
            DeviceOp::Wire { key, up: false } => write!(f, "wire {} down", Name(key)),
            DeviceOp::Msi { device, event } => write!(f, "msi {device} {event}"),
        }
    }
}

/// What a step does.
#[derive(Clone, Copy)]
pub(crate) struct Form<'a>(pub &'a Step);

impl fmt::Display for Form<'_> {
    fn fmt<W: fmt::Write>(&self, f: &mut fmt::Formatter<W>) -> fmt::Result {
        match self.0 {
            Step::Vcpu { guest, vcpu, op } => {
                write!(f, "vcpu {guest}.{vcpu} {}", Place(op))?;
                match written(op) {
                    Some(value) => write!(f, "={value:#x}"),
                    None => Ok(()),
                }
            }
            Step::Device { guest, device, op } => write!(f, "dev {guest}.{device} {}", Deed(op)),
            Step::Pe { pe, op } => match op {
                PeOp::Enter { guest, vcpu } => write!(f, "pe {pe} enter {guest}.{vcpu}"),
                PeOp::Exit => write!(f, "pe {pe} exit"),
                PeOp::Lrs => write!(f, "pe {pe} lrs"),
            },
        }
    }
}
