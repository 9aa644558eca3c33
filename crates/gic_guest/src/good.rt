//! What a vCPU can do in its guest.
ghost use Rattle.std.specs.Prelude.{◌≡◌, IsTrue};
ghost use Rattle.gic_ram.specs.Words.{IsShape};
ghost use Rattle.gic_ram.specs.Access.{is_size as is_size_of};
ghost use Rattle.gic_guest.specs.Good.{is_usable as is_usable_for, fits as fits_in, has_frame as has_frame_in, is_inside as is_inside_of, is_good_op as is_good_op_of};

use gic_ram::{Frame, GuestOp, GuestShape, IccReg, split};

/// The bytes of the distributor's frame.
const DISTRIBUTOR_BYTES: u32 = 0x1_0000;
/// The bytes of a redistributor's two frames.
const REDISTRIBUTOR_BYTES: u32 = 0x2_0000;
/// The bytes of the two frames of the ITS.
const ITS_BYTES: u32 = 0x2_0000;

/// Whether a register can be written, where there is a value to write, or else read.
pub fn is_usable(reg: IccReg, write: Option<u64>) -> bool
    ensures { result ≡ is_usable_for reg write }
{
    match write {
        Some(_) => reg.is_writable(),
        None => reg.is_readable(),
    }
}

/// Whether an access has one of the sizes.
pub fn is_size(size: u32) -> bool
    ensures { result ≡ is_size_of size }
{
    matches!(size, 1 | 2 | 4 | 8)
}

/// Whether a value, if there is one, fits in 1, 2, 4 or 8 bytes.
pub fn fits(size: u32, write: Option<u64>) -> bool
    requires { IsTrue (is_size_of size) }
    ensures { result ≡ fits_in size write }
{
    let most = match size {
        1 => u64::from(u8::MAX),
        2 => u64::from(u16::MAX),
        4 => u64::from(u32::MAX),
        _ => u64::MAX,
    };
    write.is_none_or(|value| value <= most)
}

/// Whether a guest has what is accessed.
pub fn has_frame(shape: &GuestShape, frame: Frame) -> bool
    ensures { result ≡ has_frame_in shape.now frame }
{
    match frame {
        Frame::Redist { vcpu } => vcpu < shape.vcpus,
        Frame::Dist | Frame::Its | Frame::Ram => true,
    }
}

/// Whether an access of 1, 2, 4 or 8 bytes lies in its frame.
pub fn is_inside(shape: &GuestShape, frame: Frame, offset: u32, size: u32) -> bool
    requires shape { IsShape shape.now }
    requires size { IsTrue (is_size_of size) }
    ensures { result ≡ is_inside_of shape.now frame offset size }
{
    match frame {
        Frame::Dist => offset < DISTRIBUTOR_BYTES,
        Frame::Redist { .. } => offset < REDISTRIBUTOR_BYTES,
        Frame::Its => offset < ITS_BYTES,
        Frame::Ram => split(u64::from(offset), size, shape.ram).is_some(),
    }
}

/// Whether a vCPU of a guest of this shape can do an operation: the access of a register that is readable or writable, or an access of
/// 1, 2, 4 or 8 bytes that lies in a frame which the guest has, with a value that fits it. Calls of an operation ask for it.
pub fn is_good_op(shape: &GuestShape, op: &GuestOp) -> bool
    requires { IsShape shape.now }
    ensures { result ≡ is_good_op_of shape.now op.now }
{
    match *op {
        GuestOp::Icc { reg, write } => is_usable(reg, write),
        GuestOp::Mem {
            frame,
            offset,
            size,
            write,
        } => {
            is_size(size)
                && fits(size, write)
                && has_frame(shape, frame)
                && is_inside(shape, frame, offset, size)
        }
    }
}
