//! The events of a trace, as JSON.

use gic_msi::{CoreStep, Key};
use port_seq::{DeviceOp, Frame, GuestOp, GuestShape, Touching, VcpuWord, WordId};
use std::alloc::{AllocError, Global};

/// Bytes of a word of memory.
const WORD_BYTES: u32 = 8;

/// Plain words of each vCPU: GICR_PROPBASER and GICR_PENDBASER.
const VCPU_WORDS: u32 = 2;

/// The name of an interrupt.
fn name_of(alloc: Global, key: Key) -> Result<String, AllocError> {
    match key {
        Key::Private { vcpu, id } => format!(in alloc; "\"v{vcpu}:{id}\""),
        Key::Spi(id) | Key::Lpi(id) => format!(in alloc; "\"{id}\""),
    }
}

/// A number, or null.
fn number_of(alloc: Global, number: Option<u64>) -> Result<String, AllocError> {
    match number {
        Some(number) => format!(in alloc; "{number}"),
        None => String::from_str(alloc, "null"),
    }
}

/// An event of an interrupt, under this field.
fn of_key(alloc: Global, field: &str, key: Key) -> Result<String, AllocError> {
    let name = name_of(alloc, key)?;
    format!(in alloc; "\"{field}\":{name}")
}

/// What is done to the record of an interrupt, with its arguments.
fn what_of(alloc: Global, touching: Touching) -> Result<String, AllocError> {
    match touching {
        Touching::Read { kind } => format!(in alloc; "\"read\",[\"{kind:?}\"]"),
        Touching::Register { kind, value } => {
            format!(in alloc; "\"write\",[\"{kind:?}\",{value}]")
        }
        Touching::Enables { en0, en1 } => format!(in alloc; "\"enables\",[{en0},{en1}]"),
        Touching::MapLpi {
            target,
            enabled,
            prio,
        } => format!(in alloc; "\"map\",[{target},{enabled},{prio}]"),
        Touching::Retarget { target } => {
            let target = number_of(alloc, target.map(u64::from))?;
            format!(in alloc; "\"retarget\",[{target}]")
        }
        Touching::Configure { enabled, prio } => {
            format!(in alloc; "\"configure\",[{enabled},{prio}]")
        }
        Touching::Forget => String::from_str(alloc, "\"forget\",[]"),
    }
}

/// A touch that answers nothing.
fn touch(alloc: Global, key: Key, touching: Touching) -> Result<String, AllocError> {
    let name = name_of(alloc, key)?;
    let what = what_of(alloc, touching)?;
    format!(in alloc; "\"touch\":[{name},{what},null]")
}

/// The name of a register of the ITS, by its place among these.
fn its_word(place: u32) -> &'static str {
    match place {
        0 => "its_ctlr",
        1 => "cbaser",
        2 => "cwriter",
        3 => "baser0",
        _ => "baser1",
    }
}

/// The place of a plain word.
fn place_of(alloc: Global, shape: &GuestShape, index: u32) -> Result<String, AllocError> {
    let words = shape.ram / WORD_BYTES;
    let Some(place) = index.checked_sub(words) else {
        return format!(in alloc; "\"ram:{index}\"");
    };
    match place.checked_sub(VCPU_WORDS.saturating_mul(shape.vcpus)) {
        Some(place) => format!(in alloc; "\"{}\"", its_word(place)),
        None if place % VCPU_WORDS == 0 => {
            format!(in alloc; "\"propbaser:{}\"", place / VCPU_WORDS)
        }
        None => format!(in alloc; "\"pendbaser:{}\"", place / VCPU_WORDS),
    }
}

/// A place is read, or stored.
fn plain(
    alloc: Global,
    shape: &GuestShape,
    field: &str,
    index: u32,
    value: u64,
) -> Result<String, AllocError> {
    let place = place_of(alloc, shape, index)?;
    format!(in alloc; "\"{field}\":[{place},{value}]")
}

/// A field that holds.
fn flag(alloc: Global, field: &str) -> Result<String, AllocError> {
    format!(in alloc; "\"{field}\":true")
}

/// What a step stands for, where it did what it is for; none where it stands for nothing, or for a read that a trace need not have. What an
/// access of the CPU interface answers only its call tells.
pub(crate) fn event_of(
    alloc: Global,
    shape: &GuestShape,
    step: &CoreStep,
    found: u64,
    is_there: bool,
) -> Result<Option<String>, AllocError> {
    Ok(Some(match *step {
        CoreStep::Raise { key } => of_key(alloc, "raise", key)?,
        CoreStep::Claim { key, .. } if is_there => of_key(alloc, "take", key)?,
        CoreStep::Claim { key, .. } => of_key(alloc, "reach", key)?,
        CoreStep::Release { key } => of_key(alloc, "leave", key)?,
        CoreStep::Poll {
            reg: Some(reg),
            write,
        } => {
            let write = number_of(alloc, write)?;
            format!(in alloc; "\"cpu\":[\"{}\",{write},null]", reg.name())?
        }
        CoreStep::Touch { key, kind, .. } => touch(alloc, key, kind)?,
        CoreStep::WireUp { key } => of_key(alloc, "up", key)?,
        CoreStep::WireDown { key } => of_key(alloc, "down", key)?,
        CoreStep::EnableLpis { .. } => flag(alloc, "enable")?,
        CoreStep::Look {
            word: WordId::Vcpu(vcpu),
        } => {
            let is_on = u32::from(VcpuWord::of(found).lpis);
            format!(in alloc; "\"read\":[\"lpis:{vcpu}\",{is_on}]")?
        }
        CoreStep::RamLook { index } => plain(alloc, shape, "read", index, found)?,
        CoreStep::RamPut { index, value, .. } => plain(alloc, shape, "put", index, value)?,
        CoreStep::CtlrTake { value, .. } => format!(in alloc; "\"ctlr_begin\":{value}")?,
        CoreStep::CtlrEnd => flag(alloc, "ctlr_end")?,
        CoreStep::TurnTake { .. } => flag(alloc, "its_begin")?,
        CoreStep::CommandDone {
            offset,
            stalled,
            ..
        } => format!(in alloc; "\"queue\":[{offset},{stalled}]")?,
        CoreStep::TurnRelease => flag(alloc, "its_end")?,
        _ => return Ok(None),
    }))
}

/// The field of a frame, and of whom it is.
fn frame_of(alloc: Global, frame: Frame, offset: u32) -> Result<String, AllocError> {
    match frame {
        Frame::Dist => format!(in alloc; "\"gicd\":{offset}"),
        Frame::Redist { vcpu } => format!(in alloc; "\"gicr\":{offset},\"of\":{vcpu}"),
        Frame::Its => format!(in alloc; "\"gits\":{offset}"),
        Frame::Ram => format!(in alloc; "\"ram\":{offset}"),
    }
}

/// A value that is written, as a field, if one is.
fn written(alloc: Global, write: Option<u64>) -> Result<String, AllocError> {
    match write {
        Some(value) => format!(in alloc; ",\"write\":{value}"),
        None => Ok(String::new(alloc)),
    }
}

/// The form of a vCPU's operation.
pub(crate) fn form_of(alloc: Global, op: &GuestOp) -> Result<String, AllocError> {
    match *op {
        GuestOp::Icc { reg, write } => {
            let written = written(alloc, write)?;
            format!(in alloc; "\"icc\":\"{}\"{written}", reg.name())
        }
        GuestOp::Mem {
            frame,
            offset,
            size,
            write,
        } => {
            let frame = frame_of(alloc, frame, offset)?;
            let written = written(alloc, write)?;
            format!(in alloc; "{frame},\"size\":{size}{written}")
        }
    }
}

/// The form of what a device does, but for moves of wires.
pub(crate) fn device_form_of(alloc: Global, op: &DeviceOp) -> Result<String, AllocError> {
    match *op {
        DeviceOp::Message { spi } => format!(in alloc; "\"message\":{spi}"),
        DeviceOp::Msi { device, event } => format!(in alloc; "\"msi\":[{device},{event}]"),
        DeviceOp::Wire { key, up } => format!(in alloc; "\"wire\":{},\"up\":{up}", key.intid()),
    }
}

/// A call begins, of this form.
pub(crate) fn begin(alloc: Global, form: &str) -> Result<String, AllocError> {
    format!(in alloc; "\"begin\":{{{form}}}")
}

/// It ends, with what it read.
pub(crate) fn end(alloc: Global, answer: Option<u64>) -> Result<String, AllocError> {
    let answer = number_of(alloc, answer)?;
    format!(in alloc; "\"end\":{answer}")
}

/// An event of an actor.
pub(crate) fn by(
    alloc: Global,
    shape: &GuestShape,
    actor: u32,
    event: &str,
) -> Result<String, AllocError> {
    match actor.checked_sub(shape.vcpus) {
        Some(device) => format!(in alloc; "{{\"by\":[\"d\",{device}],{event}}}"),
        None => format!(in alloc; "{{\"by\":[\"v\",{actor}],{event}}}"),
    }
}
