//! The reading of what is run.
ghost use Rattle.std.specs.Prelude.{◌≡◌, ◌≤◌, true, false, MatchResult, IfOk, IfErr, IfSome, IfNone, IsTrue, Ok, Some, length, map, codes};
ghost use Rattle.serde_json.specs.View.{view};
ghost use Rattle.scn_read.specs.ScnBase.Codes.{first_of, ok_unless};
ghost use Rattle.scn_read.specs.Reading.{Refuses};
ghost use Rattle.scn_read.specs.Step.{value_of};
ghost use Rattle.scn_read.specs.declared.refusal.ReadRefusal.TheVariants.{Bad};
ghost use Rattle.gic_host.specs.declared.form.HostForm.TheVariants.{ExitPe, ShowPe};
ghost use Rattle.gic_host.specs.Good.{is_good};
ghost use Rattle.gic_host.specs.Reading.{link_twice_code, is_link, is_link_in_range, link_fault, link_of, host_fault, vcpus_of, set_named, set_at as set_in, phys_said, access_said, enter_said, flag_said, form_said, judged, step_of, steps_of, reading, IsOpening};

use crate::form::{ENTER, EXIT, HostForm, ICC, LRS, PHYS, SET, WRITE};
use crate::good::{Standing, has_clash, is_priority, is_spi, loaded_after};
use crate::link::{Link, LinkList};
use crate::scenario::{HostScenario, MAX_LINKS, MAX_STEPS, MAX_VCPUS};
use crate::step::{HostStep, HostStepList, PhysSet};
use scn_read::{
    Fault, IccReg, LIMIT, ReadRefusal, SHAPE, UNKNOWN_ACTOR, UNKNOWN_REGISTER, both, elements_at,
    first_code, flag_at, has_only, is_list_register_count, list_at, number_at, number_or, text_at,
};
use serde_json::Value;
use std::alloc::{AllocError, Global};

/// Two links have one physical interrupt, or one virtual interrupt of a vCPU.
pub const LINK_TWICE: u8 = 11;

/// A law of the codes: the number of the one that links have, which scenarios' writers know.
pub fn link_code_is_fixed()
    ensures { LINK_TWICE ≡ link_twice_code }
{}

const VCPUS: &str = "vcpus";

const LINKS: &str = "links";

const STEPS: &str = "steps";
/// The fields of what is run.
pub const HOST_FIELDS: [&str; 4] = [VCPUS, LRS, LINKS, STEPS];

const VID: &str = "vid";

const VCPU: &str = "vcpu";

const PRIO: &str = "prio";
/// The fields of a link.
pub const LINK_FIELDS: [&str; 4] = [PHYS, VID, VCPU, PRIO];

/// The step of a fault outside of the steps.
const OUTSIDE: u32 = 0;
/// The number of the first step.
const FIRST_STEP: u32 = 1;

/// A link as it is written: its numbers may be any.
#[derive(Clone, Copy)]
struct WrittenLink {
    phys: u64,
    vid: u64,
    vcpu: u64,
    prio: u64,
}

/// A link as it is written, if each of its fields is there, and a number.
fn written(value: &Value) -> Option<WrittenLink>
    ensures some { let d = view value.now in IfSome result (λ found. (is_link d ≡ true)
        × (found.phys ≡ value_of (codes "phys") d) × (found.vid ≡ value_of (codes "vid") d) × (found.vcpu ≡ value_of (codes "vcpu") d) × (found.prio ≡ value_of (codes "prio") d)) }
    ensures none { IfNone result (is_link (view value.now) ≡ false) }
{
    if !has_only(value, &LINK_FIELDS) {
        return None;
    }
    Some(WrittenLink {
        phys: number_at(value, PHYS)?,
        vid: number_at(value, VID)?,
        vcpu: number_at(value, VCPU)?,
        prio: number_at(value, PRIO)?,
    })
}

/// A link of one of so many vCPUs, or its fault.
fn link(value: &Value, vcpus: u64) -> Result<Link, u8>
    requires { vcpus ≤ 8 }
    ensures { let d = view value.now in result ≡ ok_unless (link_fault vcpus d) (link_of d) }
{
    let written = written(value).ok_or(SHAPE)?;
    if !is_spi(written.phys) || !is_spi(written.vid) || !is_priority(written.prio) {
        return Err(LIMIT);
    }
    if written.vcpu >= vcpus {
        return Err(UNKNOWN_ACTOR);
    }
    Ok(Link {
        phys: written.phys as u32,
        vid: written.vid as u32,
        vcpu: written.vcpu as u32,
        prio: written.prio as u8,
    })
}

/// The links of so many vCPUs, or the least of their faults.
fn links(alloc: Global, values: &[Value], vcpus: u64) -> Result<Result<LinkList, u8>, AllocError>
    requires { vcpus ≤ 8 }
    ensures { let ds = map view values.now in IfOk result (λ found. found ≡ ok_unless (first_of (map (link_fault vcpus) ds)) (map link_of ds)) }
{
    let mut links = LinkList::new(alloc);
    let mut fault = None;
    for value in values {
        match link(value, vcpus) {
            Ok(link) => links.push(link)?,
            Err(code) => fault = first_code(fault, Some(code)),
        }
    }
    match fault {
        Some(code) => Ok(Err(code)),
        None => Ok(Ok(links)),
    }
}

/// What is run, without its links, before its steps are read.
#[derive(Clone, Copy)]
struct Parts<'v> {
    vcpus: u32,
    lrs: u32,
    steps: &'v [Value],
}

/// The vCPUs, the list registers and the steps, or the fault of the own fields.
fn opening(value: &Value) -> Result<Parts<'_>, u8>
    ensures { let d = view value.now in MatchResult result
        (λ parts. IsOpening d parts.vcpus parts.lrs (map view parts.steps.now))
        (λ code. host_fault d ≡ Some code) }
{
    if !has_only(value, &HOST_FIELDS) {
        return Err(SHAPE);
    }
    let vcpus = number_at(value, VCPUS).ok_or(SHAPE)?;
    let lrs = number_at(value, LRS).ok_or(SHAPE)?;
    let links = list_at(value, LINKS).ok_or(SHAPE)?;
    let steps = list_at(value, STEPS).ok_or(SHAPE)?;
    if !(1..=u64::from(MAX_VCPUS)).contains(&vcpus) || !is_list_register_count(lrs) {
        return Err(LIMIT);
    }
    if links.len() > MAX_LINKS || steps.len() > MAX_STEPS {
        return Err(LIMIT);
    }
    Ok(Parts {
        vcpus: vcpus as u32,
        lrs: lrs as u32,
        steps,
    })
}

impl PhysSet {
    /// What is done to a physical interrupt, by its word. None exactly where it is none of them.
    fn named(name: &str) -> Option<PhysSet>
        ensures { result ≡ set_named name.now }
    {
        match name {
            "pend" => Some(PhysSet::Pend),
            "clear" => Some(PhysSet::Clear),
            "enable" => Some(PhysSet::Enable),
            "disable" => Some(PhysSet::Disable),
            _ => None,
        }
    }
}

/// What a step does to a physical interrupt, by its word.
fn set_at(value: &Value) -> Option<PhysSet>
    ensures { result ≡ set_in (view value.now) }
{
    PhysSet::named(text_at(value, SET)?)
}

/// What a step on a physical interrupt says, or its fault.
fn phys_step(value: &Value, standing: &Standing<'_>) -> Result<HostStep, u8>
    ensures { result ≡ judged standing.now.links.now standing.now.vcpus standing.now.loaded (phys_said (view value.now)) }
{
    let phys = number_at(value, PHYS).ok_or(SHAPE)?;
    let set = set_at(value);
    if value.get(SET).is_some() && set.is_none() {
        return Err(SHAPE);
    }
    let phys = standing.phys(phys)?;
    Ok(HostStep::Phys { phys, set })
}

/// What an access of a register says, or its fault.
fn access_step(value: &Value, standing: &Standing<'_>) -> Result<HostStep, u8>
    ensures { result ≡ judged standing.now.links.now standing.now.vcpus standing.now.loaded (access_said (view value.now)) }
{
    let name = text_at(value, ICC).ok_or(SHAPE)?;
    number_or(value, WRITE, 0).ok_or(SHAPE)?;
    let reg = IccReg::named(name).ok_or(UNKNOWN_REGISTER)?;
    let write = number_at(value, WRITE);
    match standing.access_fault(reg, write) {
        Some(code) => Err(code),
        None => Ok(HostStep::Icc { reg, write }),
    }
}

/// What an enter says, or its fault.
fn enter_step(value: &Value, standing: &Standing<'_>) -> Result<HostStep, u8>
    ensures { result ≡ judged standing.now.links.now standing.now.vcpus standing.now.loaded (enter_said (view value.now)) }
{
    let vcpu = number_at(value, ENTER).ok_or(SHAPE)?;
    let vcpu = standing.entered(vcpu)?;
    Ok(HostStep::Enter { vcpu })
}

/// What an exit says, or its fault.
fn exit_step(value: &Value, standing: &Standing<'_>) -> Result<HostStep, u8>
    ensures { result ≡ judged standing.now.links.now standing.now.vcpus standing.now.loaded (form_said ExitPe (view value.now)) }
{
    if flag_at(value, EXIT) != Some(true) {
        return Err(SHAPE);
    }
    match standing.exit_fault() {
        Some(code) => Err(code),
        None => Ok(HostStep::Exit),
    }
}

/// What a step says that shows the list registers, or its fault.
fn show_step(value: &Value) -> Result<HostStep, u8>
    ensures { result ≡ form_said ShowPe (view value.now) }
{
    if flag_at(value, LRS) != Some(true) {
        return Err(SHAPE);
    }
    Ok(HostStep::Lrs)
}

/// What a step of a form says, or its fault.
fn form_step(value: &Value, form: HostForm, standing: &Standing<'_>) -> Result<HostStep, u8>
    ensures { result ≡ judged standing.now.links.now standing.now.vcpus standing.now.loaded (form_said form (view value.now)) }
{
    match form {
        HostForm::Physical => phys_step(value, standing),
        HostForm::Access => access_step(value, standing),
        HostForm::EnterPe => enter_step(value, standing),
        HostForm::ExitPe => exit_step(value, standing),
        HostForm::ShowPe => show_step(value),
    }
}

/// What a step says, which has only the fields of its form, or its fault.
fn step(value: &Value, standing: &Standing<'_>) -> Result<HostStep, u8>
    ensures { result ≡ step_of standing.now.links.now standing.now.vcpus standing.now.loaded (view value.now) }
{
    let form = HostForm::of(value).ok_or(SHAPE)?;
    if !has_only(value, form.row().fields) {
        return Err(SHAPE);
    }
    form_step(value, form, standing)
}

/// The steps, or the first fault of them, where a vCPU is loaded before the first.
fn steps(
    alloc: Global,
    values: &[Value],
    links: &[Link],
    vcpus: u32,
) -> Result<HostStepList, ReadRefusal>
    requires few { length values.now ≤ 100000 }
    ensures ok { IfOk result (λ steps. steps_of links.now vcpus true 1 (map view values.now) ≡ Ok steps) }
    ensures bad { IfErr result (Refuses (steps_of links.now vcpus true 1 (map view values.now))) }
{
    let mut steps = HostStepList::new(alloc);
    let mut loaded = true;
    for (index, value) in values.iter().enumerate() {
        let standing = Standing {
            links,
            vcpus,
            loaded,
        };
        match step(value, &standing) {
            Ok(step) => {
                loaded = loaded_after(&step, loaded);
                steps.push(step)?;
            }
            Err(code) => {
                return Err(ReadRefusal::Bad(Fault {
                    code,
                    step: FIRST_STEP + index as u32,
                }));
            }
        }
    }
    Ok(steps)
}

/// How many vCPUs there are, as far as there may be.
fn vcpus_in(value: &Value) -> u64
    ensures value { result ≡ vcpus_of (view value.now) }
    ensures few { result ≤ 8 }
{
    number_at(value, VCPUS)
        .unwrap_or(0)
        .min(u64::from(MAX_VCPUS))
}

/// The refusal of a fault outside of the steps.
fn outside(code: u8) -> ReadRefusal
    ensures { result ≡ Bad (record { code = code; step = 0 }) }
{
    ReadRefusal::Bad(Fault {
        code,
        step: OUTSIDE,
    })
}

/// What a JSON value says to run.
///
/// A number is an unsigned integer below 2^64, or a text of `0x` and 1 to 16 hexadecimal digits. A value that says nothing to
/// run is `Bad`, with the first of its faults: that of the least step, where 0 is the number of all that stands outside of
/// the steps, and of these the least code. Where memory is refused, the answer is `NoMemory`, whatever the value is.
pub fn read_host(alloc: Global, value: &Value) -> Result<HostScenario, ReadRefusal>
    ensures ok { IfOk result (λ scenario. reading (view value.now) ≡ Ok scenario) }
    ensures good { IfOk result (λ scenario. IsTrue (is_good scenario)) }
    ensures bad { IfErr result (Refuses (reading (view value.now))) }
{
    let links = links(alloc, elements_at(value, LINKS), vcpus_in(value))?;
    let (opening, links) = match both(opening(value), links) {
        Ok(parts) => parts,
        Err(code) => return Err(outside(code)),
    };
    if has_clash(links.as_slice()) {
        return Err(outside(LINK_TWICE));
    }
    let steps = steps(alloc, opening.steps, links.as_slice(), opening.vcpus)?;
    Ok(HostScenario {
        vcpus: opening.vcpus,
        lrs: opening.lrs,
        links,
        steps,
    })
}
