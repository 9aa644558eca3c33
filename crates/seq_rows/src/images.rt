//! Drawn images, resumed, and done by the ideal controller from the states that they tell.
ghost use Rattle.eager_rest.specs.SavedCheck.SavedGuest.Whole.{IsValidRun};

use crate::dice::Dice;
use crate::draw::{later_steps, opening};
use crate::keep::able_steps;
use crate::states::state;
use eager_rest::check::{Pes, Saved, StateList, VcpuName, is_valid_run, standing};
use eager_rest::eager_saved;
use gic_top::host::report::text_saved;
use gic_top::{
    Bytes, Guests, NOTHING_SHOWN, OK, OpenGate, Scenario, Step, SureSink, SureSource, run_tool,
};
use image_read::{image, read_image};
use serde_json::Value;
use std::alloc::{AllocError, Global};
use std::test::Fail;

/// The seeds: the first, and how many.
const FIRST_SEED: u64 = 1;

const SEEDS: u64 = 100;

/// How many tries of a step an image has, and how many steps it may have.
const TRIES: u32 = 40;

const MOST_STEPS: usize = 1000;

/// How many steps were done at most.
const MOST_DONE: u32 = 1000;

/// A vCPU on each PE, or none where the one that is drawn stands on another.
fn residents(alloc: Global, dice: &mut Dice, pes: u32, guests: &Guests) -> Result<Pes, AllocError> {
    let number = u32::try_from(guests.len()).unwrap_or(1);
    let mut residents = Pes::new(alloc);
    for _ in 0..pes {
        let guest = dice.roll_small(number.max(1));
        let vcpus = guests
            .get(guest as usize)
            .map_or(1, |guest| guest.shape.vcpus.max(1));
        let name = VcpuName {
            guest,
            vcpu: dice.roll_small(vcpus),
        };
        let is_elsewhere = residents.iter().any(|resident| *resident == Some(name));
        residents.push((!is_elsewhere).then_some(name))?;
    }
    Ok(residents)
}

/// A scenario that was saved after some steps, in drawn states.
fn saved(alloc: Global, dice: &mut Dice, scenario: Scenario) -> Result<Saved, AllocError> {
    let mut states = StateList::new(alloc);
    for guest in scenario.guests.iter() {
        states.push(state(alloc, dice, guest)?)?;
    }
    let on_pe = residents(alloc, dice, scenario.pes, &scenario.guests)?;
    let done = dice.roll_small(MOST_DONE);
    Ok(Saved {
        scenario,
        done,
        reads: dice.roll_small(done + 1),
        on_pe,
        state: states,
    })
}

/// The image of a saved run, with those of the drawn steps that can be done.
fn image_with(alloc: Global, mut saved: Saved, drawn: &[Step]) -> Result<Bytes, Fail>
    requires valid { IsValidRun MOST_STEPS saved }
{
    let standing = standing(alloc, &saved)?;
    saved.scenario.steps = able_steps(alloc, standing, drawn)?;
    if saved.state.len() != saved.scenario.guests.len() {
        return Err(Fail::from("a guest without a state"));
    }
    Ok(image(alloc, &saved)?)
}

/// The text of what is left of the run of an image, by the ideal controller.
fn ideal_text(alloc: Global, bytes: &[u8]) -> Result<Bytes, Fail> {
    let value = Value::from_slice(alloc, bytes)?;
    let saved = read_image(alloc, &value)?;
    Ok(text_saved(alloc, &saved, &eager_saved(alloc, &saved)?)?)
}

#[test]
fn drawn_images(rt: HostRuntime) -> Result<(), Fail> {
    let words = [String::from_str(rt.alloc(), "resume")?];
    for seed in FIRST_SEED..FIRST_SEED + SEEDS {
        let mut dice = Dice::of(seed);
        let opening = opening(rt.alloc(), &mut dice)?;
        let drawn = later_steps(rt.alloc(), &mut dice, opening.guests.len(), TRIES)?;
        let saved = saved(rt.alloc(), &mut dice, opening)?;
        assert!(rt; is_valid_run(rt.alloc(), MOST_STEPS, &saved)?, "{seed}");
        let image = image_with(rt.alloc(), saved, drawn.as_slice())?;
        let ideal = ideal_text(rt.alloc(), image.as_slice())?;
        let mut source = SureSource::of(image.as_slice().to_vec(rt.alloc())?);
        let mut sink = SureSink::new(rt.alloc());
        let mut shown = NOTHING_SHOWN;
        let status = run_tool(
            &rt,
            rt.alloc(),
            &words,
            &mut source,
            &mut sink,
            &OpenGate,
            &mut shown,
        );
        assert_eq!(rt; status, OK, "{seed}");
        assert_eq!(rt;
            str::from_utf8(sink.taken().ok_or("not told")?)?,
            str::from_utf8(ideal.as_slice())?,
            "{seed}"
        );
    }
    Ok(())
}
