//! Each worked scenario, saved after each number of its steps: what was written of these, and then what is written of the image, is the text of its run.
//! And an image with each of its numbers changed, one at a time, which is resumed or refused.

use crate::row::{answer_to, input_of, text_of};
use gic_top::{BAD_SCENARIO, OK};
use std::alloc::{AllocError, Global};
use std::process::Abort;
use std::sync::Wait;
use std::test::Fail;
use std::thread::Threads;
use worked_rows::Row;
use worked_rows::faults::FAULTS;
use worked_rows::interface::{ACKNOWLEDGES, LIST_REGISTERS, PRIORITIES, WIRES};
use worked_rows::its::{COMMANDS, LPIS, STALLS};
use worked_rows::list_registers::STEP_BY_STEP;
use worked_rows::memory_mapped::{EXTENDED_SPIS, PARTS, START, VALUES};
use worked_rows::vcpus::{MOVES, SGIS};

/// Whether a line is of a step past the first ones, so many, or of no step.
fn is_after(line: &str, done: usize) -> bool {
    match line.split_once(' ') {
        Some((number, _)) => match number.parse::<usize>() {
            Ok(step) => step > done,
            Err(_) => true,
        },
        None => true,
    }
}

/// The lines without those of the first steps, so many.
fn rest_of(alloc: Global, lines: &[&'static str], done: usize) -> Result<String, AllocError> {
    let mut rest: Vec<&'static str> = Vec::new(alloc);
    for line in lines {
        if is_after(line, done) {
            rest.push(line)?;
        }
    }
    text_of(alloc, rest.as_slice())
}

/// What `resume` writes of what `save` writes after so many steps of a row is the rest of its text.
fn check_saved(
    rt: &(impl Abort + Threads + Wait + Sync),
    alloc: Global,
    row: &Row,
    done: usize,
) -> Result<(), Fail> {
    let input = input_of(alloc, row.before, row.steps)?;
    let steps = format!(in alloc; "{done}")?;
    let (status, image) = answer_to(rt, alloc, &["save", steps.as_str()], input)?;
    assert_eq!(rt; status, OK, "{}, saved after {done}", row.shows);
    let (status, text) = answer_to(rt, alloc, &["resume"], image)?;
    assert_eq!(rt; status, OK, "{}, resumed after {done}", row.shows);
    let rest = rest_of(alloc, row.lines, done)?;
    assert_eq!(rt;
        text.as_str(),
        rest.as_str(),
        "{}, resumed after {done}",
        row.shows
    );
    Ok(())
}

/// The same of each row, after each number of its steps.
fn check_all(
    rt: &(impl Abort + Threads + Wait + Sync),
    alloc: Global,
    rows: &[Row],
) -> Result<(), Fail> {
    for row in rows {
        let mut steps: usize = 0;
        for part in row.steps {
            steps = steps.wrapping_add(part.len());
        }
        for done in 0..=steps {
            check_saved(rt, alloc, row, done)?;
        }
    }
    Ok(())
}

#[test]
fn goes_on_with_faults_of_commands(rt: HostRuntime) -> Result<(), Fail> {
    check_all(&rt, rt.alloc(), &FAULTS)
}

#[test]
fn goes_on_with_acknowledges(rt: HostRuntime) -> Result<(), Fail> {
    check_all(&rt, rt.alloc(), &ACKNOWLEDGES)
}

#[test]
fn goes_on_with_priorities(rt: HostRuntime) -> Result<(), Fail> {
    check_all(&rt, rt.alloc(), &PRIORITIES)
}

#[test]
fn goes_on_with_list_registers(rt: HostRuntime) -> Result<(), Fail> {
    check_all(&rt, rt.alloc(), &LIST_REGISTERS)
}

#[test]
fn goes_on_with_wires(rt: HostRuntime) -> Result<(), Fail> {
    check_all(&rt, rt.alloc(), &WIRES)
}

#[test]
fn goes_on_with_lpis(rt: HostRuntime) -> Result<(), Fail> {
    check_all(&rt, rt.alloc(), &LPIS)
}

#[test]
fn goes_on_with_stalls(rt: HostRuntime) -> Result<(), Fail> {
    check_all(&rt, rt.alloc(), &STALLS)
}

#[test]
fn goes_on_with_commands(rt: HostRuntime) -> Result<(), Fail> {
    check_all(&rt, rt.alloc(), &COMMANDS)
}

#[test]
fn goes_on_with_list_registers_step_by_step(rt: HostRuntime) -> Result<(), Fail> {
    check_all(&rt, rt.alloc(), &STEP_BY_STEP)
}

#[test]
fn goes_on_with_parts_of_registers(rt: HostRuntime) -> Result<(), Fail> {
    check_all(&rt, rt.alloc(), &PARTS)
}

#[test]
fn goes_on_with_values_of_registers(rt: HostRuntime) -> Result<(), Fail> {
    check_all(&rt, rt.alloc(), &VALUES)
}

#[test]
fn goes_on_with_extended_spis(rt: HostRuntime) -> Result<(), Fail> {
    check_all(&rt, rt.alloc(), &EXTENDED_SPIS)
}

#[test]
fn goes_on_with_a_start(rt: HostRuntime) -> Result<(), Fail> {
    check_all(&rt, rt.alloc(), &START)
}

#[test]
fn goes_on_with_sgis(rt: HostRuntime) -> Result<(), Fail> {
    check_all(&rt, rt.alloc(), &SGIS)
}

#[test]
fn goes_on_with_moves(rt: HostRuntime) -> Result<(), Fail> {
    check_all(&rt, rt.alloc(), &MOVES)
}

/// Of a text the number at a place, counted from 1; none where there are fewer.
fn number_at(text: &str, at: usize) -> Option<u64> {
    let mut place: usize = 0;
    let mut number = None;
    let mut is_within = false;
    for letter in text.chars() {
        let digit = letter.to_digit(10);
        if digit.is_some() && !is_within {
            place = place.wrapping_add(1);
        }
        is_within = digit.is_some();
        if let Some(digit) = digit {
            if place == at {
                let so_far: u64 = number.unwrap_or(0);
                number = Some(so_far.wrapping_mul(10).wrapping_add(u64::from(digit)));
            }
        }
    }
    number
}

/// The text with another number at a place.
fn changed(alloc: Global, text: &str, at: usize, number: u64) -> Result<String, AllocError> {
    let mut other = String::new(alloc);
    let mut place: usize = 0;
    let mut is_within = false;
    for letter in text.chars() {
        let is_digit = letter.is_ascii_digit();
        if is_digit && !is_within {
            place = place.wrapping_add(1);
            if place == at {
                other = format!(in alloc; "{other}{number}")?;
            }
        }
        is_within = is_digit;
        if !is_digit || place != at {
            other.push(letter)?;
        }
    }
    Ok(other)
}

#[test]
fn takes_or_refuses_changed_numbers(rt: HostRuntime) -> Result<(), Fail> {
    for row in &ACKNOWLEDGES[..1] {
        let input = input_of(rt.alloc(), row.before, row.steps)?;
        let (_, image) = answer_to(&rt, rt.alloc(), &["save", "2"], input)?;
        for at in 1..image.len() {
            let Some(number) = number_at(image.as_str(), at) else {
                break;
            };
            for other in [number.wrapping_add(1), u64::MAX] {
                let text = changed(rt.alloc(), image.as_str(), at, other)?;
                let (status, _) = answer_to(&rt, rt.alloc(), &["resume"], text)?;
                assert!(rt;
                    status == OK || status == BAD_SCENARIO,
                    "number {at} as {other}"
                );
            }
        }
    }
    Ok(())
}
