//! The line of a generated scenario's run.

ghost use Rattle.std.specs.Prelude.{◌≡◌, ◌%◌, ◌^◌, ◌++◌, OnOk, IfOk, count_by, string_bytes};
ghost use Rattle.gic_report.specs.Soak.{is_value, is_spurious, weight_from, soak_line as line_of};

use crate::lines::{put_hex, put_number};
use gic_io::{Bytes, NoMemory};
use gic_soak::{Answer, RunOut};
use std::alloc::{AllocError, Global};
use std::fmt::Write;

/// What an acknowledge reads where there is no interrupt.
const SPURIOUS: u64 = 1023;

/// How many steps read a value.
fn reads(answers: &[Answer]) -> usize
    ensures { result ≡ count_by is_value answers.now }
{
    answers
        .iter()
        .filter(|answer| matches!(answer, Answer::Value(_)))
        .count()
}

/// How many steps read that there is no interrupt.
fn spurious(answers: &[Answer]) -> usize
    ensures { result ≡ count_by is_spurious answers.now }
{
    answers
        .iter()
        .filter(|answer| matches!(answer, Answer::Value(SPURIOUS)))
        .count()
}

/// The sum of each value that was read times the number of its step, without the bits that do not fit.
fn sum(answers: &[Answer]) -> u64
    ensures { result ≡ weight_from 1 answers.now % 2 ^ 64 }
{
    let mut sum: u64 = 0;
    let mut step: u64 = 0;
    for answer in answers {
        step += 1;
        if let Answer::Value(value) = answer {
            sum = sum.wrapping_add(step.wrapping_mul(*value));
        }
    }
    sum
}

/// Writes the line of the run of a generated scenario.
fn write_line(text: &mut String, number: u64, answers: &[Answer]) -> Result<(), AllocError>
    ensures { OnOk result (string_bytes text.new ≡ string_bytes text.old ++ line_of number answers.now) }
{
    let steps = answers.len();
    write!(text, "soak {number} {steps}")?;
    put_number(text, " reads=", reads(answers) as u64)?;
    put_number(text, " spurious=", spurious(answers) as u64)?;
    put_hex::<16>(text, " sum=0x", sum(answers))?;
    writeln!(text)
}

/// The line of the run of the scenario that a number stands for: the number, how many steps there are, how many of them
/// read a value and how many read 1023, and the sum of the values, each times the number of its step, modulo 2^64. An
/// error where memory for it is refused.
pub fn soak_line(alloc: Global, number: u64, out: &RunOut) -> Result<Bytes, NoMemory>
    ensures { IfOk result (λ line. line ≡ line_of number out.now.answers) }
{
    let mut line = String::new(alloc);
    write_line(&mut line, number, out.answers.as_slice())?;
    Ok(Bytes::from(line.into_bytes()))
}
