//! A run as lines of text: a line for each step, and a column for each interrupt.
ghost use Rattle.std.specs.Prelude.{◌+◌, ◌≤◌, length};
ghost use Rattle.gic_picture.specs.ScnBase.declared.step.Mode.{Mode};
ghost use Rattle.gic_picture.specs.ScnBase.Good.{IsGood};

use crate::form::{Form, FullName};
use gic_picture::{Column, CpuMark, Mark, NoMemory, Picture, Scenario, Step, picture_of};
use std::alloc::{AllocError, Global};
use std::fmt::Write;

/// The most columns of a line.
const COLUMNS: usize = 100;
/// The columns of a step's number, and of the space after it.
const NUMBER: usize = 6;

/// What the letters mean.
const LEGEND: &str = "
.    neither pending nor active      p    pending         P    pending, and the wire is up
0..9 active by this vCPU             a..j active by vCPU 0..9 and pending
+    active by a later one           A..J the same, and the wire is up
                                     *    active by a later one and pending
";

/// The letters of interrupts that are active by a vCPU: alone, pending too, and with the wire up.
const ACTIVE: &[u8; 10] = b"0123456789";

const PENDING: &[u8; 10] = b"abcdefghij";

const RAISED: &[u8; 10] = b"ABCDEFGHIJ";

/// The letter of a mark. A wire that is up makes its interrupt pending.
fn letter(mark: &Mark) -> char {
    let Some(vcpu) = mark.active_by else {
        return match (mark.pending, mark.line) {
            (false, _) => '.',
            (true, false) => 'p',
            (true, true) => 'P',
        };
    };
    let (letters, later) = match (mark.pending, mark.line) {
        (false, _) => (ACTIVE, '+'),
        (true, false) => (PENDING, '*'),
        (true, true) => (RAISED, '*'),
    };
    letters
        .get(vcpu as usize)
        .map_or(later, |&byte| char::from(byte))
}

/// The names of the interrupts, each read downwards over its column.
fn write_names(
    out: &mut String,
    alloc: Global,
    picture: &Picture,
    indent: usize,
) -> Result<(), AllocError> {
    let is_of_several = picture.vcpus.iter().any(|name| name.guest > 0);
    let mut names: Vec<String> = Vec::new(alloc);
    for &name in picture.rows.as_slice() {
        names.push(format!(in alloc;
            "{}",
            FullName {
                name,
                is_of_several
            }
        )?)?;
    }
    let height = names.iter().map(|name| name.len()).max().unwrap_or(0);
    for line in 0..height {
        write!(out, "{:indent$}", "")?;
        for name in &names {
            let above = height.saturating_sub(name.len());
            let letter = line
                .checked_sub(above)
                .and_then(|place| name.as_bytes().get(place));
            out.push(letter.map_or(' ', |&byte| char::from(byte)))?;
        }
        writeln!(out)?;
    }
    Ok(())
}

/// The letters of a column.
fn write_marks(out: &mut String, column: &Column) -> Result<(), AllocError> {
    for mark in column.marks.as_slice() {
        out.push(letter(mark))?;
    }
    writeln!(out)
}

/// A line: a number, words in a field of this width, at least 1, and the letters of a column. Words that are longer go on in lines below.
fn write_line(
    out: &mut String,
    alloc: Global,
    number: &str,
    words: &str,
    width: usize,
    column: &Column,
) -> Result<(), AllocError> {
    let letters: Vec<char> = words.chars().collect(alloc)?;
    let width = width.max(1);
    for (line, part) in letters.chunks(width).enumerate() {
        let part: String = part.iter().copied().collect(alloc)?;
        if line == 0 {
            write!(out, "{number:>5} {part:<width$} ")?;
            write_marks(out, column)?;
        } else {
            writeln!(out, "{:NUMBER$}{part}", "")?;
        }
    }
    Ok(())
}

/// A line for each vCPU whose CPU interface is another than in the column before.
fn write_cpus(
    out: &mut String,
    picture: &Picture,
    before: Option<&Column>,
    column: &Column,
) -> Result<(), AllocError> {
    for (index, (name, mark)) in picture.vcpus.iter().zip(column.cpus.iter()).enumerate() {
        if before.and_then(|before| before.cpus.get(index)) == Some(mark) {
            continue;
        }
        let CpuMark {
            pmr,
            running,
            irq,
            fiq,
        } = *mark;
        write!(
            out,
            "{:NUMBER$}  vcpu {}.{} mask {pmr:#04x} running {running:#04x}",
            "", name.guest, name.vcpu
        )?;
        if irq {
            out.push_str(" IRQ")?;
        }
        if fiq {
            out.push_str(" FIQ")?;
        }
        writeln!(out)?;
    }
    Ok(())
}

/// What a step does, with the value that it reads.
fn words_of(alloc: Global, step: &Step, value: Option<u64>) -> Result<String, AllocError> {
    match value {
        Some(value) => format!(in alloc; "{} -> {value:#x}", Form(step)),
        None => format!(in alloc; "{}", Form(step)),
    }
}

/// The lines of the steps, from the state before the first one on.
fn write_steps(
    out: &mut String,
    alloc: Global,
    picture: &Picture,
    steps: &[Step],
    skipped: usize,
    width: usize,
) -> Result<(), AllocError> {
    let mut before: Option<&Column> = None;
    for (place, column) in picture.columns.iter().enumerate() {
        let step = place.checked_sub(1).and_then(|place| steps.get(place));
        let value = place
            .checked_sub(1)
            .and_then(|place| picture.values.get(place).copied())
            .flatten();
        let number = skipped.saturating_add(place);
        match step {
            None => write_line(out, alloc, "", "before", width, column)?,
            Some(step) => write_line(
                out,
                alloc,
                format!(in alloc; "{number}")?.as_str(),
                words_of(alloc, step, value)?.as_str(),
                width,
                column,
            )?,
        }
        write_cpus(out, picture, before, column)?;
        before = Some(column);
    }
    Ok(())
}

/// The lines of a picture of steps after the first `skipped` ones, of which the scenario has `all`.
fn written(
    alloc: Global,
    picture: &Picture,
    steps: &[Step],
    skipped: usize,
    all: usize,
) -> Result<String, AllocError> {
    let mut out = String::new(alloc);
    let first = skipped.saturating_add(1);
    let last = skipped.saturating_add(steps.len());
    writeln!(&mut out, "steps {first} to {last} of {all}")?;
    let width = COLUMNS
        .saturating_sub(NUMBER + 1)
        .saturating_sub(picture.rows.len());
    write_names(&mut out, alloc, picture, width.saturating_add(NUMBER + 1))?;
    write_steps(&mut out, alloc, picture, steps, skipped, width)?;
    out.push_str(LEGEND)?;
    let count = picture.left_out;
    if count > 0 {
        writeln!(
            &mut out,
            "{count} more interrupts are left out: fewer steps touch them"
        )?;
    }
    Ok(out)
}

/// Some steps of a scenario that has no fault as lines of at most 100 columns: of `shown` steps after the first `skipped` ones, or `NoMemory` where memory
/// is refused. Each step has a line, with a letter for each interrupt that the picture has, and a line for each vCPU whose CPU interface it changes.
/// The lines have no clause.
pub fn table(
    alloc: Global,
    scenario: &Scenario,
    skipped: usize,
    shown: usize,
) -> Result<Vec<u8>, NoMemory>
    requires good { IsGood Mode.Schedule scenario.now }
    requires within { skipped + shown ≤ length scenario.now.steps }
{
    let picture = picture_of(alloc, scenario, skipped, shown)?;
    let steps = &scenario.steps.as_slice()[skipped..][..shown];
    let lines = written(alloc, &picture, steps, skipped, scenario.steps.len())?;
    Ok(lines.into_bytes())
}
