//! A run as one SVG: time goes to the right, a column for each state, and a band for each guest.
ghost use Rattle.std.specs.Prelude.{◌+◌, ◌≤◌, IfOk, length};
ghost use Rattle.gic_picture.specs.ScnBase.declared.step.Mode.{Mode};
ghost use Rattle.gic_picture.specs.ScnBase.Good.{IsGood};
ghost use Rattle.svg_text.specs.Content.{IsContent};

use crate::draw::{Area, Drawing, Stroke};
use crate::form::{Form, Name, Place};
use gic_picture::{Bar, CpuMark, NoMemory, Picture, Scenario, Step, VcpuName, picture_of};
use std::alloc::{AllocError, Global};
use svg_text::Node;

/// The space around the picture, and between its parts.
const MARGIN: u64 = 8;
/// The width of the names at the left.
const NAMES: u64 = 72;
/// The least width of a picture, so that its legend fits.
const LEAST_WIDTH: u64 = 460;
/// The width of a letter, and a bit more.
const LETTER: u64 = 7;
/// The height of a line of text.
const TEXT: u64 = 18;
/// How far above the lower end of such a line the letters stand.
const BELOW_TEXT: u64 = 5;
/// The height of the row of an interrupt, and the parts of it, from its upper end.
const ROW: u64 = 24;

const LINE_AT: u64 = 3;

const BAR_AT: u64 = 6;

const BAR: u64 = 15;
/// How far above the lower end of a bar the letters in it stand.
const LETTERS_ABOVE: u64 = 4;
/// How far a bar of an active interrupt stands within the outline of a pending one.
const INSET: u64 = 3;
/// The height of the rows of a priority, of four letters that are read upwards.
const PRIORITY: u64 = 36;
/// The height of the row of a signal, and of its bar.
const SIGNAL: u64 = 14;

const SIGNAL_BAR: u64 = 8;
/// Where the samples of the legend stand, and how wide they are.
const SAMPLE_AT: u64 = 13;

const SAMPLE: u64 = 24;

const SAMPLE_HEIGHT: u64 = 12;
/// How far to the right of a step its letters stand that are read upwards.
const UPRIGHT_AT: u64 = 11;

/// The least width of a column, in which one line of letters fits.
const LEAST_COLUMN: u64 = 14;

/// The classes of a vCPU's bars, and those of letters on them.
const COLOURS: [&str; 8] = ["v0", "v1", "v2", "v3", "v4", "v5", "v6", "v7"];

const LETTERS: [&str; 8] = ["on0", "on1", "on2", "on3", "on4", "on5", "on6", "on7"];

/// The width of the column of a state: wide where there are few.
fn column_width(steps: usize) -> u64 {
    match steps {
        0..=12 => 40,
        13..=60 => 24,
        _ => LEAST_COLUMN,
    }
}

/// How many vCPUs have colours of their own.
const COLOUR_COUNT: u32 = 8;

/// The class of a vCPU among these.
fn class_of(classes: &[&'static str; 8], vcpu: u32) -> &'static str {
    classes[(vcpu % COLOUR_COUNT) as usize]
}

/// How long words are in which there are so many letters.
fn length_of(words: &str) -> u64 {
    (words.len() as u64).saturating_mul(LETTER)
}

/// A picture that is being drawn.
#[derive(Drop)]
struct Sheet<'a> {
    alloc: Global,
    picture: &'a Picture,
    steps: &'a [Step],
    /// The width of a column.
    width: u64,
    /// Bands, and what stands behind all.
    back: Drawing,
    /// Bars and words.
    front: Drawing,
    /// How far the picture is drawn, from above.
    y: u64,
}

impl Sheet<'_> {
    /// Where the column of a state begins, counted from the state before the first step.
    fn x(&self, column: usize) -> u64 {
        (column as u64)
            .saturating_mul(self.width)
            .saturating_add(MARGIN + NAMES)
    }

    /// Where the last column ends.
    fn right(&self) -> u64 {
        self.x(self.picture.columns.len())
    }

    /// How wide the picture is.
    fn whole_width(&self) -> u64 {
        self.right().saturating_add(MARGIN).max(LEAST_WIDTH)
    }

    /// Goes down.
    fn advance(&mut self, height: u64) {
        self.y = self.y.saturating_add(height);
    }

    /// A rectangle over some columns.
    fn over(&self, first: usize, count: usize, top: u64, height: u64) -> Area {
        let x = self.x(first);
        Area {
            x,
            y: self.y.saturating_add(top),
            width: self.x(first.saturating_add(count)).saturating_sub(x),
            height,
        }
    }

    /// Writes words at the left of a row of this height.
    fn name(&mut self, class: &'static str, height: u64, words: String) -> Result<(), AllocError> {
        let y = self.y.saturating_add(height).saturating_sub(BELOW_TEXT);
        self.front.text(class, MARGIN + BELOW_TEXT, y, words)
    }

    /// Writes words that are read upwards from the lower end of a row of this height, in a column.
    fn upright(&mut self, column: usize, height: u64, words: String) -> Result<(), AllocError> {
        let x = self.x(column).saturating_add(UPRIGHT_AT);
        let y = self.y.saturating_add(height).saturating_sub(BELOW_TEXT);
        self.front.upright("step", x, y, words)
    }

    /// The number and the form of each step, read upwards.
    fn heads(&mut self, skipped: usize) -> Result<(), AllocError> {
        let mut heads: Vec<String> = Vec::new(self.alloc);
        heads.push(String::from_str(self.alloc, "before")?)?;
        for (place, step) in self.steps.iter().enumerate() {
            let number = skipped.saturating_add(place).saturating_add(1);
            heads.push(format!(in self.alloc; "{number} {}", Form(step))?)?;
        }
        let mut height = 0;
        for head in &heads {
            height = length_of(head.as_str()).max(height);
        }
        let height = height.saturating_add(TEXT);
        for (column, head) in heads.into_iter().enumerate() {
            self.upright(column, height, head)?;
        }
        self.advance(height);
        Ok(())
    }
}

/// What is told of a bar where a reader points at it.
fn told(alloc: Global, name: Name, bar: &Bar, first: usize) -> Result<String, AllocError> {
    let mut words = format!(in alloc; "{name}:")?;
    if bar.mark.pending {
        words.push_str(" pending")?;
    }
    if let Some(vcpu) = bar.mark.active_by {
        words.push_str(format!(in alloc; " active by vCPU {vcpu}")?.as_str())?;
    }
    if bar.mark.line {
        words.push_str(" line up")?;
    }
    let last = first.saturating_add(bar.states).saturating_sub(1);
    words.push_str(format!(in alloc; ", columns {first} to {last}")?.as_str())?;
    Ok(words)
}

impl Sheet<'_> {
    /// A bar of an active interrupt, and the number of the vCPU by which it is, in the first column.
    fn active(
        &mut self,
        vcpu: u32,
        first: usize,
        area: Area,
        words: String,
    ) -> Result<(), AllocError> {
        let letters = format!(in self.alloc; "{vcpu}")?;
        let space = LEAST_COLUMN.saturating_sub(length_of(letters.as_str()));
        let x = self.x(first).saturating_add(space.saturating_add(2) / 2);
        let y = self.y.saturating_add(BAR_AT + BAR - LETTERS_ABOVE);
        self.front
            .rect(class_of(&COLOURS, vcpu), area, Some(words))?;
        self.front.text(class_of(&LETTERS, vcpu), x, y, letters)
    }

    /// What is shown of an interrupt in some columns.
    fn bar(&mut self, name: Name, bar: &Bar, first: usize) -> Result<(), AllocError> {
        let area = self.over(first, bar.states, BAR_AT, BAR);
        if bar.mark.line {
            let y = self.y.saturating_add(LINE_AT);
            self.front.line(
                "line",
                Stroke {
                    x1: area.x,
                    y1: y,
                    x2: area.x.saturating_add(area.width),
                    y2: y,
                },
            )?;
        }
        let outline = Area {
            x: area.x.saturating_add(1),
            width: area.width.saturating_sub(2),
            ..area
        };
        if let Some(vcpu) = bar.mark.active_by {
            let words = told(self.alloc, name, bar, first)?;
            let inner = Area {
                x: area.x.saturating_add(INSET),
                y: area.y.saturating_add(INSET),
                width: area.width.saturating_sub(INSET * 2),
                height: BAR - INSET * 2,
            };
            let area = if bar.mark.pending { inner } else { outline };
            self.active(vcpu, first, area, words)?;
        }
        if bar.mark.pending {
            let words = told(self.alloc, name, bar, first)?;
            self.front.rect("pending", outline, Some(words))?;
        }
        Ok(())
    }

    /// The row of an interrupt.
    fn irq(&mut self, row: usize, name: Name) -> Result<(), AllocError> {
        let words = format!(in self.alloc; "{name}")?;
        self.name("name", ROW, words)?;
        let mut first = 0usize;
        for bar in &self.picture.bars(self.alloc, row)? {
            self.bar(name, bar, first)?;
            first = first.saturating_add(bar.states);
        }
        self.advance(ROW);
        Ok(())
    }

    /// What a vCPU reads, each in the column after the step.
    fn reads(&self, name: VcpuName) -> Result<Vec<(usize, String)>, AllocError> {
        let mut reads = Vec::new(self.alloc);
        for (place, (step, value)) in self
            .steps
            .iter()
            .zip(self.picture.values.iter())
            .enumerate()
        {
            if let (Step::Vcpu { guest, vcpu, op }, Some(value)) = (step, *value) {
                if *guest == name.guest && *vcpu == name.vcpu {
                    let words = format!(in self.alloc; "{} {value:#x}", Place(op))?;
                    reads.push((place.saturating_add(1), words))?;
                }
            }
        }
        Ok(reads)
    }

    /// The row of what a vCPU reads, if it reads.
    fn reads_row(&mut self, name: VcpuName) -> Result<(), AllocError> {
        let reads = self.reads(name)?;
        let mut height = 0;
        for (_, words) in &reads {
            height = length_of(words.as_str()).max(height);
        }
        if height == 0 {
            return Ok(());
        }
        let height = height.saturating_add(TEXT);
        let words = format!(in self.alloc; "v{} reads", name.vcpu)?;
        self.name("name", height, words)?;
        for (column, words) in reads {
            self.upright(column, height, words)?;
        }
        self.advance(height);
        Ok(())
    }

    /// The row of a priority of a vCPU: its value, and where it becomes another.
    fn priority(&mut self, words: String, values: &[u64]) -> Result<(), AllocError> {
        self.name("name", PRIORITY, words)?;
        let mut last = None;
        for (column, &value) in values.iter().enumerate() {
            if last != Some(value) {
                let x = self.x(column);
                let y2 = self.y.saturating_add(PRIORITY);
                self.front.line(
                    "change",
                    Stroke {
                        x1: x,
                        y1: self.y,
                        x2: x,
                        y2,
                    },
                )?;
                let words = format!(in self.alloc; "{value:#04x}")?;
                self.upright(column, PRIORITY, words)?;
            }
            last = Some(value);
        }
        self.advance(PRIORITY);
        Ok(())
    }

    /// The row of a signal of a vCPU, if it is ever up.
    fn signal(
        &mut self,
        words: String,
        class: &'static str,
        ups: &[bool],
    ) -> Result<(), AllocError> {
        if !ups.contains(&true) {
            return Ok(());
        }
        self.name("name", SIGNAL + 2, words)?;
        let mut first = 0usize;
        for group in ups.chunk_by(|a, b| a == b) {
            if group.first() == Some(&true) {
                let area = self.over(first, group.len(), 4, SIGNAL_BAR);
                self.front.rect(class, area, None)?;
            }
            first = first.saturating_add(group.len());
        }
        self.advance(SIGNAL);
        Ok(())
    }

    /// What is shown of a vCPU in each column.
    fn marks(&self, index: usize) -> Result<Vec<CpuMark>, AllocError> {
        let mut marks = Vec::new(self.alloc);
        for column in self.picture.columns.iter() {
            if let Some(mark) = column.cpus.get(index) {
                marks.push(*mark)?;
            }
        }
        Ok(marks)
    }

    /// The rows of a vCPU.
    fn vcpu(&mut self, index: usize, name: VcpuName) -> Result<(), AllocError> {
        let alloc = self.alloc;
        let number = name.vcpu;
        let marks = self.marks(index)?;
        let masks: Vec<u64> = marks.iter().map(|mark| u64::from(mark.pmr)).collect(alloc)?;
        let running: Vec<u64> = marks.iter().map(|mark| mark.running).collect(alloc)?;
        let irqs: Vec<bool> = marks.iter().map(|mark| mark.irq).collect(alloc)?;
        let fiqs: Vec<bool> = marks.iter().map(|mark| mark.fiq).collect(alloc)?;
        self.reads_row(name)?;
        self.priority(format!(in alloc; "v{number} PMR")?, masks.as_slice())?;
        self.priority(format!(in alloc; "v{number} RPR")?, running.as_slice())?;
        self.signal(format!(in alloc; "v{number} IRQ")?, "irq", irqs.as_slice())?;
        self.signal(format!(in alloc; "v{number} FIQ")?, "fiq", fiqs.as_slice())
    }

    /// The band of a guest: its interrupts, and then its vCPUs.
    fn band(&mut self, guest: u32) -> Result<(), AllocError> {
        let top = self.y;
        let words = format!(in self.alloc; "guest {guest}")?;
        self.name("guest", TEXT, words)?;
        self.advance(TEXT);
        for (row, name) in self.picture.rows.iter().enumerate() {
            if name.guest == guest {
                self.irq(row, Name(name.key))?;
            }
        }
        for (index, name) in self.picture.vcpus.iter().enumerate() {
            if name.guest == guest {
                self.vcpu(index, *name)?;
            }
        }
        self.advance(BELOW_TEXT);
        let area = Area {
            x: MARGIN,
            y: top,
            width: self.right().saturating_sub(MARGIN),
            height: self.y.saturating_sub(top),
        };
        self.back.rect("band", area, None)?;
        self.advance(MARGIN);
        Ok(())
    }

    /// A line at each step.
    fn ticks(&mut self, top: u64, bottom: u64) -> Result<(), AllocError> {
        for (place, _) in self.steps.iter().enumerate() {
            let x = self.x(place.saturating_add(1));
            self.back.line(
                "tick",
                Stroke {
                    x1: x,
                    y1: top,
                    x2: x,
                    y2: bottom,
                },
            )?;
        }
        Ok(())
    }

    /// The steps, the guests, and the legend.
    fn all(&mut self, skipped: usize) -> Result<(), AllocError> {
        let top = self.y;
        self.heads(skipped)?;
        let last = self.picture.vcpus.iter().last();
        for guest in 0..last.map_or(0, |name| name.guest.saturating_add(1)) {
            self.band(guest)?;
        }
        let bottom = self.y.saturating_sub(MARGIN);
        self.ticks(top, bottom)?;
        self.legend()
    }

    /// A line of the legend: a rectangle and what it means.
    fn meaning(&mut self, class: &'static str, height: u64, words: &str) -> Result<(), AllocError> {
        let y = self.y.saturating_add(3);
        let area = Area {
            x: SAMPLE_AT,
            y,
            width: SAMPLE,
            height,
        };
        self.front.rect(class, area, None)?;
        self.means(words)
    }

    /// The words of a line of the legend.
    fn means(&mut self, words: &str) -> Result<(), AllocError> {
        let y = self.y.saturating_add(TEXT).saturating_sub(BELOW_TEXT);
        let words = String::from_str(self.alloc, words)?;
        self.front
            .text("name", SAMPLE_AT + SAMPLE + MARGIN, y, words)?;
        self.advance(TEXT);
        Ok(())
    }

    /// What the colours of the vCPUs are.
    fn colours(&mut self) -> Result<(), AllocError> {
        let mut most = 0;
        for name in self.picture.vcpus.iter() {
            most = name.vcpu.max(most);
        }
        for vcpu in 0..=most.min(COLOUR_COUNT - 1) {
            let words = format!(in self.alloc;
                "active by vCPU {vcpu} (the number stands in the bar)"
            )?;
            self.meaning(class_of(&COLOURS, vcpu), SAMPLE_HEIGHT, words.as_str())?;
        }
        if most >= COLOUR_COUNT {
            self.means("vCPUs from 8 on have these colours again")?;
        }
        Ok(())
    }

    /// What the shapes mean, and how many interrupts have no row.
    fn legend(&mut self) -> Result<(), AllocError> {
        self.meaning(
            "pending",
            SAMPLE_HEIGHT,
            "pending (around a filled bar: pending and active)",
        )?;
        self.colours()?;
        let y = self.y.saturating_add(TEXT / 2);
        let (x1, x2) = (SAMPLE_AT, SAMPLE_AT + SAMPLE);
        self.front.line(
            "line",
            Stroke {
                x1,
                y1: y,
                x2,
                y2: y,
            },
        )?;
        self.means("the wire of a level-sensitive interrupt is up")?;
        self.meaning(
            "irq",
            SIGNAL_BAR,
            "IRQ: an interrupt of group 1 is signalled",
        )?;
        self.meaning(
            "fiq",
            SIGNAL_BAR,
            "FIQ: an interrupt of group 0 is signalled",
        )?;
        let count = self.picture.left_out;
        if count > 0 {
            let words = format!(in self.alloc;
                "{count} more interrupts are left out: fewer steps touch them"
            )?;
            self.name("name", TEXT, words)?;
            self.advance(TEXT);
        }
        Ok(())
    }
}

/// The SVG of a picture of steps after the first `skipped` ones, of which the scenario has `all`.
fn drawn(
    alloc: Global,
    picture: &Picture,
    steps: &[Step],
    skipped: usize,
    all: usize,
) -> Result<Node, AllocError> {
    let mut sheet = Sheet {
        alloc,
        picture,
        steps,
        width: column_width(steps.len()),
        back: Drawing::new(alloc),
        front: Drawing::new(alloc),
        y: MARGIN,
    };
    let first = skipped.saturating_add(1);
    let last = skipped.saturating_add(steps.len());
    let title = format!(in alloc; "Interrupts: steps {first} to {last} of {all}")?;
    sheet.name("title", TEXT, title.clone()?)?;
    sheet.advance(TEXT);
    sheet.all(skipped)?;
    let width = sheet.whole_width();
    let height = sheet.y.saturating_add(MARGIN);
    let mut drawing = Drawing::new(alloc);
    drawing.rect(
        "paper",
        Area {
            x: 0,
            y: 0,
            width,
            height,
        },
        None,
    )?;
    drawing.cover(sheet.back)?;
    drawing.cover(sheet.front)?;
    drawing.picture(width, height, title.as_str())
}

/// The SVG of some steps of a scenario that has no fault: of `shown` steps after the first `skipped` ones, or `NoMemory` where memory is refused. Time goes to
/// the right, a column for each state; each guest has a band, with a row for each interrupt that the picture has and rows for each vCPU. What the bars
/// show is what `Picture::bars` says; the rest of the layout has no clause.
pub fn timeline(
    alloc: Global,
    scenario: &Scenario,
    skipped: usize,
    shown: usize,
) -> Result<Vec<u8>, NoMemory>
    requires good { IsGood Mode.Schedule scenario.now }
    requires within { skipped + shown ≤ length scenario.now.steps }
    ensures { IfOk result (λ text. IsContent text.items) }
{
    let picture = picture_of(alloc, scenario, skipped, shown)?;
    let steps = &scenario.steps.as_slice()[skipped..][..shown];
    let node = drawn(alloc, &picture, steps, skipped, scenario.steps.len())?;
    Ok(svg_text::text(alloc, &node)?)
}
