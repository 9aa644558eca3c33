//! The lines of a text.

/// How many lines of a text end so.
pub(crate) fn ending(text: &str, end: &str) -> usize {
    text.lines().filter(|line| line.ends_with(end)).count()
}

/// Whether a line of a text begins so, and has this in it.
pub(crate) fn has_line(text: &str, start: &str, part: &str) -> bool {
    text.lines()
        .any(|line| line.starts_with(start) && line.contains(part))
}

/// The lines of values that are read, of a text, begin as those of another one: with the numbers of the same steps.
pub(crate) fn same_steps(text: &str, other: &str, reads: usize) -> bool {
    text.lines()
        .zip(other.lines())
        .take(reads)
        .all(|(line, other)| step_of(line) == step_of(other))
}

/// What stands before the first space of a line of a value that is read; none of another line.
fn step_of(line: &str) -> Option<&str> {
    let (step, _) = line.split_once(" 0x")?;
    Some(step)
}

/// The digits of the value of a line where one is read; none of another line.
pub(crate) fn value_of(line: &str) -> Option<&str> {
    let (_, value) = line.split_once(" 0x")?;
    Some(value)
}

/// How many lines of a text are of a value that is read.
pub(crate) fn read_count(text: &str) -> usize {
    text.lines()
        .filter(|line| line.starts_with(|first: char| first.is_ascii_digit()))
        .count()
}
