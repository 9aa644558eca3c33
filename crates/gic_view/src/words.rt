//! What the words of a command line ask for.
ghost use Rattle.std.specs.Prelude.{◌+◌, ◌≤◌, IfOk};

/// The most steps of one picture.
pub(crate) const MOST_STEPS: usize = 2000;

/// How a run is shown.
#[derive(Clone, Copy, Debug, PartialEq, Eq)]
pub(crate) enum Look {
    /// As one SVG.
    Timeline,
    /// As lines of text.
    Table,
}

/// What is asked for.
#[derive(Clone, Copy, Debug, PartialEq, Eq)]
pub(crate) struct Ask {
    pub look: Look,
    /// The number of the first step that is shown; the first one of the scenario where none is given.
    from: Option<usize>,
    /// The number of the last one; that of the scenario where none is given.
    to: Option<usize>,
}

/// Some steps of a scenario.
#[derive(Clone, Copy, Debug, PartialEq, Eq)]
pub(crate) struct Part {
    /// How many steps come before.
    pub skipped: usize,
    pub shown: usize,
}

/// Why steps are not shown.
#[derive(Clone, Copy, Debug, PartialEq, Eq)]
pub(crate) enum Amiss {
    TooMany,
    NotThere,
}

/// The look of a name.
fn look_named(name: &str) -> Option<Look> {
    match name {
        "timeline" => Some(Look::Timeline),
        "table" => Some(Look::Table),
        _ => None,
    }
}

impl Ask {
    /// This one with an option and its number; none for a name that is no option's, and for an option that was given before.
    fn with(self, name: &str, number: usize) -> Option<Ask> {
        match name {
            "--from" if self.from.is_none() => Some(Ask {
                from: Some(number),
                ..self
            }),
            "--to" if self.to.is_none() => Some(Ask {
                to: Some(number),
                ..self
            }),
            _ => None,
        }
    }

    /// What these words ask for.
    pub(crate) fn of(words: &[String]) -> Option<Ask> {
        let (name, options) = words.split_first()?;
        let mut ask = Ask {
            look: look_named(name.as_str())?,
            from: None,
            to: None,
        };
        for option in options.chunks(2) {
            let [name, number] = option else {
                return None;
            };
            ask = ask.with(name.as_str(), number.parse::<usize>().ok()?)?;
        }
        Some(ask)
    }

    /// Which of so many steps are asked for.
    pub(crate) fn part_of(&self, steps: usize) -> Result<Part, Amiss>
        ensures within { IfOk result (λ part. part.skipped + part.shown ≤ steps) }
        ensures few { IfOk result (λ part. part.shown ≤ MOST_STEPS) }
    {
        let from = self.from.unwrap_or(1);
        let to = self.to.unwrap_or(steps);
        if from == 0 || from - 1 > to || to > steps {
            return Err(Amiss::NotThere);
        }
        let skipped = from - 1;
        let shown = to - skipped;
        if shown > MOST_STEPS {
            return Err(Amiss::TooMany);
        }
        Ok(Part { skipped, shown })
    }
}
