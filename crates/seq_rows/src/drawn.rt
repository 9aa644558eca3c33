//! Drawn scenarios, by both runs.

use crate::compare::both_texts;
use crate::dice::Dice;
use crate::draw::{opening, steps};
use crate::keep::keep;
use gic_top::Mode;
use std::test::Fail;

/// Seeds: the first of a row and how many, with how many tries of a step each has.
const SEEDS: [(u64, u64, u32); 2] = [(1, 100, 40), (1000, 20, 200)];

#[test]
fn drawn_scenarios(rt: HostRuntime) -> Result<(), Fail> {
    for (first, count, tries) in SEEDS {
        for seed in first..first + count {
            let mut dice = Dice::of(seed);
            let opening = opening(rt.alloc(), &mut dice)?;
            assert!(rt; opening.is_good(rt.alloc(), Mode::Schedule)?, "{seed}");
            let drawn = steps(rt.alloc(), &mut dice, &opening, tries)?;
            let scenario = keep(rt.alloc(), opening, drawn.as_slice())?;
            assert!(rt; scenario.is_good(rt.alloc(), Mode::Schedule)?, "{seed}");
            let texts = both_texts(&rt, rt.alloc(), &scenario)?;
            assert_eq!(rt;
                str::from_utf8(texts.scheduled.as_slice())?,
                str::from_utf8(texts.ideal.as_slice())?,
                "{seed}"
            );
        }
    }
    Ok(())
}
