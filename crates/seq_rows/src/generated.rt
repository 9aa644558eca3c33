//! Scenarios that are made from a number, by both runs.

ghost use Rattle.std.specs.Prelude.{◌≤◌};

use crate::compare::both_texts;
use gic_top::generate;
use std::alloc::Global;
use std::process::Abort;
use std::sync::Wait;
use std::test::Fail;

/// Compares both texts of the scenario of a number.
fn compare(rt: &(impl Abort + Wait), alloc: Global, number: u64, steps: u32) -> Result<(), Fail>
    requires { steps ≤ 100000 }
{
    let scenario = generate(alloc, number, steps)?;
    let texts = both_texts(rt, alloc, &scenario)?;
    assert_eq!(rt;
        str::from_utf8(texts.scheduled.as_slice())?,
        str::from_utf8(texts.ideal.as_slice())?,
        "{number}"
    );
    assert_eq!(rt; texts.shown, 1, "{number}");
    Ok(())
}

#[test]
fn generated_scenarios(rt: HostRuntime) -> Result<(), Fail> {
    for number in 0..20 {
        compare(&rt, rt.alloc(), number, 50)?;
    }
    compare(&rt, rt.alloc(), u64::MAX, 50)?;
    compare(&rt, rt.alloc(), 7, 1000)
}
