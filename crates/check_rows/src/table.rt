//! Traces and their verdicts.
use gic_check::{Verdict, check, read_trace};
use serde_json::Value;
use std::alloc::Global;
use std::convert::AsStr;
use std::process::Abort;
use std::test::Fail;

/// A guest, and events of it, each of which is a JSON text.
#[derive(Clone, Copy)]
pub(crate) struct Recorded {
    pub(crate) guest: &'static str,
    pub(crate) events: &'static [&'static str],
}

/// The text of a trace of a guest with these events.
fn text_of<S: AsStr>(alloc: Global, guest: &str, events: &[S]) -> Result<String, Fail> {
    let mut text = format!(in alloc; "{{\"guest\":{guest},\"events\":[")?;
    for (index, event) in events.iter().enumerate() {
        if index > 0 {
            text.push(',')?;
        }
        text.push_str(event.as_str())?;
    }
    text.push_str("]}")?;
    Ok(text)
}

/// The verdict on a trace of a guest with the first of these events, as many as are wanted, or all.
pub(crate) fn verdict_of<S: AsStr>(
    alloc: Global,
    guest: &str,
    events: &[S],
    count: usize,
) -> Result<Verdict, Fail> {
    let events = events.get(..count).unwrap_or(events);
    let text = text_of(alloc, guest, events)?;
    let value = Value::from_str(alloc, text.as_str())?;
    match read_trace(alloc, &value) {
        Ok(trace) => Ok(check(alloc, &trace)?),
        Err(_) => Err(Fail::from("not read")),
    }
}

/// That a trace can be, cut off after any of its events.
pub(crate) fn expect_yes(rt: &impl Abort, alloc: Global, recorded: &Recorded) -> Result<(), Fail> {
    for count in 0..recorded.events.len() + 1 {
        let verdict = verdict_of(alloc, recorded.guest, recorded.events, count)?;
        assert_eq!(rt; verdict, Verdict::Yes, "{count}");
    }
    Ok(())
}

/// That the last event of a trace cannot be, and those before it can.
pub(crate) fn expect_no(rt: &impl Abort, alloc: Global, recorded: &Recorded) -> Result<(), Fail> {
    let all = recorded.events.len();
    for count in 0..all {
        let verdict = verdict_of(alloc, recorded.guest, recorded.events, count)?;
        assert_eq!(rt; verdict, Verdict::Yes, "{count}");
    }
    let Ok(index) = u32::try_from(all) else {
        return Err(Fail::from("too many events"));
    };
    let verdict = verdict_of(alloc, recorded.guest, recorded.events, all)?;
    assert_eq!(rt; verdict, Verdict::No { index });
    Ok(())
}
