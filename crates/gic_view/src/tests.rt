//! Which steps words ask for, and how a run ends that is refused.

use crate::words::{Amiss, Ask, Part};
use crate::{BAD_JSON, BAD_SCENARIO, BAD_WORDS, view};
use std::alloc::{AllocError, Global};
use std::test::Fail;

/// What the words of a line ask for; none where they are no command.
fn asked(alloc: Global, line: &str) -> Result<Option<Ask>, AllocError> {
    let mut words = Vec::new(alloc);
    for word in line.split_whitespace() {
        words.push(String::from_str(alloc, word)?)?;
    }
    Ok(Ask::of(words.as_slice()))
}

#[test]
fn no_other_words_are_commands(rt: HostRuntime) -> Result<(), Fail> {
    for line in [
        "",
        "picture",
        "--from 1",
        "table --from",
        "table --from one",
        "table --form 1",
        "table --to 1 --to 2",
    ] {
        assert_eq!(rt; asked(rt.alloc(), line)?, None, "at {line}");
    }
    Ok(())
}

#[test]
fn at_most_2000_steps_are_shown(rt: HostRuntime) -> Result<(), Fail> {
    for (line, steps, skipped, shown) in [
        ("timeline", 2000, 0, 2000),
        ("table --from 3 --to 5", 7, 2, 3),
        ("table --to 5 --from 3", 7, 2, 3),
        ("table --from 2", 2001, 1, 2000),
        ("table --to 2000", 2001, 0, 2000),
    ] {
        let part = asked(rt.alloc(), line)?.map(|ask| ask.part_of(steps));
        assert_eq!(rt; part, Some(Ok(Part { skipped, shown })), "at {line}");
    }
    for (line, steps, amiss) in [
        ("timeline", 2001, Amiss::TooMany),
        ("table --from 0", 7, Amiss::NotThere),
        ("table --to 8", 7, Amiss::NotThere),
        ("table --from 6 --to 4", 7, Amiss::NotThere),
    ] {
        let part = asked(rt.alloc(), line)?.map(|ask| ask.part_of(steps));
        assert_eq!(rt; part, Some(Err(amiss)), "at {line}");
    }
    Ok(())
}

#[test]
fn refusals_have_their_status(rt: HostRuntime) -> Result<(), Fail> {
    for (line, input, status) in [
        (
            "timeline --from 3",
            "{\"guests\": [{}], \"steps\": [{\"vcpu\": [0, 0], \"icc\": \"IAR1\"}]}",
            BAD_WORDS,
        ),
        ("timeline", "{\"guests\": [{}], \"steps\": [", BAD_JSON),
        (
            "timeline",
            "{\"guests\": [{}], \"steps\": [{\"vcpu\": [0, 0], \"icc\": \"iar1\"}]}",
            BAD_SCENARIO,
        ),
        (
            "timeline",
            "{\"guests\": [{}], \"steps\": [{\"vcpu\": [0, 1], \"icc\": \"IAR1\"}]}",
            BAD_SCENARIO,
        ),
    ] {
        let Some(ask) = asked(rt.alloc(), line)? else {
            assert!(rt; false, "no command: {line}");
            continue;
        };
        assert_eq!(rt;
            view(&rt, rt.alloc(), input.as_bytes(), ask),
            status,
            "at {input}"
        );
    }
    Ok(())
}
