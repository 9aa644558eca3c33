//! Runs of a worked scenario: by the tool, and by the ideal controller.

use gic_top::{
    Bytes, Mode, NOTHING_SHOWN, OK, OpenGate, SureSink, SureSource, eager, read, run_tool, text,
};
use serde_json::Value;
use std::alloc::{AllocError, Global};
use std::process::Abort;
use std::sync::Wait;
use std::test::Fail;
use std::thread::Threads;
use worked_rows::Row;

/// Adds steps to a list of them that is open.
fn push_steps(input: &mut String, steps: &[&str]) -> Result<(), AllocError> {
    for step in steps {
        if !input.as_str().ends_with('[') {
            input.push(',')?;
        }
        input.push_str(step)?;
    }
    Ok(())
}

/// The scenario as JSON.
pub(crate) fn input_of(
    alloc: Global,
    before: &str,
    steps: &[&[&str]],
) -> Result<String, AllocError> {
    let mut input = format!(in alloc; "{{{before},\"steps\":[")?;
    for part in steps {
        push_steps(&mut input, part)?;
    }
    input.push_str("]}")?;
    Ok(input)
}

/// The lines, each with its newline.
pub(crate) fn text_of(alloc: Global, lines: &[&str]) -> Result<String, AllocError> {
    let mut text = String::new(alloc);
    for line in lines {
        text.push_str(line)?;
        text.push('\n')?;
    }
    Ok(text)
}

/// The text of a scenario's run by the ideal controller.
fn ideal_text(alloc: Global, input: &str) -> Result<Bytes, Fail> {
    let value = Value::from_str(alloc, input)?;
    match read(alloc, &value, Mode::Schedule) {
        Ok(scenario) => Ok(text(alloc, &scenario, &eager(alloc, &scenario)?)?),
        Err(_) => Err(Fail::from("not read")),
    }
}

/// Hands words and an input to the tool: the status that it answers, and all that it writes.
pub(crate) fn answer_to(
    rt: &(impl Abort + Threads + Wait + Sync),
    alloc: Global,
    words: &[&str],
    input: String,
) -> Result<(u8, String), Fail> {
    let mut owned = Vec::new(alloc);
    for word in words {
        owned.push(String::from_str(alloc, word)?)?;
    }
    let mut source = SureSource::of(input.into_bytes());
    let mut sink = SureSink::new(alloc);
    let mut shown = NOTHING_SHOWN;
    let status = run_tool(
        rt,
        alloc,
        owned.as_slice(),
        &mut source,
        &mut sink,
        &OpenGate,
        &mut shown,
    );
    let taken = str::from_utf8(sink.taken().ok_or("not told")?)?;
    Ok((status, String::from_str(alloc, taken)?))
}

/// Runs each row, and compares the status and all that is written, and the text of a run by the ideal controller.
pub(crate) fn check(
    rt: &(impl Abort + Threads + Wait + Sync),
    alloc: Global,
    status: u8,
    rows: &[Row],
) -> Result<(), Fail> {
    for row in rows {
        let input = input_of(alloc, row.before, row.steps)?;
        let text = text_of(alloc, row.lines)?;
        if status == OK {
            let ideal = ideal_text(alloc, input.as_str())?;
            assert_eq!(rt;
                str::from_utf8(ideal.as_slice())?,
                text.as_str(),
                "{}",
                row.shows
            );
        }
        let (answered, taken) = answer_to(rt, alloc, &["run"], input)?;
        assert_eq!(rt; taken.as_str(), text.as_str(), "{}", row.shows);
        assert_eq!(rt; answered, status, "{}", row.shows);
    }
    Ok(())
}
