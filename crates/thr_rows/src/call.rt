//! A call of the tool.

use gic_top::{
    Gate, MemSource, NOTHING_SHOWN, Shown, Sink, Source, SureSink, SureSource, run_tool,
};
use std::alloc::{AllocError, Global};
use std::sync::Wait;
use std::test::Fail;
use std::thread::Threads;

/// What a call answered, and what it wrote and showed.
#[derive(Drop)]
pub(crate) struct Told {
    pub(crate) status: u8,
    pub(crate) text: String,
    pub(crate) shown: Shown,
}

fn words_of(alloc: Global, words: &[&str]) -> Result<Vec<String>, AllocError> {
    let mut all = Vec::new(alloc);
    for word in words {
        all.push(String::from_str(alloc, word)?)?;
    }
    Ok(all)
}

/// Calls the tool over a source.
fn call_over<R: Threads + Wait + Sync, S: Source, G: Gate + Sync>(
    rt: &R,
    alloc: Global,
    words: &[&str],
    source: &mut S,
    gate: &G,
) -> Result<Told, Fail> {
    let words = words_of(alloc, words)?;
    let mut sink = SureSink::new(alloc);
    let mut shown = NOTHING_SHOWN;
    let status = run_tool(
        rt,
        alloc,
        words.as_slice(),
        source,
        &mut sink,
        gate,
        &mut shown,
    );
    let taken = str::from_utf8(sink.taken().ok_or("not told")?)?;
    Ok(Told {
        status,
        text: String::from_str(alloc, taken)?,
        shown,
    })
}

/// Calls the tool, whose PEs pass this gate, with an input.
pub(crate) fn call<R: Threads + Wait + Sync, G: Gate + Sync>(
    rt: &R,
    alloc: Global,
    words: &[&str],
    input: &str,
    gate: &G,
) -> Result<Told, Fail> {
    let mut source = SureSource::of(Vec::from_slice(alloc, input.as_bytes())?);
    call_over(rt, alloc, words, &mut source, gate)
}

/// Calls the tool with a source whose first read would be a fault, and tells how many faults there were.
pub(crate) fn call_unread<R: Threads + Wait + Sync, G: Gate + Sync>(
    rt: &R,
    alloc: Global,
    words: &[&str],
    gate: &G,
) -> Result<(Told, u64), Fail> {
    let mut source = MemSource::of(Vec::new(alloc), vec![in alloc; 1]?, 1);
    let told = call_over(rt, alloc, words, &mut source, gate)?;
    Ok((told, source.faults()))
}
