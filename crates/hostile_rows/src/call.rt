//! A call of the tool, whose PEs pass an open gate.

use gic_top::{NOTHING_SHOWN, OpenGate, Shown, Sink, Source, SureSink, SureSource, run_tool};
use std::alloc::{AllocError, Global};
use std::sync::Wait;
use std::test::Fail;
use std::thread::Threads;

/// What a call answered, wrote and showed.
#[derive(Drop)]
pub(crate) struct Told {
    pub(crate) status: u8,
    pub(crate) text: String,
    pub(crate) shown: Shown,
}

pub(crate) fn words_of(alloc: Global, words: &[&str]) -> Result<Vec<String>, AllocError> {
    let mut all = Vec::new(alloc);
    for word in words {
        all.push(String::from_str(alloc, word)?)?;
    }
    Ok(all)
}

/// Calls the tool: its status, and what was shown.
pub(crate) fn answer<R: Threads + Wait + Sync, S: Source, K: Sink>(
    rt: &R,
    alloc: Global,
    words: &[String],
    source: &mut S,
    sink: &mut K,
) -> (u8, Shown) {
    let mut shown = NOTHING_SHOWN;
    let status = run_tool(rt, alloc, words, source, sink, &OpenGate, &mut shown);
    (status, shown)
}

/// Calls the tool with an input that is read without a fault, and a sink that takes all.
pub(crate) fn run_once<R: Threads + Wait + Sync>(
    rt: &R,
    alloc: Global,
    words: &[String],
    input: &[u8],
) -> Result<Told, Fail> {
    let mut source = SureSource::of(Vec::from_slice(alloc, input)?);
    let mut sink = SureSink::new(alloc);
    let (status, shown) = answer(rt, alloc, words, &mut source, &mut sink);
    let taken = str::from_utf8(sink.taken().ok_or("not told")?)?;
    Ok(Told {
        status,
        text: String::from_str(alloc, taken)?,
        shown,
    })
}
