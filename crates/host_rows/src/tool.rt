//! The tool by the word `host`.
use gic_top::{NOTHING_SHOWN, OpenGate, SureSink, SureSource, run_tool};
use std::alloc::Global;
use std::sync::Wait;
use std::test::Fail;
use std::thread::Threads;

/// What the tool makes of an input by the word `host`: its status, and all that it writes.
pub fn run<R: Threads + Wait + Sync>(
    rt: &R,
    alloc: Global,
    input: &str,
) -> Result<(u8, String), Fail> {
    let mut words = Vec::new(alloc);
    words.push(String::from_str(alloc, "host")?)?;
    let mut source = SureSource::of(input.as_bytes().to_vec(alloc)?);
    let mut sink = SureSink::new(alloc);
    let mut shown = NOTHING_SHOWN;
    let status = run_tool(
        rt,
        alloc,
        words.as_slice(),
        &mut source,
        &mut sink,
        &OpenGate,
        &mut shown,
    );
    let wrote = String::from_utf8_lossy(alloc, sink.taken().unwrap_or(b"no text"))?;
    Ok((status, wrote))
}
