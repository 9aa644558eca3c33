//! Streams that move a few bytes a call and fail at each call in turn.
ghost use Rattle.std.specs.Prelude.{◌≤◌, ◌<◌};

use crate::call::{answer, words_of};
use crate::inputs::{FIRST, FIRST_TEXT, ITSELF, ITSELF_TEXT};
use gic_top::{
    MemSink, MemSource, NOTHING_SHOWN, OK, READ_FAULT, Shown, SureSink, SureSource, WRITE_FAULT,
};
use std::alloc::Global;
use std::process::Abort;
use std::sync::Wait;
use std::test::Fail;
use std::thread::Threads;

/// One run through the tool.
#[derive(Clone, Copy)]
struct Run {
    words: &'static [&'static str],
    input: &'static [u8],
    text: &'static str,
    /// What is shown of it.
    shown: Shown,
}

const SCHEDULED: Shown = Shown {
    scheduled: 1,
    threaded: 0,
};

const THREADED: Shown = Shown {
    scheduled: 0,
    threaded: 1,
};

const RUN: Run = Run {
    words: &["run"],
    input: FIRST,
    text: FIRST_TEXT,
    shown: SCHEDULED,
};

const ON_THREADS: Run = Run {
    words: &["threads", "1", "1"],
    input: ITSELF,
    text: ITSELF_TEXT,
    shown: THREADED,
};

const SOAK: Run = Run {
    words: &["soak", "7", "0"],
    input: b"",
    text: "soak 7 0 reads=0 spurious=0 sum=0x0000000000000000\n",
    shown: SCHEDULED,
};

/// A run over a source whose call of this number fails, from 1, ends with this status and text; 0 fails none.
fn reads<R: Abort + Threads + Wait + Sync>(
    rt: &R,
    alloc: Global,
    run: &Run,
    cut: usize,
    fails: u64,
    status: u8,
) -> Result<(), Fail>
    requires { 1 ≤ cut }
{
    let words = words_of(alloc, run.words)?;
    let bytes = Vec::from_slice(alloc, run.input)?;
    let mut source = MemSource::of(bytes, vec![in alloc; fails]?, cut);
    let mut sink = SureSink::new(alloc);
    let (answered, shown) = answer(rt, alloc, words.as_slice(), &mut source, &mut sink);
    let (text, wanted) = if status == OK {
        (run.text, run.shown)
    } else {
        ("read fault\n", NOTHING_SHOWN)
    };
    assert_eq!(rt; answered, status, "call {fails} of {cut} bytes");
    assert_eq!(rt;
        sink.taken(),
        Some(text.as_bytes()),
        "call {fails} of {cut} bytes"
    );
    assert_eq!(rt; shown, wanted, "call {fails} of {cut} bytes");
    Ok(())
}

/// A run over a source that moves so many bytes a call: each of its calls fails in turn, and there is no further one. The last finds
/// the input's end.
fn each_read_fails<R: Abort + Threads + Wait + Sync>(
    rt: &R,
    alloc: Global,
    run: &Run,
    cut: usize,
    calls: u64,
) -> Result<(), Fail>
    requires cut { 1 ≤ cut }
    requires calls { calls < 1000 }
{
    for fails in 1..=calls {
        reads(rt, alloc, run, cut, fails, READ_FAULT)?;
    }
    reads(rt, alloc, run, cut, 0, OK)?;
    reads(rt, alloc, run, cut, calls + 1, OK)
}

#[test]
fn each_call_of_the_source_fails(rt: HostRuntime) -> Result<(), Fail> {
    // 212 bytes in pieces of 1 and of 7, and the call that finds no more.
    each_read_fails(&rt, rt.alloc(), &RUN, 1, 213)?;
    each_read_fails(&rt, rt.alloc(), &RUN, 7, 32)
}

#[test]
fn each_call_of_the_source_fails_on_threads(rt: HostRuntime) -> Result<(), Fail> {
    // 202 bytes.
    each_read_fails(&rt, rt.alloc(), &ON_THREADS, 1, 203)?;
    each_read_fails(&rt, rt.alloc(), &ON_THREADS, 7, 30)
}

/// A run over a sink whose call of this number fails, from 1, ends with this status, and the sink has taken this.
fn writes<R: Abort + Threads + Wait + Sync>(
    rt: &R,
    alloc: Global,
    run: &Run,
    cut: usize,
    fails: u64,
    taken: &[u8],
    status: u8,
) -> Result<(), Fail>
    requires { 1 ≤ cut }
{
    let words = words_of(alloc, run.words)?;
    let mut source = SureSource::of(Vec::from_slice(alloc, run.input)?);
    let mut sink = MemSink::of(alloc, vec![in alloc; fails]?, cut);
    let (answered, shown) = answer(rt, alloc, words.as_slice(), &mut source, &mut sink);
    assert_eq!(rt; answered, status, "call {fails} of {cut} bytes");
    assert_eq!(rt; sink.taken(), Some(taken), "call {fails} of {cut} bytes");
    assert_eq!(rt; shown, run.shown, "call {fails} of {cut} bytes");
    Ok(())
}

/// A run over a sink that takes so many bytes a call: each of its calls fails in turn, and what the calls before it took stays; there
/// is no further one. The run was shown.
fn each_write_fails<R: Abort + Threads + Wait + Sync>(
    rt: &R,
    alloc: Global,
    run: &Run,
    cut: usize,
    calls: u64,
) -> Result<(), Fail>
    requires cut { 1 ≤ cut }
    requires calls { calls < 1000 }
{
    let text = run.text.as_bytes();
    for fails in 1..=calls {
        let before = cut.saturating_mul(fails as usize).saturating_sub(cut);
        let taken = text.get(..before).unwrap_or(text);
        writes(rt, alloc, run, cut, fails, taken, WRITE_FAULT)?;
    }
    writes(rt, alloc, run, cut, 0, text, OK)?;
    writes(rt, alloc, run, cut, calls + 1, text, OK)
}

#[test]
fn each_call_of_the_sink_fails(rt: HostRuntime) -> Result<(), Fail> {
    let alloc = rt.alloc();
    // 50 bytes in pieces of 1 and of 7, twice, and 51 bytes.
    each_write_fails(&rt, alloc, &RUN, 1, 50)?;
    each_write_fails(&rt, alloc, &RUN, 7, 8)?;
    each_write_fails(&rt, alloc, &ON_THREADS, 1, 50)?;
    each_write_fails(&rt, alloc, &ON_THREADS, 7, 8)?;
    each_write_fails(&rt, alloc, &SOAK, 1, 51)?;
    each_write_fails(&rt, alloc, &SOAK, 7, 8)
}

#[test]
fn both_streams_fail(rt: HostRuntime) -> Result<(), Fail> {
    let alloc = rt.alloc();
    // An input, how much a call moves, the calls of the source and of the sink that fail, and what is taken: the message breaks off.
    let cases: [(&[u8], usize, u64, u64, &str); 2] = [
        (FIRST, 7, 3, 2, "read fa"),
        (br#"{"pes":1"#, 4, 0, 2, "bad "),
    ];
    let words = words_of(alloc, &["run"])?;
    for (input, cut, source_fails, sink_fails, text) in cases {
        let bytes = Vec::from_slice(alloc, input)?;
        let mut source = MemSource::of(bytes, vec![in alloc; source_fails]?, cut);
        let mut sink = MemSink::of(alloc, vec![in alloc; sink_fails]?, cut);
        let (answered, shown) = answer(&rt, alloc, words.as_slice(), &mut source, &mut sink);
        assert_eq!(rt; answered, WRITE_FAULT);
        assert_eq!(rt; sink.taken(), Some(text.as_bytes()));
        assert_eq!(rt; shown, NOTHING_SHOWN);
    }
    Ok(())
}

#[test]
fn soak_reads_nothing(rt: HostRuntime) -> Result<(), Fail> {
    let alloc = rt.alloc();
    let words = words_of(alloc, SOAK.words)?;
    // A first read would be a fault.
    let mut source = MemSource::of(Vec::new(alloc), vec![in alloc; 1]?, 1);
    let mut sink = SureSink::new(alloc);
    let (answered, shown) = answer(&rt, alloc, words.as_slice(), &mut source, &mut sink);
    assert_eq!(rt; answered, OK);
    assert_eq!(rt; sink.taken(), Some(SOAK.text.as_bytes()));
    assert_eq!(rt; source.faults(), 0);
    assert_eq!(rt; shown, SCHEDULED);
    Ok(())
}
