//! Words that are no command, and words for which there is no memory.

use crate::call::{answer, words_of};
use gic_top::{
    MemSink, MemSource, NO_MEMORY, NOTHING_SHOWN, SureSink, USAGE, WRITE_FAULT, refuse_words,
};
use std::test::Fail;

/// Words that are no command.
const NO_COMMANDS: [&[&str]; 12] = [
    &["threads", "9", "1"],
    &["threads", "0", "1"],
    &["threads", "1", "0"],
    &["threads", "1", "1001"],
    &["threads", "1", "+1"],
    &["threads", "1"],
    &["threads", "1", "1", "1"],
    &["Threads", "1", "1"],
    &["run", "x"],
    &["threads", "02", "1"],
    &[],
    &["Run"],
];

#[test]
fn other_words_are_refused(rt: HostRuntime) -> Result<(), Fail> {
    let alloc = rt.alloc();
    for words in NO_COMMANDS {
        let words = words_of(alloc, words)?;
        // A first read would be a fault.
        let mut source = MemSource::of(Vec::new(alloc), vec![in alloc; 1]?, 1);
        let mut sink = SureSink::new(alloc);
        let (answered, shown) = answer(&rt, alloc, words.as_slice(), &mut source, &mut sink);
        assert_eq!(rt; answered, USAGE, "{words:?}");
        assert_eq!(rt; sink.taken(), Some(b"usage\n".as_slice()), "{words:?}");
        assert_eq!(rt; source.faults(), 0, "{words:?}");
        assert_eq!(rt; shown, NOTHING_SHOWN, "{words:?}");
    }
    Ok(())
}

#[test]
fn words_without_memory(rt: HostRuntime) -> Result<(), Fail> {
    let alloc = rt.alloc();
    // The calls of the sink that fail, the status, the text.
    for (fails, status, text) in [(0, NO_MEMORY, "no memory\n"), (2, WRITE_FAULT, "no m")] {
        let mut sink = MemSink::of(alloc, vec![in alloc; fails]?, 4);
        assert_eq!(rt; refuse_words(&mut sink), status);
        assert_eq!(rt; sink.taken(), Some(text.as_bytes()));
    }
    Ok(())
}
