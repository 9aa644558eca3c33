//! Commands of the ITS as doublewords, and the word of their queue.
use its_cmd::{BadCommand, Command, QueueWord, advance, decode, encode, pack, unpack};

/// The doublewords of a command and the command.
const COMMANDS: [([u64; 4], Command); 11] = [
    (
        [0x0000_0008_0000_0008, 4, 0x8000_0000_0000_2000, 0],
        Command::Mapd {
            device: 8,
            size: 4,
            itt_addr: 0x20,
            valid: true,
        },
    ),
    (
        [9, 0, 0x8000_0000_0001_0001, 0],
        Command::Mapc {
            icid: 1,
            rdbase: 1,
            valid: true,
        },
    ),
    (
        [0x0000_0008_0000_000a, 0x0000_2003_0000_0003, 1, 0],
        Command::Mapti {
            device: 8,
            event: 3,
            id: 8195,
            icid: 1,
        },
    ),
    ([5, 0, 0x10000, 0], Command::Sync { rdbase: 1 }),
    (
        [0x0000_0008_0000_000a, 0x0000_2003_0000_0020, 1, 0],
        Command::Mapti {
            device: 8,
            event: 32,
            id: 8195,
            icid: 1,
        },
    ),
    (
        [0x0000_0008_0000_000a, 0x0000_2003_0000_001f, 1, 0],
        Command::Mapti {
            device: 8,
            event: 31,
            id: 8195,
            icid: 1,
        },
    ),
    (
        [9, 0, 0x8000_0000_0000_0002, 0],
        Command::Mapc {
            icid: 2,
            rdbase: 0,
            valid: true,
        },
    ),
    (
        [0x0000_0008_0000_0001, 3, 2, 0],
        Command::Movi {
            device: 8,
            event: 3,
            icid: 2,
        },
    ),
    (
        [0x0000_0008_0000_0004, 3, 0, 0],
        Command::Clear {
            device: 8,
            event: 3,
        },
    ),
    (
        [0x0000_0008_0000_000f, 3, 0, 0],
        Command::Discard {
            device: 8,
            event: 3,
        },
    ),
    (
        [0x0000_0008_0000_000c, 3, 0, 0],
        Command::Inv {
            device: 8,
            event: 3,
        },
    ),
];

#[test]
fn commands_both_ways(rt: HostRuntime) {
    for (words, command) in COMMANDS {
        assert_eq!(rt; decode(words), Ok(command));
        assert_eq!(rt; encode(&command), words);
    }
}

#[test]
fn number_of_no_command(rt: HostRuntime) {
    let words = [0x7f, 0, 0x8000_0000_0001_0001, 0];
    assert_eq!(rt; decode(words), Err(BadCommand::UnknownNumber));
}

/// Turn, offset, whether stalled, and the word.
const WORDS: [(Option<u32>, u32, bool, u64); 6] = [
    (None, 0, false, 0),
    (None, 0x80, false, 0x80),
    (None, 0x20, true, 0x21),
    (Some(0), 0x40, true, 0x1_0000_0041),
    (Some(5), 0xf_ffe0, false, 0xb_000f_ffe0),
    (Some(63), 0, false, 0x7f_0000_0000),
];

/// Words that are not well formed.
const BAD_WORDS: [u64; 5] = [0x2, 0x90, 0x10_0000, 0x2_0000_0000, 0x80_0000_0000];

#[test]
fn words(rt: HostRuntime) {
    for (turn, offset, stalled, word) in WORDS {
        let queue = QueueWord {
            turn,
            offset,
            stalled,
        };
        assert_eq!(rt; pack(&queue), word);
        assert_eq!(rt; unpack(word), Some(queue));
    }
    for word in BAD_WORDS {
        assert_eq!(rt; unpack(word), None);
    }
}

#[test]
fn offsets(rt: HostRuntime) {
    assert_eq!(rt; advance(0x60, 4096), 0x80);
    assert_eq!(rt; advance(0xfe0, 4096), 0);
    assert_eq!(rt; advance(0xfe0, 8192), 0x1000);
}
