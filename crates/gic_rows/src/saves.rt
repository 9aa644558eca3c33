//! Runs that are saved after some of their steps, and resumed: images in their own bytes, what stands in them, and what is refused.

use crate::row::{answer_to, input_of, text_of};
use gic_top::{BAD_JSON, BAD_SCENARIO, OK, USAGE};
use std::test::Fail;
use worked_rows::interface::{ACTIVE_40, BASE, CPU_A0, FIRST, LEVEL};
use worked_rows::its::{
    CONFIGURED, CPU_1, DONE, ENABLED, GUEST, ITS_80, LPI_8195, LPIS_OF_1, MAPC, MAPD, MAPTI, SYNC,
    UNKNOWN,
};
use worked_rows::steps::MSI;
use worked_rows::vcpus::TWO_PES;
use worked_rows::{enter, exit, icc, mem, message, wire};

/// A scenario that is saved, and what is written where the image is resumed.
struct Save {
    /// What the row shows.
    shows: &'static str,
    /// The fields of the scenario but for `steps`, as JSON.
    before: &'static str,
    /// The steps, in parts that rows share.
    steps: &'static [&'static [&'static str]],
    /// After how many of them it is saved.
    step: &'static str,
    /// What stands in the image, each where it is searched.
    has: &'static [&'static str],
    /// The lines that are written where it is resumed.
    lines: &'static [&'static str],
}

/// Words, an input, and what is answered.
struct Answer {
    /// What the row shows.
    shows: &'static str,
    words: &'static [&'static str],
    input: &'static str,
    status: u8,
    /// The lines that are written.
    lines: &'static [&'static str],
}

/// An acknowledge and the end of the interrupt, of which the first two steps are done, with the vCPU by which it is active.
macro_rules! active_by {
    ($vcpu:literal) => {
        concat!(
            r#"{"done":2,"guests":[{"col":[],"cpu":[[240,2,3,0,0,0,1,0,0,1048576]],"dev":[],"evt":[],"gicd":3,"#,
            r#""irqs":[[40,160,1,1,0,null]],"its":null,"on":true,"ram":[],"#,
            r#""rec":[["40",1,1,160,1,0,0,0,"#,
            $vcpu,
            r#",0,1,1,null]],"redist":[[0,0]],"shape":[1,32,0,1,0,0]}],"lrs":4,"on_pe":[[0,0]],"pes":1,"reads":1,"#,
            r#""steps":[{"icc":"EOIR1","vcpu":[0,0],"write":40},{"icc":"IAR1","vcpu":[0,0]}],"version":1}"#
        )
    };
}

/// A wire that was moved up, an acknowledge that is left, and then the wire's level.
macro_rules! raised {
    ($up:literal) => {
        concat!(
            r#"{"done":1,"guests":[{"col":[],"cpu":[[240,2,3,0,0,0,1,0,0,0]],"dev":[],"evt":[],"gicd":3,"#,
            r#""irqs":[[40,160,0,1,0,null],[41,160,1,1,0,null],[42,32,1,1,0,null]],"its":null,"on":true,"ram":[],"#,
            r#""rec":[["40",1,1,160,0,1,1,0,null,0,1,1,0]],"redist":[[0,0]],"shape":[1,32,0,1,0,0]}],"#,
            r#""lrs":4,"on_pe":[[0,0]],"pes":1,"reads":0,"#,
            r#""steps":[{"icc":"IAR1","vcpu":[0,0]},{"dev":[0,0],"up":"#,
            $up,
            r#","wire":40}],"version":1}"#
        )
    };
}

/// A queue with four commands that are left while it runs, as no run makes it: the commands of an LPI, before the write that
/// would have started them, with CWRITER past them. Then a step, and a read of CREADR.
macro_rules! left_over {
    ($step:literal) => {
        concat!(
            r#"{"done":16,"guests":[{"col":[],"cpu":[[240,2,3,0,0,0,1,0,0,0],[240,2,3,0,0,0,1,1,0,0]],"dev":[],"#,
            r#""evt":[],"gicd":3,"irqs":[],"#,
            r#""its":[1,9223372036854779904,128,0,0,0,74027918874902528,290200700988686336],"on":true,"#,
            r#""ram":[[512,34359738376],[513,4],[514,9223372036854784000],[516,9],[518,9223372036854841345],"#,
            r#"[520,34359738378],[521,35197256990723],[522,1],[524,5],[526,65536],[1536,2701131776]],"rec":[],"#,
            r#""redist":[[0,0],[12301,4611686018427453440]],"shape":[2,32,0,1,16,65536]}],"lrs":4,"#,
            r#""on_pe":[[0,0],[0,1]],"pes":2,"reads":0,"steps":["#,
            $step,
            r#",{"gits":144,"size":8,"vcpu":[0,0]}],"version":1}"#
        )
    };
}

/// The first worked scenario.
const ENDED: &[&[&str]] = &[&[
    message!(40),
    icc!(0, "IAR1"),
    icc!(0, "EOIR1", 40),
    icc!(0, "IAR1"),
]];

/// That scenario in whole.
const ENDED_INPUT: &str =
    r#"{"guests":[{"on":true,"irqs":[{"id":40}]}],"steps":[{"dev":[0,0],"message":40},{"vcpu":[0,0],"icc":"IAR1"},{"vcpu":[0,0],"icc":"EOIR1","write":40},{"vcpu":[0,0],"icc":"IAR1"}]}"#;

/// What a queue leaves that has run its four commands.
const QUEUE_RAN: &[&str] = &[
    "18 0x0000000000000080",
    CPU_1,
    LPI_8195,
    ITS_80,
    "dev 0 8 bits=5",
    "evt 0 8 3 8195 1",
    "col 0 1 1",
    "end 18 1",
];

#[rattlefmt::skip]
const SAVES: [Save; 8] = [
    Save {
        shows: "an active interrupt, in its own bytes", before: FIRST, steps: ENDED, step: "2",
        has: &[active_by!(0)],
        lines: &["4 0x00000000000003ff", "end 4 2"],
    },
    Save {
        shows: "no step is done", before: FIRST, steps: ENDED, step: "0",
        has: &[r#"{"done":0,"#, r#""rec":[],"#, r#""reads":0,"#],
        lines: &["2 0x0000000000000028", "4 0x00000000000003ff", "end 4 2"],
    },
    Save {
        shows: "all steps are done", before: FIRST, steps: ENDED, step: "4",
        has: &[r#"{"done":4,"#, r#""reads":2,"steps":[],"#],
        lines: &["end 4 2"],
    },
    Save {
        shows: "a level-sensitive interrupt whose wire is up, in its own bytes", before: LEVEL,
        steps: &[&[wire!(40, true), icc!(0, "IAR1"), wire!(40, false)]], step: "1",
        has: &[raised!("false")],
        lines: &[
            "2 0x0000000000000028", CPU_A0, "irq 0 40 en=1 grp=1 prio=0xa0 cfg=level line=0 rise=0 soft=0 act=0 to=0",
            "end 3 1",
        ],
    },
    Save {
        shows: "a vCPU that is on no PE", before: TWO_PES,
        steps: &[&[message!(40), exit!(0), enter!(1, 0), icc!(0, "IAR1")]], step: "2",
        has: &[r#""on_pe":[null,null],"#],
        lines: &["4 0x0000000000000028", CPU_A0, ACTIVE_40, "end 4 1"],
    },
    Save {
        shows: "a pending LPI", before: GUEST,
        steps: &[
            CONFIGURED, LPIS_OF_1, ENABLED, MAPD, MAPC, MAPTI, SYNC, DONE,
            &[MSI, icc!(1, "IAR1"), icc!(1, "EOIR1", 8195), icc!(1, "IAR1")],
        ],
        step: "19",
        has: &[
            r#""col":[[1,1]],"cpu":[[240,2,3,0,0,0,1,0,0,0],[240,2,3,0,0,0,1,1,0,0]],"dev":[[8,5]],"#,
            r#""evt":[[8,3,8195,1]],"#,
            r#""its":[1,9223372036854779904,128,128,0,0,74027918874902528,290200700988686336],"#,
            r#""rec":[["8195",1,1,160,1,0,0,1,null,1,1,1,null]],"#,
            r#""redist":[[0,0],[12301,4611686018427453440]],"#,
        ],
        lines: &[
            "20 0x0000000000002003", "22 0x00000000000003ff", CPU_1, LPI_8195, ITS_80, "dev 0 8 bits=5",
            "evt 0 8 3 8195 1", "col 0 1 1", "end 22 3",
        ],
    },
    Save {
        shows: "a queue that is stalled, and then mended and tried again", before: GUEST,
        steps: &[
            CONFIGURED, LPIS_OF_1, ENABLED, MAPD, UNKNOWN, MAPTI, SYNC, DONE,
            &[mem!(0, "ram", 0x1020, 8, 9), mem!(0, "gits", 0x88, 8, 0x81), mem!(0, "gits", 0x90, 8)],
        ],
        step: "17",
        has: &[r#""its":[1,9223372036854779904,128,32,1,10,74027918874902528,290200700988686336],"#],
        lines: &[
            "18 0x0000000000000021", "21 0x0000000000000080", CPU_1, LPI_8195, ITS_80, "dev 0 8 bits=5",
            "evt 0 8 3 8195 1", "col 0 1 1", "end 21 2",
        ],
    },
    Save {
        shows: "the number of a fault that is past is not saved", before: GUEST,
        steps: &[
            CONFIGURED, LPIS_OF_1, ENABLED, MAPD, UNKNOWN, MAPTI, SYNC, DONE,
            &[mem!(0, "ram", 0x1020, 8, 9), mem!(0, "gits", 0x88, 8, 0x81), mem!(0, "gits", 0x90, 8)],
        ],
        step: "20",
        has: &[r#""its":[1,9223372036854779904,128,128,0,0,74027918874902528,290200700988686336],"#],
        lines: &[
            "21 0x0000000000000080", CPU_1, LPI_8195, ITS_80, "dev 0 8 bits=5", "evt 0 8 3 8195 1", "col 0 1 1",
            "end 21 2",
        ],
    },
];

#[rattlefmt::skip]
const ANSWERS: [Answer; 15] = [
    Answer {
        shows: "more steps than there are", words: &["save", "5"], input: ENDED_INPUT,
        status: BAD_SCENARIO, lines: &["bad scenario: code 13 step 0"],
    },
    Answer {
        shows: "as many steps as there can be", words: &["save", "100000"], input: ENDED_INPUT,
        status: BAD_SCENARIO, lines: &["bad scenario: code 13 step 0"],
    },
    Answer {
        shows: "a scenario with a fault has that, however many steps are to be done", words: &["save", "5"],
        input: r#"{"guests":[{}],"steps":[{"vcpu":[0,0],"icc":"IAR2"}]}"#,
        status: BAD_SCENARIO, lines: &["bad scenario: code 3 step 1"],
    },
    Answer {
        shows: "a save of what is no JSON", words: &["save", "0"], input: "{",
        status: BAD_JSON, lines: &["bad json"],
    },
    Answer {
        shows: "no number", words: &["save"], input: ENDED_INPUT,
        status: USAGE, lines: &["usage"],
    },
    Answer {
        shows: "a number that is none", words: &["save", "x"], input: ENDED_INPUT,
        status: USAGE, lines: &["usage"],
    },
    Answer {
        shows: "a number with a zero before it", words: &["save", "02"], input: ENDED_INPUT,
        status: USAGE, lines: &["usage"],
    },
    Answer {
        shows: "more steps than a scenario can have", words: &["save", "100001"], input: ENDED_INPUT,
        status: USAGE, lines: &["usage"],
    },
    Answer {
        shows: "a resume with a number", words: &["resume", "1"], input: active_by!(0),
        status: USAGE, lines: &["usage"],
    },
    Answer {
        shows: "a scenario is no image", words: &["resume"], input: ENDED_INPUT,
        status: BAD_SCENARIO, lines: &["bad scenario: code 1 step 0"],
    },
    Answer {
        shows: "an image is no scenario", words: &["run"], input: active_by!(0),
        status: BAD_SCENARIO, lines: &["bad scenario: code 1 step 0"],
    },
    Answer {
        shows: "active by a vCPU that is not there", words: &["resume"], input: active_by!(1),
        status: BAD_SCENARIO, lines: &["bad scenario: code 12 step 0"],
    },
    Answer {
        shows: "a wire goes up that is up, in a step whose number counts those that were done", words: &["resume"],
        input: raised!("true"), status: BAD_SCENARIO, lines: &["bad scenario: code 8 step 3"],
    },
    Answer {
        shows: "commands that are left start where the ITS is enabled", words: &["resume"],
        input: left_over!(r#"{"gits":0,"size":4,"vcpu":[0,0],"write":1}"#), status: OK, lines: QUEUE_RAN,
    },
    Answer {
        shows: "and where the high half of CWRITER is written", words: &["resume"],
        input: left_over!(r#"{"gits":140,"size":4,"vcpu":[0,0],"write":0}"#), status: OK, lines: QUEUE_RAN,
    },
];

/// Two priorities in the middle of each other, and how they end.
const NESTED: &[&str] = &[
    message!(40),
    icc!(0, "IAR1"),
    message!(42),
    icc!(0, "IAR1"),
    icc!(0, "EOIR1", 42),
    icc!(0, "RPR"),
    icc!(0, "EOIR1", 40),
    icc!(0, "RPR"),
];

/// After how many of these steps each save comes, and what is written from there on.
#[rattlefmt::skip]
const NESTED_FROM: [(&str, &[&str]); 4] = [
    ("1", &["2 0x0000000000000028", "4 0x000000000000002a", "6 0x00000000000000a0", "8 0x00000000000000ff", "end 8 4"]),
    ("3", &["4 0x000000000000002a", "6 0x00000000000000a0", "8 0x00000000000000ff", "end 8 4"]),
    ("4", &["6 0x00000000000000a0", "8 0x00000000000000ff", "end 8 4"]),
    ("7", &["8 0x00000000000000ff", "end 8 4"]),
];

#[test]
fn saves_and_resumes(rt: HostRuntime) -> Result<(), Fail> {
    let alloc = rt.alloc();
    for row in &SAVES {
        let input = input_of(alloc, row.before, row.steps)?;
        let (saved, image) = answer_to(&rt, alloc, &["save", row.step], input)?;
        assert_eq!(rt; saved, OK, "{}", row.shows);
        for part in row.has {
            assert!(rt; image.as_str().contains(*part), "{}: {}", row.shows, image);
        }
        let (status, text) = answer_to(&rt, alloc, &["resume"], image)?;
        let lines = text_of(alloc, row.lines)?;
        assert_eq!(rt; text.as_str(), lines.as_str(), "{}", row.shows);
        assert_eq!(rt; status, OK, "{}", row.shows);
    }
    Ok(())
}

#[test]
fn writes_one_line(rt: HostRuntime) -> Result<(), Fail> {
    let alloc = rt.alloc();
    let input = input_of(alloc, FIRST, ENDED)?;
    let (status, image) = answer_to(&rt, alloc, &["save", "2"], input)?;
    let line = text_of(alloc, &[active_by!(0)])?;
    assert_eq!(rt; image.as_str(), line.as_str());
    assert_eq!(rt; status, OK);
    Ok(())
}

#[test]
fn goes_on_in_the_middle_of_interrupts(rt: HostRuntime) -> Result<(), Fail> {
    let alloc = rt.alloc();
    for (step, rest) in NESTED_FROM {
        let input = input_of(alloc, BASE, &[NESTED])?;
        let (saved, image) = answer_to(&rt, alloc, &["save", step], input)?;
        assert_eq!(rt; saved, OK, "{step}");
        let (status, text) = answer_to(&rt, alloc, &["resume"], image)?;
        let lines = text_of(alloc, rest)?;
        assert_eq!(rt; text.as_str(), lines.as_str(), "{step}");
        assert_eq!(rt; status, OK, "{step}");
    }
    Ok(())
}

#[test]
fn answers_words_and_images(rt: HostRuntime) -> Result<(), Fail> {
    let alloc = rt.alloc();
    for row in &ANSWERS {
        let input = String::from_str(alloc, row.input)?;
        let (status, text) = answer_to(&rt, alloc, row.words, input)?;
        let lines = text_of(alloc, row.lines)?;
        assert_eq!(rt; text.as_str(), lines.as_str(), "{}", row.shows);
        assert_eq!(rt; status, row.status, "{}", row.shows);
    }
    Ok(())
}
