//! Traces through the whole tool: of each the status and all that is written.

use crate::row::answer_to;
use gic_top::{BAD_JSON, BAD_SCENARIO, CANNOT_BE, OK};
use std::test::Fail;

/// A trace, and what is answered.
struct Judged {
    /// What the row shows.
    shows: &'static str,
    /// The trace, as JSON.
    input: &'static str,
    status: u8,
    /// All that is written.
    text: &'static str,
}

/// A trace of a vCPU, SPI 40 in group 1 at priority 0xa0, and a device, with these events.
macro_rules! of_one {
    ($($events:literal),*) => {
        concat!(
            r#"{"guest":{"vcpus":1,"spis":32,"on":true,"irqs":[{"id":40}]},"events":["#,
            $($events,)*
            "]}"
        )
    };
}

/// The same, where a message for SPI 40 has ended and a read of ICC_IAR1_EL1 begins before these events.
macro_rules! sent {
    ($events:literal) => {
        of_one!(
            r#"{"by":["d",0],"begin":{"message":40}},{"by":["d",0],"raise":"40"},{"by":["d",0],"end":null},{"by":["v",0],"begin":{"icc":"IAR1"}},"#,
            $events
        )
    };
}

#[rattlefmt::skip]
const TRACES: [Judged; 9] = [
    Judged {
        shows: "a message that is acknowledged", status: OK, text: "yes 7\n",
        input: sent!(r#"{"by":["v",0],"reach":"40"},{"by":["v",0],"cpu":["IAR1",null,40]},{"by":["v",0],"end":40}"#),
    },
    Judged {
        shows: "one that is overlooked", status: CANNOT_BE, text: "no 5\n",
        input: sent!(r#"{"by":["v",0],"cpu":["IAR1",null,1023]}"#),
    },
    Judged {
        shows: "no events", status: OK, text: "yes 0\n", input: of_one!(""),
    },
    Judged {
        shows: "an SPI that is not there", status: BAD_SCENARIO, text: "bad scenario: code 4 step 1\n",
        input: of_one!(r#"{"by":["d",0],"raise":"99"}"#),
    },
    Judged {
        shows: "a name of no interrupt", status: BAD_SCENARIO, text: "bad scenario: code 1 step 1\n",
        input: of_one!(r#"{"by":["d",0],"raise":"v0:x"}"#),
    },
    Judged {
        shows: "a word outside of memory", status: BAD_SCENARIO, text: "bad scenario: code 9 step 1\n",
        input: r#"{"guest":{"ram":64},"events":[{"by":["v",0],"read":["ram:8",0]}]}"#,
    },
    Judged {
        shows: "enables of more than two groups", status: BAD_SCENARIO, text: "bad scenario: code 2 step 1\n",
        input: of_one!(r#"{"by":["v",0],"ctlr_begin":4}"#),
    },
    Judged {
        shows: "an event that does not happen", status: BAD_SCENARIO, text: "bad scenario: code 1 step 1\n",
        input: of_one!(r#"{"by":["v",0]}"#),
    },
    Judged {
        shows: "no JSON", status: BAD_JSON, text: "bad json\n", input: r#"{"guest":{},"events":["#,
    },
];

#[test]
fn traces_are_judged(rt: HostRuntime) -> Result<(), Fail> {
    for row in &TRACES {
        let input = String::from_str(rt.alloc(), row.input)?;
        let (status, written) = answer_to(&rt, rt.alloc(), &["check"], input)?;
        assert_eq!(rt; written.as_str(), row.text, "{}", row.shows);
        assert_eq!(rt; status, row.status, "{}", row.shows);
    }
    Ok(())
}
