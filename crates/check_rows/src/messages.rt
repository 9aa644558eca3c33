//! Messages of SPI 40, and what an acknowledge may find of them.
use crate::table::{Recorded, expect_no, expect_yes};
use std::test::Fail;

/// A vCPU, SPI 40 in group 1 at priority 0xa0, and a device.
const ONE: &str = r#"{"vcpus":1,"spis":32,"on":true,"irqs":[{"id":40}]}"#;

/// The same with two vCPUs.
const TWO: &str = r#"{"vcpus":2,"spis":32,"on":true,"irqs":[{"id":40}]}"#;

const BEGINS: &str = r#"{"by":["d",0],"begin":{"message":40}}"#;

const RAISES: &str = r#"{"by":["d",0],"raise":"40"}"#;

const ENDS: &str = r#"{"by":["d",0],"end":null}"#;

const ASKS: &str = r#"{"by":["v",0],"begin":{"icc":"IAR1"}}"#;

const REACHES: &str = r#"{"by":["v",0],"reach":"40"}"#;

const FINDS_IT: &str = r#"{"by":["v",0],"cpu":["IAR1",null,40]}"#;

const FINDS_NOTHING: &str = r#"{"by":["v",0],"cpu":["IAR1",null,1023]}"#;

const ANSWERS_IT: &str = r#"{"by":["v",0],"end":40}"#;

const ANSWERS_NOTHING: &str = r#"{"by":["v",0],"end":1023}"#;

#[test]
fn a_message_is_acknowledged(rt: HostRuntime) -> Result<(), Fail> {
    let served = Recorded {
        guest: ONE,
        events: &[BEGINS, RAISES, ENDS, ASKS, REACHES, FINDS_IT, ANSWERS_IT],
    };
    expect_yes(&rt, rt.alloc(), &served)
}

#[test]
fn no_events_can_be(rt: HostRuntime) -> Result<(), Fail> {
    let nothing = Recorded {
        guest: ONE,
        events: &[],
    };
    expect_yes(&rt, rt.alloc(), &nothing)
}

#[test]
fn a_message_that_has_ended_is_found(rt: HostRuntime) -> Result<(), Fail> {
    let overlooked = Recorded {
        guest: ONE,
        events: &[BEGINS, RAISES, ENDS, ASKS, FINDS_NOTHING],
    };
    expect_no(&rt, rt.alloc(), &overlooked)
}

#[test]
fn a_message_in_flight_may_be_overlooked_until_it_ends(rt: HostRuntime) -> Result<(), Fail> {
    let in_flight = Recorded {
        guest: ONE,
        events: &[
            BEGINS,
            RAISES,
            ASKS,
            FINDS_NOTHING,
            ENDS,
            ANSWERS_NOTHING,
            ASKS,
            FINDS_NOTHING,
        ],
    };
    expect_no(&rt, rt.alloc(), &in_flight)
}

#[test]
fn a_write_that_may_clear_it_is_awaited(rt: HostRuntime) -> Result<(), Fail> {
    let awaited = Recorded {
        guest: TWO,
        events: &[
            BEGINS,
            RAISES,
            ENDS,
            r#"{"by":["v",1],"begin":{"gicd":644,"write":256}}"#,
            ASKS,
            FINDS_NOTHING,
        ],
    };
    expect_yes(&rt, rt.alloc(), &awaited)
}

#[test]
fn a_message_raises_its_own_interrupt(rt: HostRuntime) -> Result<(), Fail> {
    let another = Recorded {
        guest: ONE,
        events: &[BEGINS, r#"{"by":["d",0],"raise":"41"}"#],
    };
    expect_no(&rt, rt.alloc(), &another)
}

#[test]
fn a_message_ends_once_it_has_raised(rt: HostRuntime) -> Result<(), Fail> {
    let unraised = Recorded {
        guest: ONE,
        events: &[BEGINS, ENDS],
    };
    expect_no(&rt, rt.alloc(), &unraised)
}

#[test]
fn an_acknowledge_answers_what_it_found(rt: HostRuntime) -> Result<(), Fail> {
    let another = Recorded {
        guest: ONE,
        events: &[
            BEGINS,
            RAISES,
            ENDS,
            ASKS,
            REACHES,
            FINDS_IT,
            r#"{"by":["v",0],"end":41}"#,
        ],
    };
    expect_no(&rt, rt.alloc(), &another)
}

#[test]
fn an_access_hands_out_what_is_there(rt: HostRuntime) -> Result<(), Fail> {
    let mistaken = Recorded {
        guest: ONE,
        events: &[
            BEGINS,
            RAISES,
            ENDS,
            ASKS,
            REACHES,
            r#"{"by":["v",0],"cpu":["IAR1",null,41]}"#,
        ],
    };
    expect_no(&rt, rt.alloc(), &mistaken)
}

#[test]
fn events_are_made_in_calls(rt: HostRuntime) -> Result<(), Fail> {
    let outside = Recorded {
        guest: ONE,
        events: &[REACHES],
    };
    expect_no(&rt, rt.alloc(), &outside)
}

#[test]
fn a_change_at_the_interface_is_seen_once_its_call_has_ended(rt: HostRuntime) -> Result<(), Fail> {
    let stays = Recorded {
        guest: ONE,
        events: &[
            BEGINS,
            RAISES,
            ENDS,
            ASKS,
            REACHES,
            FINDS_IT,
            ANSWERS_IT,
            BEGINS,
            RAISES,
            ENDS,
            r#"{"by":["v",0],"begin":{"icc":"RPR"}}"#,
            r#"{"by":["v",0],"cpu":["RPR",null,160]}"#,
        ],
    };
    expect_no(&rt, rt.alloc(), &stays)
}
