//! Tests of what events say, each by itself as a guest opens, and of what a call goes by that has read a command, worked out by hand.
ghost use Rattle.std.specs.Prelude.{IfOk};
ghost use Rattle.legal_play.specs.Calls.{IsGoodGuest};

use legal_play::{
    CallFound as Found, Event, Frame, GuestOp, ListOf, Made, Moment, Operation, Place, PlainWord,
    QueueChange, State,
};
use serde_json::Value;
use std::alloc::Global;
use std::process::Abort;
use std::test::Fail;
use trace_told::{Act, Trace, TraceEvent, actor_of, moments_told, read_trace};

/// Two vCPUs, a device, LPIs and eight words of memory; the distributor is on, and nothing is preset.
const GUEST: &str = r#"{"vcpus":2,"devices":1,"lpis":16,"ram":64,"on":true}"#;

/// A trace of that guest with one event.
fn trace_of(alloc: Global, event: &str) -> Result<Trace, Fail>
    ensures { IfOk result (λ trace. IsGoodGuest trace.guest) }
{
    let text = format!(in alloc; "{{\"guest\":{GUEST},\"events\":[{event}]}}")?;
    let value = Value::from_str(alloc, text.as_str())?;
    match read_trace(alloc, &value) {
        Ok(trace) => Ok(trace),
        Err(_) => Err(Fail::from("not read")),
    }
}

/// What is told of the one event of a trace, as its guest opens: of an actor that is in a call for an operation, if it is in one, and made a piece.
fn told(
    alloc: Global,
    trace: &Trace,
    operation: Option<Operation>,
    piece: &[Made],
) -> Result<Option<ListOf<Moment>>, Fail>
    requires { IsGoodGuest trace.now.guest }
{
    let state = State::open(alloc, &trace.guest)?;
    let event = trace.events.get(0).ok_or("no event")?;
    let actor = actor_of(state.shape(), event.by).ok_or("no actor")?;
    Ok(moments_told(alloc, &state, actor, operation, piece, &event.act)?)
}

/// How many moments an event says outside of a call: none where it can be no moment.
fn count_told(alloc: Global, event: &str) -> Result<usize, Fail> {
    let trace = trace_of(alloc, event)?;
    match told(alloc, &trace, None, &[])? {
        Some(moments) => Ok(moments.len()),
        None => Ok(0),
    }
}

/// Events, and how many moments each says. SPI 40 has the lowest priority that there is as it opens, and LPI 8192 is for no vCPU.
const ROWS: [(&str, usize); 28] = [
    (r#"{"by":["d",0],"raise":"40"}"#, 1),
    (r#"{"by":["v",0],"begin":{"icc":"IAR1"}}"#, 1),
    (r#"{"by":["v",0],"end":40}"#, 1),
    (r#"{"by":["v",0],"reach":"40"}"#, 1),
    (r#"{"by":["d",0],"reach":"40"}"#, 0),
    (r#"{"by":["v",0],"cpu":["IAR1",null,1023]}"#, 1),
    (r#"{"by":["v",0],"cpu":["IAR1",null,40]}"#, 0),
    (r#"{"by":["v",0],"cpu":["IAR1",null,null]}"#, 0),
    (r#"{"by":["v",0],"cpu":["EOIR1",40,null]}"#, 1),
    (r#"{"by":["v",0],"cpu":["EOIR1",40,0]}"#, 0),
    (r#"{"by":["v",0],"touch":["40","read",["SetEnable"],0]}"#, 1),
    (r#"{"by":["v",0],"touch":["40","read",["SetEnable"],1]}"#, 0),
    (
        r#"{"by":["v",0],"touch":["40","read",["SetEnable"],null]}"#,
        0,
    ),
    (
        r#"{"by":["v",0],"touch":["40","enables",[true,true],null]}"#,
        1,
    ),
    (
        r#"{"by":["v",0],"touch":["40","write",["SetEnable",2],null]}"#,
        0,
    ),
    (
        r#"{"by":["v",0],"touch":["8192","map",[1,true,160],null]}"#,
        2,
    ),
    (
        r#"{"by":["v",0],"touch":["8192","configure",[true,160],null]}"#,
        1,
    ),
    (r#"{"by":["v",0],"its_begin":true}"#, 5),
    (r#"{"by":["v",0],"enable":true}"#, 0),
    (r#"{"by":["v",0],"read":["its_ctlr",0]}"#, 1),
    (r#"{"by":["v",0],"read":["its_ctlr",2147483648]}"#, 1),
    (r#"{"by":["v",0],"read":["its_ctlr",1]}"#, 0),
    (r#"{"by":["v",0],"read":["ctlr",83]}"#, 1),
    (r#"{"by":["v",0],"read":["creadr",1]}"#, 0),
    (r#"{"by":["v",0],"put":["its_ctlr",2147483648]}"#, 1),
    (r#"{"by":["v",0],"put":["its_ctlr",2]}"#, 0),
    (r#"{"by":["v",0],"queue":[0,false]}"#, 1),
    (r#"{"by":["v",0],"queue":[0,true]}"#, 0),
];

#[test]
fn events_say_moments(rt: HostRuntime) -> Result<(), Fail> {
    let alloc = rt.alloc();
    for (event, want) in &ROWS {
        assert_eq!(rt; count_told(alloc, event)?, *want, "{event}");
    }
    Ok(())
}

/// A write of GITS_CWRITER.
const WRITES_CWRITER: Operation = Operation::Access {
    op: GuestOp::Mem {
        frame: Frame::Its,
        offset: 0x88,
        size: 8,
        write: Some(32),
    },
};

/// A read of a word of memory that found a value.
fn finds(index: u32, value: u64) -> Made {
    let word = PlainWord::Ram { index };
    Made {
        event: Event::Read {
            place: Place::Word { word },
        },
        found: Found::Word { value },
    }
}

/// An event that hands out nothing.
fn makes(event: Event) -> Made {
    Made {
        event,
        found: Found::Nothing,
    }
}

/// The change of the queue that is told of a call that made a piece.
fn change_told(alloc: Global, piece: &[Made]) -> Result<Option<QueueChange>, Fail> {
    let trace = trace_of(alloc, r#"{"by":["v",0],"queue":[32,false]}"#)?;
    let Some(moments) = told(alloc, &trace, Some(WRITES_CWRITER), piece)? else {
        return Ok(None);
    };
    match moments.get(0) {
        Some(
            Moment::Happens {
                event: Event::Queue { change, .. },
                ..
            },
        ) => Ok(Some(*change)),
        _ => Ok(None),
    }
}

#[test]
fn a_queue_is_told_by_the_command_that_was_read(rt: HostRuntime) -> Result<(), Fail> {
    let alloc = rt.alloc();
    let begin = makes(Event::ItsBegin);
    let sync = change_told(
        alloc,
        &[begin, finds(0, 5), finds(1, 0), finds(2, 0), finds(3, 0)],
    )?;
    assert_eq!(rt;
        sync,
        Some(QueueChange::Done {
            words: [5, 0, 0, 0]
        })
    );
    let earlier = change_told(alloc, &[finds(0, 5), makes(Event::ItsBegin)])?;
    assert_eq!(rt; earlier, None);
    let twice = change_told(alloc, &[makes(Event::ItsBegin), finds(0, 9), finds(0, 5)])?;
    assert_eq!(rt;
        twice,
        Some(QueueChange::Done {
            words: [5, 0, 0, 0]
        })
    );
    Ok(())
}
