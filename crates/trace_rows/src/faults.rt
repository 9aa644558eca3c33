//! The faults of traces, each by itself.
use crate::table::{Want, expect_faults, expect_faults_of_traces};
use std::test::Fail;

/// Who acts, and the one field that says what happens.
const FIELDS: [(&str, Want); 15] = [
    (r#"{"by":["v",1],"enable":true}"#, None),
    (r#"{"by":["d",1],"its_begin":true}"#, None),
    (r#"{"by":["v","0x1"],"ctlr_end":true}"#, None),
    (r#"{"by":["v",0]}"#, Some((1, 1))),
    (r#"{"enable":true}"#, Some((1, 1))),
    (
        r#"{"by":["v",0],"enable":true,"its_end":true}"#,
        Some((1, 1)),
    ),
    (r#"{"by":["v",0],"enable":true,"at":1}"#, Some((1, 1))),
    (r#"{"by":["v",0],"enable":false}"#, Some((1, 1))),
    (r#"{"by":["v",0],"wire":40}"#, Some((1, 1))),
    (r#"{"by":["p",0],"enable":true}"#, Some((1, 1))),
    (r#"{"by":["v"],"enable":true}"#, Some((1, 1))),
    (r#"{"by":["v",0,0],"enable":true}"#, Some((1, 1))),
    (r#"{"by":["v",2],"enable":true}"#, Some((4, 1))),
    (r#"{"by":["d",2],"enable":true}"#, Some((4, 1))),
    (r#"{"by":["d",4294967296],"enable":true}"#, Some((4, 1))),
];

/// Calls that begin. A call's form is of its actor's kind.
const CALLS: [(&str, Want); 30] = [
    (r#"{"by":["v",0],"begin":{"icc":"IAR1"}}"#, None),
    (
        r#"{"by":["v",0],"begin":{"gicd":"0x100","size":4,"write":1}}"#,
        None,
    ),
    (
        r#"{"by":["v",0],"begin":{"gicr":112,"of":1,"size":8}}"#,
        None,
    ),
    (
        r#"{"by":["v",0],"begin":{"gits":128,"size":8,"write":0}}"#,
        None,
    ),
    (r#"{"by":["v",0],"begin":{"ram":56,"size":8}}"#, None),
    (r#"{"by":["v",0],"begin":{"enter":true}}"#, None),
    (r#"{"by":["v",0],"begin":{"exit":true}}"#, None),
    (r#"{"by":["d",0],"begin":{"message":40}}"#, None),
    (
        r#"{"by":["d",0],"begin":{"wire":16,"up":true,"of":1}}"#,
        None,
    ),
    (r#"{"by":["d",0],"begin":{"wire":4096,"up":false}}"#, None),
    (r#"{"by":["d",0],"begin":{"msi":[8,3]}}"#, None),
    (r#"{"by":["d",0],"begin":{"icc":"IAR1"}}"#, Some((1, 1))),
    (r#"{"by":["d",0],"begin":{"enter":true}}"#, Some((1, 1))),
    (r#"{"by":["v",0],"begin":{"message":40}}"#, Some((1, 1))),
    (
        r#"{"by":["v",0],"begin":{"vcpu":[0,0],"icc":"IAR1"}}"#,
        Some((1, 1)),
    ),
    (r#"{"by":["v",0],"begin":{"enter":false}}"#, Some((1, 1))),
    (r#"{"by":["v",0],"begin":{"lrs":true}}"#, Some((1, 1))),
    (r#"{"by":["v",0],"begin":{}}"#, Some((1, 1))),
    (r#"{"by":["v",0],"begin":"exit"}"#, Some((1, 1))),
    (r#"{"by":["d",0],"begin":{"wire":40}}"#, Some((1, 1))),
    // A register that is not there is told before an actor that is not, and a fault of shape before both.
    (r#"{"by":["v",9],"begin":{"icc":"IAR2"}}"#, Some((3, 1))),
    (r#"{"by":["d",9],"begin":{"icc":"IAR2"}}"#, Some((1, 1))),
    (
        r#"{"by":["v",0],"begin":{"icc":"IAR1","write":1}}"#,
        Some((3, 1)),
    ),
    (
        r#"{"by":["v",0],"begin":{"gicd":0,"size":3}}"#,
        Some((2, 1)),
    ),
    (
        r#"{"by":["d",0],"begin":{"msi":[4294967296,0]}}"#,
        Some((2, 1)),
    ),
    (r#"{"by":["v",0],"begin":{"gicr":0,"of":2}}"#, Some((4, 1))),
    (r#"{"by":["d",0],"begin":{"message":31}}"#, Some((4, 1))),
    (
        r#"{"by":["d",0],"begin":{"wire":16,"up":true,"of":2}}"#,
        Some((4, 1)),
    ),
    (r#"{"by":["v",0],"begin":{"gits":131072}}"#, Some((9, 1))),
    (
        r#"{"by":["v",0],"begin":{"ram":60,"size":8}}"#,
        Some((9, 1)),
    ),
];

/// Interrupts by their names.
const NAMES: [(&str, Want); 20] = [
    (r#"{"by":["v",0],"reach":"40"}"#, None),
    (r#"{"by":["v",0],"take":"v1:31"}"#, None),
    (r#"{"by":["v",0],"leave":"8207"}"#, None),
    (r#"{"by":["d",0],"up":"4127"}"#, None),
    (r#"{"by":["d",0],"down":"v0:16"}"#, None),
    (r#"{"by":["d",0],"raise":"99"}"#, Some((4, 1))),
    (r#"{"by":["d",0],"raise":"5"}"#, Some((4, 1))),
    (r#"{"by":["d",0],"raise":"8208"}"#, Some((4, 1))),
    (r#"{"by":["d",0],"raise":"v0:40"}"#, Some((4, 1))),
    (r#"{"by":["d",0],"raise":"v2:5"}"#, Some((4, 1))),
    (
        r#"{"by":["d",0],"raise":"99999999999999999999"}"#,
        Some((4, 1)),
    ),
    (r#"{"by":["d",0],"raise":"v0:x"}"#, Some((1, 1))),
    (r#"{"by":["d",0],"raise":"v:5"}"#, Some((1, 1))),
    (r#"{"by":["d",0],"raise":"0:5"}"#, Some((1, 1))),
    (r#"{"by":["d",0],"raise":"v0:5:6"}"#, Some((1, 1))),
    (r#"{"by":["d",0],"raise":"040"}"#, Some((1, 1))),
    (r#"{"by":["d",0],"raise":"+40"}"#, Some((1, 1))),
    (r#"{"by":["d",0],"raise":"0x28"}"#, Some((1, 1))),
    (r#"{"by":["d",0],"raise":""}"#, Some((1, 1))),
    (r#"{"by":["d",0],"raise":40}"#, Some((1, 1))),
];

/// Accesses of the CPU interface, and ends of calls.
const ANSWERS: [(&str, Want); 10] = [
    (r#"{"by":["v",0],"cpu":["IAR1",null,40]}"#, None),
    (r#"{"by":["v",0],"cpu":["EOIR1",40,null]}"#, None),
    (r#"{"by":["v",0],"end":null}"#, None),
    (r#"{"by":["v",0],"end":18446744073709551615}"#, None),
    (r#"{"by":["v",0],"end":true}"#, Some((1, 1))),
    (r#"{"by":["v",0],"cpu":["IAR1",null]}"#, Some((1, 1))),
    (r#"{"by":["v",0],"cpu":["IAR1",null,40,0]}"#, Some((1, 1))),
    (r#"{"by":["v",0],"cpu":["IAR1",false,40]}"#, Some((1, 1))),
    (r#"{"by":["v",0],"cpu":["IAR2",null,40]}"#, Some((3, 1))),
    (r#"{"by":["v",0],"cpu":["EOIR1",null,40]}"#, Some((3, 1))),
];

/// Touches of records.
const TOUCHES: [(&str, Want); 24] = [
    (
        r#"{"by":["v",0],"touch":["40","read",["SetEnable"],1]}"#,
        None,
    ),
    (
        r#"{"by":["v",0],"touch":["40","write",["Priority",160],null]}"#,
        None,
    ),
    (
        r#"{"by":["v",0],"touch":["40","enables",[true,false],null]}"#,
        None,
    ),
    (
        r#"{"by":["v",0],"touch":["8192","map",[1,true,248],null]}"#,
        None,
    ),
    (
        r#"{"by":["v",0],"touch":["8192","retarget",[null],null]}"#,
        None,
    ),
    (
        r#"{"by":["v",0],"touch":["8192","retarget",[1],null]}"#,
        None,
    ),
    (
        r#"{"by":["v",0],"touch":["8192","configure",[false,0],null]}"#,
        None,
    ),
    (r#"{"by":["v",0],"touch":["8192","forget",[],null]}"#, None),
    // What cannot be is no fault: a target that is not there, a value that does not fit, an answer of a write.
    (
        r#"{"by":["v",0],"touch":["8192","map",[4294967296,true,0],null]}"#,
        None,
    ),
    (
        r#"{"by":["v",0],"touch":["40","write",["Group",7],3]}"#,
        None,
    ),
    (
        r#"{"by":["v",0],"touch":["40","read",["Enable"],1]}"#,
        Some((1, 1)),
    ),
    (r#"{"by":["v",0],"touch":["40","read",[],1]}"#, Some((1, 1))),
    (
        r#"{"by":["v",0],"touch":["40","reads",["Group"],1]}"#,
        Some((1, 1)),
    ),
    (
        r#"{"by":["v",0],"touch":["40","write",["Group"],null]}"#,
        Some((1, 1)),
    ),
    (
        r#"{"by":["v",0],"touch":["40","enables",[1,0],null]}"#,
        Some((1, 1)),
    ),
    (
        r#"{"by":["v",0],"touch":["8192","forget",[0],null]}"#,
        Some((1, 1)),
    ),
    (
        r#"{"by":["v",0],"touch":["8192","retarget",[true],null]}"#,
        Some((1, 1)),
    ),
    (
        r#"{"by":["v",0],"touch":["8192","forget",[]]}"#,
        Some((1, 1)),
    ),
    (
        r#"{"by":["v",0],"touch":["x","map",[0,true,7],null]}"#,
        Some((1, 1)),
    ),
    (
        r#"{"by":["v",0],"touch":["8192","map",[0,true,7],null]}"#,
        Some((2, 1)),
    ),
    (
        r#"{"by":["v",0],"touch":["8192","configure",[true,256],null]}"#,
        Some((2, 1)),
    ),
    // A number outside of its range is told before an interrupt that is not there.
    (
        r#"{"by":["v",0],"touch":["9999","configure",[true,256],null]}"#,
        Some((2, 1)),
    ),
    (
        r#"{"by":["v",0],"touch":["9999","forget",[],null]}"#,
        Some((4, 1)),
    ),
    (
        r#"{"by":["v",0],"touch":["v0:32","read",["Group"],0]}"#,
        Some((4, 1)),
    ),
];

/// Words, registers and the queue.
const PLACES: [(&str, Want); 24] = [
    (r#"{"by":["v",0],"read":["ram:7",0]}"#, None),
    (
        r#"{"by":["v",0],"put":["ram:0",18446744073709551615]}"#,
        None,
    ),
    (r#"{"by":["v",0],"put":["propbaser:1",0]}"#, None),
    (r#"{"by":["v",0],"put":["pendbaser:0",0]}"#, None),
    (r#"{"by":["v",0],"put":["its_ctlr",1]}"#, None),
    (r#"{"by":["v",0],"put":["baser1",0]}"#, None),
    (r#"{"by":["v",0],"read":["creadr",0]}"#, None),
    (r#"{"by":["v",0],"read":["ctlr",3]}"#, None),
    (r#"{"by":["v",0],"read":["lpis:1",1]}"#, None),
    (r#"{"by":["v",0],"ctlr_begin":3}"#, None),
    (r#"{"by":["v",0],"queue":[4294967295,false]}"#, None),
    (r#"{"by":["v",0],"put":["creadr",0]}"#, Some((1, 1))),
    (r#"{"by":["v",0],"put":["ctlr",0]}"#, Some((1, 1))),
    (r#"{"by":["v",0],"put":["lpis:0",1]}"#, Some((1, 1))),
    (r#"{"by":["v",0],"read":["ram",0]}"#, Some((1, 1))),
    (r#"{"by":["v",0],"read":["cwriter:0",0]}"#, Some((1, 1))),
    (r#"{"by":["v",0],"read":["typer",0]}"#, Some((1, 1))),
    (r#"{"by":["v",0],"read":["ram:7"]}"#, Some((1, 1))),
    (r#"{"by":["v",0],"queue":[0]}"#, Some((1, 1))),
    (r#"{"by":["v",0],"ctlr_begin":4}"#, Some((2, 1))),
    (r#"{"by":["v",0],"queue":[4294967296,false]}"#, Some((2, 1))),
    (r#"{"by":["v",0],"read":["propbaser:2",0]}"#, Some((4, 1))),
    (r#"{"by":["v",0],"read":["ram:8",0]}"#, Some((9, 1))),
    (r#"{"by":["v",9],"read":["ram:8",0]}"#, Some((4, 1))),
];

/// What stands outside of the events, and which of two faults is told.
const TRACES: [(&str, Want); 11] = [
    (r#"{"guest":{},"events":[]}"#, None),
    (r#"{"guest":{}}"#, Some((1, 0))),
    (r#"{"events":[]}"#, Some((1, 0))),
    (r#"{"guest":{},"events":[],"pes":1}"#, Some((1, 0))),
    (r#"{"guest":{},"events":{}}"#, Some((1, 0))),
    (r#"{"guest":[],"events":[]}"#, Some((1, 0))),
    (r#"[]"#, Some((1, 0))),
    (r#"{"guest":{"vcpus":33},"events":[{}]}"#, Some((2, 0))),
    (
        r#"{"guest":{"irqs":[{"id":99}]},"events":[]}"#,
        Some((4, 0)),
    ),
    (
        r#"{"guest":{},"events":[{"by":["v",0],"end":null},{"by":["v",1],"end":null},{}]}"#,
        Some((4, 2)),
    ),
    (
        r#"{"guest":{},"events":[{"by":["v",0],"end":null},{}]}"#,
        Some((1, 2)),
    ),
];

#[test]
fn asks_for_one_field(rt: HostRuntime) -> Result<(), Fail> {
    expect_faults(&rt, rt.alloc(), &FIELDS)
}

#[test]
fn reads_calls(rt: HostRuntime) -> Result<(), Fail> {
    expect_faults(&rt, rt.alloc(), &CALLS)
}

#[test]
fn reads_names(rt: HostRuntime) -> Result<(), Fail> {
    expect_faults(&rt, rt.alloc(), &NAMES)
}

#[test]
fn reads_answers(rt: HostRuntime) -> Result<(), Fail> {
    expect_faults(&rt, rt.alloc(), &ANSWERS)
}

#[test]
fn reads_touches(rt: HostRuntime) -> Result<(), Fail> {
    expect_faults(&rt, rt.alloc(), &TOUCHES)
}

#[test]
fn reads_places(rt: HostRuntime) -> Result<(), Fail> {
    expect_faults(&rt, rt.alloc(), &PLACES)
}

#[test]
fn reads_what_stands_outside(rt: HostRuntime) -> Result<(), Fail> {
    expect_faults_of_traces(&rt, rt.alloc(), &TRACES)
}
