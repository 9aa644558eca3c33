//! Traces that have one event of interest.
use serde_json::Value;
use std::alloc::Global;
use std::process::Abort;
use std::test::Fail;
use trace_read::{ReadRefusal, Trace, TraceEvent, read_trace};

/// The fault that is wanted: its code, and the number of its event. None where there is none.
pub(crate) type Want = Option<(u8, u32)>;

/// Two vCPUs, two devices, SPIs of both kinds, 16 LPIs and eight words of memory.
const GUEST: &str = r#"{"vcpus":2,"devices":2,"espis":32,"lpis":16,"ram":64}"#;

/// What a trace of that guest with these events is read as.
fn read_of(alloc: Global, events: &str) -> Result<Result<Trace, ReadRefusal>, Fail> {
    let text = format!(in alloc; "{{\"guest\":{GUEST},\"events\":[{events}]}}")?;
    let value = Value::from_str(alloc, text.as_str())?;
    Ok(read_trace(alloc, &value))
}

/// The event that is read of a trace that has no other.
pub(crate) fn event_of(alloc: Global, event: &str) -> Result<TraceEvent, Fail> {
    match read_of(alloc, event)? {
        Ok(trace) => Ok(*trace.events.get(0).ok_or("no event")?),
        Err(_) => Err(Fail::from("not read")),
    }
}

/// The fault of a value that is read.
fn fault_of(read: Result<Trace, ReadRefusal>) -> Result<Want, Fail> {
    match read {
        Ok(_) => Ok(None),
        Err(ReadRefusal::Bad(fault)) => Ok(Some((fault.code, fault.step))),
        Err(ReadRefusal::NoMemory) => Err(Fail::from("no memory")),
    }
}

/// Reads each event in a trace of its own, and compares the fault.
pub(crate) fn expect_faults(
    rt: &impl Abort,
    alloc: Global,
    rows: &[(&str, Want)],
) -> Result<(), Fail> {
    for (event, want) in rows {
        let fault = fault_of(read_of(alloc, event)?)?;
        assert_eq!(rt; fault, *want, "{event}");
    }
    Ok(())
}

/// Reads each value as a trace, and compares the fault.
pub(crate) fn expect_faults_of_traces(
    rt: &impl Abort,
    alloc: Global,
    rows: &[(&str, Want)],
) -> Result<(), Fail> {
    for (text, want) in rows {
        let value = Value::from_str(alloc, text)?;
        let fault = fault_of(read_trace(alloc, &value))?;
        assert_eq!(rt; fault, *want, "{text}");
    }
    Ok(())
}
