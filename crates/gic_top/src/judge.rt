//! The verdict on a trace, as a line.

ghost use Rattle.std.specs.Prelude.{◌≡◌, ◌≤◌, IfOk, length};
ghost use Rattle.gic_check.specs.TraceRead.Reading.{AreThere};
ghost use Rattle.gic_check.specs.TraceTold.Calls.{IsGoodGuest};
ghost use Rattle.gic_top.specs.Tool.{yes_line as yes_line_of, no_line as no_line_of};
ghost use Rattle.gic_top.specs.Reply.{IsLineOf};

use gic_check::{Trace, Verdict, check};
use gic_host::report::Bytes;
use gic_host::scenarios::NoMemory;
use std::alloc::{AllocError, Global};

/// The line of a verdict.
#[derive(Drop)]
pub(crate) enum Judged {
    /// Of a trace that can be.
    Yes(Bytes),
    /// Of one that cannot.
    No(Bytes),
}

/// The line of a trace that can be.
fn yes_line(alloc: Global, trace: &Trace) -> Result<Bytes, AllocError>
    ensures { IfOk result (λ line. line ≡ yes_line_of trace.now) }
{
    let line = format!(in alloc; "yes {}\n", trace.events.len())?;
    Ok(Bytes::from(line.into_bytes()))
}

/// The line of a trace that cannot be, of which this is the least number of first events that cannot.
fn no_line(alloc: Global, index: u32) -> Result<Bytes, AllocError>
    ensures { IfOk result (λ line. line ≡ no_line_of index) }
{
    let line = format!(in alloc; "no {index}\n")?;
    Ok(Bytes::from(line.into_bytes()))
}

/// Judges a trace. `NoMemory` where memory is refused.
pub(crate) fn judge(alloc: Global, trace: &Trace) -> Result<Judged, NoMemory>
    requires good { IsGoodGuest trace.now.guest }
    requires few { length trace.now.events ≤ 100000 }
    requires there { AreThere trace.now.guest.shape trace.now.events }
    ensures { IfOk result (IsLineOf trace.now) }
{
    match check(alloc, trace)? {
        Verdict::Yes => Ok(Judged::Yes(yes_line(alloc, trace)?)),
        Verdict::No { index } => Ok(Judged::No(no_line(alloc, index)?)),
    }
}
