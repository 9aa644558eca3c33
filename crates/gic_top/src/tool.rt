//! From words and an input to a status, and the text or message that is written.

ghost use Rattle.std.specs.Prelude.{◌≡◌, ◌≢◌, ◌<◌, ◌≤◌, ◌⊎◌, ℕ, IfOk, IfErr, IfSome, OnOk, Some, None, Contains, false};
ghost use Rattle.serde_json.specs.View.{view};
ghost use Rattle.gic_host.specs.GicReport.GicIo.Faults.{HasRisen};
ghost use Rattle.gic_host.specs.GicReport.GicIo.Sink.{Grew};
ghost use Rattle.gic_host.specs.ScnRead.ScnBase.Good.{IsGood};
ghost use Rattle.gic_host.specs.GicReport.GicSoak.Generated.{generated};
ghost use Rattle.gic_top.specs.declared.command.Command.TheVariants.{Host};
ghost use Rattle.gic_top.specs.Command.{command_in, IsInBounds};
ghost use Rattle.gic_top.specs.Tool.{statuses, scenarios, first_steps, links, images, traces, input_reading, is_shown, soak_text, fault_line as line_of, MayAnswer, Showed, most_runs, IsOk, IsRefused, IsUsage, IsBadJson, IsBadScenario, IsReadFault, IsWriteFault, IsTooLong, IsNoMemory, IsOutcome, IsWritten, IsRefusal, HasItsAnswer, WasShown};
ghost use Rattle.gic_top.specs.Reply.{mode_of, reading_of, is_watched, status_of, text_of, IsWay, IsAsked, IsRunText, IsSaveText, IsHostText, IsResumeText, IsYesText, AreApart, IsValueReply, IsReplyTo, IsReplyOf, IsSoakReply, IsReplyFor, IsUnrun};

use crate::command::Command;
use crate::judge::{Judged, judge};
use crate::save::{read_first, resumed_text, saved_line};
use gic_check::read_trace;
use gic_host::report::{
    Bytes, Gate, ReadError, Sink, Source, generate, read_all, soak_line, text, write_all,
};
use gic_host::scenarios::{Fault, MAX_STEPS, Mode, NoMemory, ReadRefusal, RunOut, Scenario, read};
use gic_host::{read_host, run_host};
use image_read::read_image;
use run_saved::SeqWatch;
use run_thr::ThrWatch;
use serde_json::Value;
use std::alloc::{AllocError, Global};
use std::sync::Wait;
use std::thread::Threads;

/// The most bytes of an input.
pub const MAX_INPUT: usize = 16_777_216;

/// The status of a run whose text was written, and of a trace that can be.
pub const OK: u8 = 0;
/// The status of a trace that cannot be.
pub const CANNOT_BE: u8 = 1;
/// The status where the words are no command.
pub const USAGE: u8 = 2;
/// The status where the input is no JSON.
pub const BAD_JSON: u8 = 3;
/// The status where the input is not what the command reads, or has a fault.
pub const BAD_SCENARIO: u8 = 4;
/// The status where the input could not be read.
pub const READ_FAULT: u8 = 5;
/// The status where a text or a message was not taken whole.
pub const WRITE_FAULT: u8 = 6;
/// The status where the input is longer than the limit.
pub const TOO_LONG: u8 = 7;
/// The status where memory was refused.
pub const NO_MEMORY: u8 = 9;

/// What the tool has to write.
#[derive(Drop)]
enum Reply {
    /// The text of a run or of the rest of one, the line of a generated scenario's, an image, or the line of a trace that can be.
    Ran(Bytes),
    /// The line of a trace that cannot be.
    Refused(Bytes),
    Usage,
    BadJson,
    /// The line of a scenario's fault.
    BadScenario(Bytes),
    ReadFault,
    TooLong,
    NoMemory,
}

impl Reply {
    fn status(&self) -> u8
        ensures { result ≡ status_of self.now }
    {
        match self {
            Reply::Ran(_) => OK,
            Reply::Refused(_) => CANNOT_BE,
            Reply::Usage => USAGE,
            Reply::BadJson => BAD_JSON,
            Reply::BadScenario(_) => BAD_SCENARIO,
            Reply::ReadFault => READ_FAULT,
            Reply::TooLong => TOO_LONG,
            Reply::NoMemory => NO_MEMORY,
        }
    }

    fn as_bytes(&self) -> &[u8]
        ensures { result.now ≡ text_of self.now }
    {
        match self {
            Reply::Ran(text) | Reply::Refused(text) | Reply::BadScenario(text) => text.as_slice(),
            Reply::Usage => b"usage\n",
            Reply::BadJson => b"bad json\n",
            Reply::ReadFault => b"read fault\n",
            Reply::TooLong => b"too long\n",
            Reply::NoMemory => b"no memory\n",
        }
    }
}

/// The line of a scenario's fault.
fn fault_line(alloc: Global, fault: Fault) -> Result<Bytes, NoMemory>
    ensures { IfOk result (λ line. line ≡ line_of fault) }
{
    let line = format!(in alloc; "bad scenario: {fault}\n")?;
    Ok(Bytes::from(line.into_bytes()))
}

/// How a scenario that is read is run.
#[derive(Clone, Copy, Debug, PartialEq, Eq)]
enum Way {
    /// Its steps one after the other.
    InOrder,
    /// Its vCPUs and devices on threads.
    OnPes {
        /// How many PEs there are, each a thread.
        pes: u32,
        /// How many operations a vCPU does at most while it is on one.
        per_turn: u32,
    },
}

impl Way {
    /// For which mode the scenario is read.
    fn mode(self) -> Mode
        ensures { result ≡ mode_of self }
    {
        match self {
            Way::InOrder => Mode::Schedule,
            Way::OnPes { .. } => Mode::Threads,
        }
    }
}

/// Runs a scenario, and shows that to the watch.
fn make_run<R: Threads + Wait + Sync, G: Gate + Sync, W: SeqWatch + ThrWatch>(
    rt: &R,
    alloc: Global,
    way: Way,
    scenario: &Scenario,
    gate: &G,
    watch: &mut W,
) -> Result<RunOut, NoMemory>
    requires good { IsGood (mode_of way) scenario.now }
    requires way { IsWay way }
    requires room { W.scheduled watch.old < most_runs }
    requires threads_room { W.threaded watch.old < most_runs }
    ensures answers { IfOk result (MayAnswer (mode_of way) scenario.now) }
    ensures shown { OnOk result (Showed W.scheduled W.last_schedule W.threaded W.last_threads watch.old watch.new (mode_of way) scenario.now) }
{
    match way {
        Way::InOrder => run_saved::run(rt, alloc, scenario, watch),
        Way::OnPes { pes, per_turn } => {
            run_thr::run(rt, alloc, scenario, pes, per_turn, gate, watch)
        }
    }
}

/// The text of a scenario's run, which is shown to the watch.
fn run<R: Threads + Wait + Sync, G: Gate + Sync, W: SeqWatch + ThrWatch>(
    rt: &R,
    alloc: Global,
    way: Way,
    scenario: &Scenario,
    gate: &G,
    watch: &mut W,
) -> Result<Bytes, NoMemory>
    requires good { IsGood (mode_of way) scenario.now }
    requires way { IsWay way }
    requires room { W.scheduled watch.old < most_runs }
    requires threads_room { W.threaded watch.old < most_runs }
    ensures { IfOk result (IsRunText (mode_of way) (Showed W.scheduled W.last_schedule W.threaded W.last_threads watch.old watch.new) scenario.now) }
{
    let out = make_run(rt, alloc, way, scenario, gate, watch)?;
    text(alloc, scenario, &out)
}

/// The line of the run of the scenario that a number stands for. The run is shown to the watch.
fn soak<R: Wait, W: SeqWatch>(
    rt: &R,
    alloc: Global,
    number: u64,
    steps: u32,
    watch: &mut W,
) -> Result<Bytes, NoMemory>
    requires few { steps ≤ MAX_STEPS }
    requires room { W.scheduled watch.old < most_runs }
    ensures written { IfOk result (λ written. written ≡ soak_text number steps) }
    ensures shown { OnOk result (WasShown (W.scheduled watch.old) (W.scheduled watch.new) (W.last_schedule watch.new) (generated number steps)) }
{
    let scenario = generate(alloc, number, steps)?;
    let out = run_saved::run(rt, alloc, &scenario, watch)?;
    soak_line(alloc, number, &out)
}

/// The reply to `soak`.
fn reply_to_soak<R: Wait, W: SeqWatch>(
    rt: &R,
    alloc: Global,
    number: u64,
    steps: u32,
    watch: &mut W,
) -> Reply
    requires few { steps ≤ MAX_STEPS }
    requires room { W.scheduled watch.old < most_runs }
    ensures reply { IsSoakReply (WasShown (W.scheduled watch.old) (W.scheduled watch.new) (W.last_schedule watch.new)) number steps result }
    ensures unwatched { IsUnrun result → watch.new ≡ watch.old }
{
    match soak(rt, alloc, number, steps, watch) {
        Ok(line) => Reply::Ran(line),
        Err(NoMemory) => Reply::NoMemory,
    }
}

/// What an input is read as, and how that is run.
#[derive(Clone, Copy, Debug, PartialEq, Eq)]
enum Asked {
    /// A scenario, to be run so.
    ScenarioRun(Way),
    /// A scenario, of which so many steps are done and the rest is saved.
    FirstSteps(u32),
    /// Links of physical interrupts.
    LinksRun,
    /// An image, of which the rest is done.
    ImageRun,
    /// A trace, to be judged.
    TraceCheck,
}

/// The reply to a value that is read as a scenario. A run is shown to the watch.
fn scenario_reply<R: Threads + Wait + Sync, G: Gate + Sync, W: SeqWatch + ThrWatch>(
    rt: &R,
    alloc: Global,
    way: Way,
    value: &Value,
    gate: &G,
    watch: &mut W,
) -> Result<Reply, NoMemory>
    requires way { IsWay way }
    requires room { W.scheduled watch.old < most_runs }
    requires threads_room { W.threaded watch.old < most_runs }
    ensures reply { IfOk result (IsValueReply (scenarios (mode_of way))
        (IsRunText (mode_of way) (Showed W.scheduled W.last_schedule W.threaded W.last_threads watch.old watch.new)) (view value.now)) }
    ensures unwatched { IfOk result (λ reply. IsUnrun reply → watch.new ≡ watch.old) }
{
    match read(alloc, value, way.mode()) {
        Ok(scenario) => Ok(Reply::Ran(run(rt, alloc, way, &scenario, gate, watch)?)),
        Err(ReadRefusal::Bad(fault)) => Ok(Reply::BadScenario(fault_line(alloc, fault)?)),
        Err(ReadRefusal::NoMemory) => Err(NoMemory),
    }
}

/// The reply to a value that is read as links.
fn links_reply(alloc: Global, value: &Value) -> Result<Reply, NoMemory>
    ensures { IfOk result (IsValueReply links IsHostText (view value.now)) }
{
    match read_host(alloc, value) {
        Ok(scenario) => Ok(Reply::Ran(run_host(alloc, &scenario)?)),
        Err(ReadRefusal::Bad(fault)) => Ok(Reply::BadScenario(fault_line(alloc, fault)?)),
        Err(ReadRefusal::NoMemory) => Err(NoMemory),
    }
}

/// The reply to a value that is read as a scenario of which so many steps are done.
fn save_reply<R: Wait>(rt: &R, alloc: Global, steps: u32, value: &Value) -> Result<Reply, NoMemory>
    ensures { IfOk result (IsValueReply (first_steps steps) (IsSaveText steps) (view value.now)) }
{
    match read_first(alloc, value, steps) {
        Ok(scenario) => Ok(Reply::Ran(saved_line(rt, alloc, &scenario, steps)?)),
        Err(ReadRefusal::Bad(fault)) => Ok(Reply::BadScenario(fault_line(alloc, fault)?)),
        Err(ReadRefusal::NoMemory) => Err(NoMemory),
    }
}

/// The reply to a value that is read as an image.
fn resume_reply<R: Wait>(rt: &R, alloc: Global, value: &Value) -> Result<Reply, NoMemory>
    ensures reply { IfOk result (IsValueReply images IsResumeText (view value.now)) }
    ensures apart { OnOk result (AreApart images (view value.now)) }
{
    match read_image(alloc, value) {
        Ok(saved) => Ok(Reply::Ran(resumed_text(rt, alloc, &saved)?)),
        Err(ReadRefusal::Bad(fault)) => Ok(Reply::BadScenario(fault_line(alloc, fault)?)),
        Err(ReadRefusal::NoMemory) => Err(NoMemory),
    }
}

/// The reply to a value that is read as a trace.
fn check_reply(alloc: Global, value: &Value) -> Result<Reply, NoMemory>
    ensures { IfOk result (IsValueReply traces IsYesText (view value.now)) }
{
    let trace = match read_trace(alloc, value) {
        Ok(trace) => trace,
        Err(ReadRefusal::Bad(fault)) => {
            return Ok(Reply::BadScenario(fault_line(alloc, fault)?));
        }
        Err(ReadRefusal::NoMemory) => return Err(NoMemory),
    };
    match judge(alloc, &trace)? {
        Judged::Yes(line) => Ok(Reply::Ran(line)),
        Judged::No(line) => Ok(Reply::Refused(line)),
    }
}

/// The reply to the bytes of an input. A run of a whole scenario is shown to the watch, and no other.
fn reply_to<R: Threads + Wait + Sync, G: Gate + Sync, W: SeqWatch + ThrWatch>(
    rt: &R,
    alloc: Global,
    asked: Asked,
    bytes: &[u8],
    gate: &G,
    watch: &mut W,
) -> Result<Reply, NoMemory>
    requires asked { IsAsked asked }
    requires room { W.scheduled watch.old < most_runs }
    requires threads_room { W.threaded watch.old < most_runs }
    ensures reply { IfOk result (IsReplyTo (reading_of asked) (Showed W.scheduled W.last_schedule W.threaded W.last_threads watch.old watch.new) bytes.now) }
    ensures unwatched { IfOk result (λ reply. IsUnrun reply → watch.new ≡ watch.old) }
    ensures unshown { is_watched asked ≡ false → watch.new ≡ watch.old }
{
    let value = match Value::from_slice(alloc, bytes) {
        Ok(value) => value,
        Err(error) if error.is_memory() => return Err(NoMemory),
        Err(_) => return Ok(Reply::BadJson),
    };
    match asked {
        Asked::ScenarioRun(way) => scenario_reply(rt, alloc, way, &value, gate, watch),
        Asked::FirstSteps(steps) => save_reply(rt, alloc, steps, &value),
        Asked::LinksRun => links_reply(alloc, &value),
        Asked::ImageRun => resume_reply(rt, alloc, &value),
        Asked::TraceCheck => check_reply(alloc, &value),
    }
}

/// The reply to what a source has left. A run of a whole scenario is shown to the watch, and no other.
fn reply_of<R: Threads + Wait + Sync, S: Source, G: Gate + Sync, W: SeqWatch + ThrWatch>(
    rt: &R,
    alloc: Global,
    asked: Asked,
    source: &mut S,
    gate: &G,
    watch: &mut W,
) -> Reply
    requires asked { IsAsked asked }
    requires room { W.scheduled watch.old < most_runs }
    requires threads_room { W.threaded watch.old < most_runs }
    ensures reply { IsReplyOf (reading_of asked) (Showed W.scheduled W.last_schedule W.threaded W.last_threads watch.old watch.new)
        (S.left source.old) (S.left source.new) (S.faults source.old) (S.faults source.new) result }
    ensures unwatched { IsUnrun result → watch.new ≡ watch.old }
    ensures unshown { is_watched asked ≡ false → watch.new ≡ watch.old }
{
    match read_all(alloc, source, MAX_INPUT) {
        Ok(bytes) => {
            reply_to(rt, alloc, asked, bytes.as_slice(), gate, watch).unwrap_or(Reply::NoMemory)
        }
        Err(ReadError::ReadFault) => Reply::ReadFault,
        Err(ReadError::TooLong) => Reply::TooLong,
        Err(ReadError::NoMemory) => Reply::NoMemory,
    }
}

/// The reply to a command, or to words that are none, and to what a source has left. A run of a whole scenario is shown to the watch, and no other.
fn reply_for<R: Threads + Wait + Sync, S: Source, G: Gate + Sync, W: SeqWatch + ThrWatch>(
    rt: &R,
    alloc: Global,
    command: Option<Command>,
    source: &mut S,
    gate: &G,
    watch: &mut W,
) -> Reply
    requires bounded { IfSome command IsInBounds }
    requires room { W.scheduled watch.old < most_runs }
    requires threads_room { W.threaded watch.old < most_runs }
    ensures reply { IsReplyFor (Showed W.scheduled W.last_schedule W.threaded W.last_threads watch.old watch.new)
        command (S.left source.old) (S.left source.new) (S.faults source.old) (S.faults source.new) result }
    ensures unread { input_reading command ≡ None → source.new ≡ source.old }
    ensures unwatched { IsUnrun result → watch.new ≡ watch.old }
    ensures unshown { is_shown command ≡ false → watch.new ≡ watch.old }
{
    match command {
        Some(Command::Run) => {
            let asked = Asked::ScenarioRun(Way::InOrder);
            reply_of(rt, alloc, asked, source, gate, watch)
        }
        Some(Command::Threads { pes, per_turn }) => {
            let asked = Asked::ScenarioRun(Way::OnPes { pes, per_turn });
            reply_of(rt, alloc, asked, source, gate, watch)
        }
        Some(Command::Soak { number, steps }) => reply_to_soak(rt, alloc, number, steps, watch),
        Some(Command::Host) => reply_of(rt, alloc, Asked::LinksRun, source, gate, watch),
        Some(Command::Save { steps }) => {
            reply_of(rt, alloc, Asked::FirstSteps(steps), source, gate, watch)
        }
        Some(Command::Resume) => reply_of(rt, alloc, Asked::ImageRun, source, gate, watch),
        Some(Command::Check) => reply_of(rt, alloc, Asked::TraceCheck, source, gate, watch),
        None => Reply::Usage,
    }
}

/// Writes what is to be written of a reply, and answers its status, or that of a fault of the sink.
fn tell<K: Sink>(sink: &mut K, reply: &Reply) -> u8
    ensures { IsWritten (K.taken sink.old) (K.taken sink.new) (K.faults sink.old) (K.faults sink.new) (text_of reply.now) (status_of reply.now) result }
{
    match write_all(sink, reply.as_bytes()) {
        Ok(()) => reply.status(),
        Err(_) => WRITE_FAULT,
    }
}

/// Writes that memory was refused, where there was none for the words, and answers the status.
pub fn refuse_words<K: Sink>(sink: &mut K) -> u8
    ensures closed { Contains statuses result }
    ensures refused { IsRefusal (K.taken sink.old) (K.taken sink.new) (K.faults sink.old) (K.faults sink.new) result }
{
    tell(sink, &Reply::NoMemory)
}

/// Does what the words ask for, and answers the status with which the program ends.
///
/// `run` reads a scenario from the source, in JSON, does its steps one after the other, and writes the text of the run to the
/// sink. `threads P Q` does so on P PEs, each a thread, with up to Q operations of a vCPU while it is on one, and each device in a
/// thread of its own; the PEs pass the gate. `soak N STEPS` makes the scenario of the number N, of so many steps, and writes one
/// line of its run. Each such run goes through the interrupt words of its guests and vCPUs that enter and leave PEs with the scenario's
/// list registers, and is shown to the watch, which was shown less than 2^64 - 1 of either kind before. `host` reads physical interrupts
/// with their links to virtual ones from the source, does the steps with them on list registers, and writes their text; it is shown to no
/// watch. `save STEP` reads a scenario, does its first steps as `run` does, and writes one line, the image of what is saved then; where it has
/// fewer steps, that is its fault, with the code [`STEP_RANGE`](crate::STEP_RANGE). `resume` reads an image, and writes what `run` would have
/// written after those steps. Both are shown to no watch. `check` reads a trace of one guest, and writes `yes` and the number of its events where it can
/// be a record of what the guest's actors did, with the status [`OK`], and else `no` and the least number of its first events that cannot, with
/// [`CANNOT_BE`]; it makes no run. A text or a message is built whole before its first byte is written. The words are those after the program's name. The status is [`OK`] or another of this module's.
pub fn run_tool<
    R: Threads + Wait + Sync,
    S: Source,
    K: Sink,
    G: Gate + Sync,
    W: SeqWatch + ThrWatch,
>(
    rt: &R,
    alloc: Global,
    words: &[String],
    source: &mut S,
    sink: &mut K,
    gate: &G,
    watch: &mut W,
) -> u8
    requires room { W.scheduled watch.old < most_runs }
    requires threads_room { W.threaded watch.old < most_runs }

    // The status is one of the table's, and says what was read, shown and written.
    ensures closed { Contains statuses result }
    ensures outcome { IsOutcome (command_in words.now) (S.left source.old) (S.left source.new) (S.faults source.old) (S.faults source.new)
        (K.taken sink.old) (K.taken sink.new) (K.faults sink.old) (K.faults sink.new)
        (Showed W.scheduled W.last_schedule W.threaded W.last_threads watch.old watch.new) result }

    // What was read, shown and written, status by status.
    ensures ok { result ≡ 0 →
        IsOk (command_in words.now) (S.left source.old) (S.left source.new) (Grew (K.taken sink.old) (K.taken sink.new))
        (Showed W.scheduled W.last_schedule W.threaded W.last_threads watch.old watch.new) }
    ensures refused { result ≡ 1 →
        IsRefused (command_in words.now) (S.left source.old) (S.left source.new) (Grew (K.taken sink.old) (K.taken sink.new)) }
    ensures usage { result ≡ 2 → IsUsage (command_in words.now) (Grew (K.taken sink.old) (K.taken sink.new)) }
    ensures bad_json { result ≡ 3 →
        IsBadJson (command_in words.now) (S.left source.old) (S.left source.new) (Grew (K.taken sink.old) (K.taken sink.new)) }
    ensures bad_scenario { result ≡ 4 →
        IsBadScenario (command_in words.now) (S.left source.old) (S.left source.new) (Grew (K.taken sink.old) (K.taken sink.new)) }
    ensures read_fault { result ≡ 5 →
        IsReadFault (command_in words.now) (S.faults source.old) (S.faults source.new) (Grew (K.taken sink.old) (K.taken sink.new)) }
    ensures write_fault { result ≡ 6 →
        IsWriteFault (command_in words.now) (S.left source.old) (S.left source.new) (S.faults source.old) (S.faults source.new)
        (K.taken sink.old) (K.taken sink.new) (K.faults sink.old) (K.faults sink.new)
        (Showed W.scheduled W.last_schedule W.threaded W.last_threads watch.old watch.new) }
    ensures too_long { result ≡ 7 →
        IsTooLong (command_in words.now) (S.left source.old) (S.left source.new) (Grew (K.taken sink.old) (K.taken sink.new)) }
    ensures no_memory { result ≡ 9 →
        IsNoMemory (command_in words.now) (S.left source.old) (S.left source.new) (Grew (K.taken sink.old) (K.taken sink.new)) }

    // Words that are no command are refused, and only a command that reads its input does.
    ensures usage_where_no_command { command_in words.now ≡ None → (result ≡ 2) ⊎ (result ≡ 6) }
    ensures unread_unless_asked { input_reading (command_in words.now) ≡ None → source.new ≡ source.old }

    // The watch is as it was, but where a run was made, or may have been.
    ensures unwatched { result ≢ 0 → result ≢ 6 → result ≢ 9 → watch.new ≡ watch.old }
    ensures host_unwatched { command_in words.now ≡ Some Command.Host → watch.new ≡ watch.old }
    ensures unshown { is_shown (command_in words.now) ≡ false → watch.new ≡ watch.old }

    // Where no fault comes from outside, each input has its answer.
    ensures complete { IfSome (input_reading (command_in words.now)) (λ reading.
        ¬ HasRisen (S.faults source.old) (S.faults source.new)
        → ¬ HasRisen (K.faults sink.old) (K.faults sink.new)
        → IfSome (S.left source.old) (λ bytes. HasItsAnswer reading bytes result)) }

    // `soak` needs no input.
    ensures soak_complete { (number steps : ℕ) → command_in words.now ≡ Some (Command.Soak number steps)
        → ¬ HasRisen (K.faults sink.old) (K.faults sink.new)
        → (result ≡ 0) ⊎ (result ≡ 9) }
{
    let reply = reply_for(rt, alloc, Command::of(words), source, gate, watch);
    tell(sink, &reply)
}
