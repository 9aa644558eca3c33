//! The top call: from words and bytes to bytes and a status.
#![tactic(auto)]

mod command;
mod judge;
mod save;
mod shown;
mod tool;

pub use command::Command;
pub use gic_check::{EventList, Trace, TraceEvent, Verdict, check, read_trace};
pub use gic_host as host;
pub use gic_host::report::{
    Bytes, Failed, Gate, MemSink, MemSource, OpenGate, Sink, Source, StdSink, StdSource, SureSink,
    SureSource, generate, text,
};
pub use gic_host::scenarios::{
    Answer, DeviceOp, Frame, GuestOp, GuestShape, GuestSpec, Guests, IccReg, Key, ListOf, MAX_PES,
    Mode, NoMemory, PeOp, Preset, PresetList, RunOut, Scenario, Standing, Step, Steps, read,
};
pub use image_read::{BAD_IMAGE, read_image};
pub use run_saved::{Command as QueueCommand, SeqWatch, eager, encode, run as run_seq_run};
pub use run_thr::{ThrWatch, run as run_thr_run};
pub use save::STEP_RANGE;
pub use shown::{NOTHING_SHOWN, Shown};
pub use tool::{
    BAD_JSON, BAD_SCENARIO, CANNOT_BE, MAX_INPUT, NO_MEMORY, OK, READ_FAULT, TOO_LONG, USAGE,
    WRITE_FAULT, refuse_words, run_tool,
};
