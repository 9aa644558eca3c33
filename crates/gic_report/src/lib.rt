//! The text of a run and of the rest of a saved one, and the line of one of a generated scenario.
#![tactic(auto)]

mod lines;
mod show;
mod soak;
mod whole;

pub use gic_io::{
    Bytes, Failed, Gate, MemSink, MemSource, OpenGate, ReadError, Sink, Source, StdSink, StdSource,
    SureSink, SureSource, read_all, write_all,
};
pub use gic_soak::generate;
pub use soak::soak_line;
pub use whole::{text, text_saved};
