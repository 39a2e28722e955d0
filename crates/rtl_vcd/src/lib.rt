//! The trace of a simulation as a four-state value change dump (IEEE 1364-2005, clause 18): the
//! header, the values at 0, the changes at each later time, and the end.
//!
//! `specs/Header.antt` and `specs/Trace.antt` define the text of each part, and `trace_text` the
//! whole.
#![tactic(auto)]

mod blocks;
mod change;
mod ending;
mod fault;
mod heading;
mod laws;
mod moment;
mod named;
mod page;
mod positions;
mod ready;
mod trace;

pub use byte_streams::{Out, Sink, WriteFailed};
pub use fault::VcdFault;
pub use heading::header;
pub use laws::{codes_differ, print_as_said};
pub use moment::Blocks;
pub use trace::{end, first};
