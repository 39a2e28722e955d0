//! Where printed text goes, and where an input comes from: a sink takes bytes in order, and a
//! reader gives them, until it fails. What looks on while a netlist is simulated: a watch is told
//! what the nets settle to, moment by moment.
//!
//! `specs/Written.antt`, `specs/Read.antt` and `specs/Stands.antt` have the words in which
//! contracts say what was written, read and told.
#![tactic(auto)]

mod nowhere;
mod reader;
mod sink;
mod texts;
mod watch;
mod writer;

pub use nowhere::Nowhere;
pub use reader::{In, Reader};
pub use sink::{Sink, WriteFailed};
pub use texts::{finish, push_line, push_number, push_text};
pub use watch::{Unwatched, Watch};
pub use writer::Out;
