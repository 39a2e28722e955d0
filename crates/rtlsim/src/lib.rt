//! The simulator as one library: from the bytes of a source to the bytes of the answer.
//!
//! The commands are those of rtlsim_commands, and so is `Front`, by whose contract each call that
//! has it for its first type parameter opens sources. `specs/Tools.antt` says what the program does
//! for its words, `specs/Requests.antt` which files it reads for them, `specs/Inputs.antt` what a
//! read gives, and `specs/Unread.antt` what is told of an input that isn't read. The module `laws`
//! has the laws of accepted netlists.
#![tactic(auto)]

mod arguments;
mod first_line;
mod halves;
mod inputs;
mod job;
pub mod laws;
mod performing;
mod prepared;
mod problem;
mod refusals;
mod streams;
mod texts;
mod tools;
mod unread;

pub use first_line::tool_first_line;
pub use halves::halves_at_line;
pub use inputs::{InputFault, Inputs, MAX_INPUT, Named, Standard, read_input};
pub use problem::InputProblem;
pub use rtlsim_command_line::{Call, Order, Refused, Request, parse_words};
pub use rtlsim_commands::{
    CheckFault, ElabFault, ElabProblem, Fault, Forward, Front, LevelSummary, NameFault,
    NameProblem, Net, Pick, Reverse, Sink, SourceFile, Status, StimFault, Summary, Telling, eval,
    run, run_event, run_levels, show_check, show_check_dot, show_net,
};
pub use streams::{Ended, exit_code, program};
pub use tools::{perform, tool, tool_with};
