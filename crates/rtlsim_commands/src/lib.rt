//! The commands on a netlist: each does its work and writes to a sink, while a watch looks on. The
//! commands on a source: each opens it and does its work on the netlist; and what is told of its
//! answer.
//!
//! Each call that opens a source has a type for its first parameter that does so, by the contract
//! of `Front`.
//!
//! `specs/Listed.antt` says what `net` and `check` write, `specs/Machine.antt` what `run`, `run
//! --levels` and `eval` do, `specs/Simulated.antt` what `run --event` does, `specs/Tracing.antt`
//! what is shown of a run, `specs/Watched.antt` what is seen of it, and `specs/Expected.antt` what
//! is compared with what is expected of it. `specs/Opened.antt` says what a command answers that
//! opens a source, `specs/Served.antt` and `specs/Told.antt` what it leaves on both outputs, and
//! `specs/Unsettled.antt` what is told of nets that still change;
//! `specs/Wider.antt` says how far the wider language reads a source that is refused, and
//! `specs/Freed.antt` which of the checker's rules a source doesn't break in it, and which process
//! of a loop can be split.
#![tactic(auto)]

mod both;
mod command;
mod comparing;
mod ending;
mod freed;
mod listing;
mod noting;
mod opening;
mod printing;
mod remarking;
mod running;
mod serving;
mod tracing;
mod wider;

pub use both::Both;
pub use byte_streams::{Sink, Unwatched, Watch};
pub use command::{Answer, Command, Run, Site};
pub use comparing::Compared;
pub use ending::ended_by_writes;
pub use listing::Form;
pub use opening::{
    eval, on_source, run, run_event, run_levels, show_check, show_check_dot, show_net,
};
pub use printing::{CheckNet, EvalNet, ListNet};
pub use rtl_check::CheckFault;
pub use rtl_kernel::{Forward, Pick, Reverse};
pub use rtl_net::Net;
pub use rtl_run::LevelSummary;
pub use rtl_simulation::Summary;
pub use rtl_stim::StimFault;
pub use rtlsim_command_faults::{
    Fault, Status, Telling, push_memory, tell_fault, tell_levels, tell_source_fault, tell_summary,
};
pub use running::{MAX_DELTAS, RunEvents, RunLevels, RunMachine, Simulate};
pub use serving::{describe, serve};
pub use tracing::{Choice, Traced};
pub use vhdl_expand_rules::{ElabFault, ElabProblem};
pub use vhdl_front_rules::{Asked, Front, SourceFault};
pub use vhdl_names_rules::{NameFault, NameProblem};
pub use vhdl_source_files::SourceFile;
