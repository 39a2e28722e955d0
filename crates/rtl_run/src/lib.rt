//! Accepted netlists as synchronous machines: what the checker's yes means for a simulation, and
//! the calls that rest on it.
//!
//! `specs/Synchronous.antt` has the settling theorem, `specs/Traced.antt`, `specs/Admitted.antt`
//! and `specs/Answered.antt` say what `run_watched` answers, `specs/Watched.antt` what a watch is
//! told meanwhile, and `specs/Words.antt` and `specs/Evaluated.antt` what `eval` does.
//!
//! `run_levels_watched` runs an accepted netlist as the synchronous machine that it is, without
//! delta cycles. `specs/levels/Answered.antt` says what it answers, and `specs/levels/Laws.antt`
//! that it writes what `run_watched` writes. Its engine (`level_engine`) is one for the loop over
//! moments of rtl_simulation; `specs/levels/Settled.antt` says what is so of it at a moment.
//!
//! These calls ask that the ports of the netlist's top have names of their own, and that the
//! elements of its in ports are the netlist's inputs, in their order (`HasOwnPorts` of rtl_stim). A
//! netlist that a front gives has that (`Front::open` of vhdl_front_rules), and one that
//! `vhdl_elab::elaborate` gives of units whose ports have names of their own. Whoever makes a `Net`
//! of parts has to show it: `Net::new` doesn't ask it, and no call tests it.
#![tactic(auto)]

mod admission;
mod by_levels;
mod evaluation;
mod fault;
mod laws;
mod level_engine;
mod level_summary;
mod machine_levels;
mod ports;
mod prepared;
mod running;
mod stepping;
mod words;

pub use admission::{Admitted, admit};
pub use by_levels::run_levels_watched;
pub use evaluation::eval;
pub use fault::MachineFault;
pub use laws::{
    accepted_nets_are_synchronous, each_run_is_written_alike, each_trace_is_the_one, each_word_sets,
};
pub use level_summary::LevelSummary;
pub use machine_levels::MachineLevels;
pub use prepared::SLOTS;
pub use running::run_watched;
pub use stepping::Stepping;
