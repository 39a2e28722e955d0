//! The synchronous machine, registers first and then visits of processes in order of levels: a
//! simulation of an accepted netlist without delta cycles (`Machine`), and what running one process
//! does to a valuation, as laws over the definitions of `rtl_model`.
//!
//! `specs/Running.antt` says what it is for a process to be settled, written and reset, and
//! `specs/Laws.antt` has the laws. `specs/Machine.antt` is what callers see of a machine; its steps
//! are `rtl_model`'s `IsFirst` and `IsStep`. `specs/Visits.antt` says by which levels it may run,
//! and when it visits which process; `specs/Scheduled.antt`, `Marks.antt`, `States.antt`,
//! `Steps.antt` and `Kept.antt` say how its parts go together.
#![tactic(auto)]

mod clocked;
mod clocking;
mod entries;
mod inputs;
pub mod laws;
mod levels;
mod machine;
mod marks;
mod order;
mod running;
mod schedule;
mod state;
mod sweep;
mod wholes;

pub use machine::Machine;
