//! The simulation of a netlist under a stimulus, with its trace.
//!
//! A simulation goes from the first moment to the stop (IEEE 1076-2008, 14.7.5; IEEE 1364-2005,
//! clause 18). `specs/Simulated.antt` says what the moments settle to, `specs/Traced.antt` what
//! their trace is, and `specs/Answered.antt` what a simulation answers. Whatever the order of
//! processes, it answers alike and writes the same bytes (`specs/Laws.antt`).
//!
//! One loop goes over the moments (`course`), with an engine that lets each moment settle
//! (`engine`): here by events (`event_engine`), in rtl_run also by levels. `specs/Engines.antt`
//! says what is so of an engine at a moment, and `specs/Progress.antt` how far the loop has come.
#![tactic(auto)]

mod course;
mod engine;
mod event_engine;
mod laws;
mod progress;
mod simulation;
mod summary;

pub use course::Course;
pub use engine::Engine;
pub use event_engine::EventEngine;
pub use laws::each_order_is_written_alike;
pub use simulation::Simulation;
pub use summary::{RunFault, Summary};
