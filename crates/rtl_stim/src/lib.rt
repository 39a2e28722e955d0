//! Stimuli of netlists: `Stimulus`, which a text says of the in ports of a netlist's top, and what
//! an agenda is filled with.
//!
//! `specs/Ports.antt` says which inputs a netlist has, and `specs/Stimuli.antt` what a stimulus is.
//! A `StimFault` names the `StimRule` that a line breaks.
#![tactic(auto)]

mod by_inputs;
mod filling;
mod laws;
mod ports;
mod races;
mod reading;
mod stimulus;

pub use fault_rules::StimRule;
pub use laws::{agenda_gives_moments, times_show_races};
pub use races::{Race, first_race};
pub use rtl_agenda::{Agenda, Change, MapAgenda, NoMemory, Wheel};
pub use rtl_stim_lines::StimFault;
pub use stimulus::Stimulus;
