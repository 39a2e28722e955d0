//! What is printed of a netlist and of the checker's judgement of it, in lines.
//!
//! `specs/NetText.antt` and `specs/CheckText.antt` define the lines, `specs/DotText.antt` the graph
//! of an accepted netlist's levels, and `specs/Printing.antt` says what goes out of them where
//! memory is refused.
#![tactic(auto)]

mod checking;
mod graph;
mod levels;
mod names;
mod nets;
mod rejection;
mod report;
mod sources;
mod texts;
mod variables;

pub use checking::show_check;
pub use graph::driver_of;
pub use levels::greatest_level;
pub use names::{net_name, process_name, source_name};
pub use nets::show_net;
pub use rejection::show_faults;
pub use report::{Circle, circle_of, place_of, report_of, words_for};
pub use texts::{push_decimal, push_title};
pub use variables::element_of;
