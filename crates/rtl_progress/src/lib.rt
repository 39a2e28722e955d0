//! How far a simulation is, shown while it runs.
//!
//! `specs/Shown.antt` says what is shown, and `specs/Stops.antt` until when a stimulus asks to
//! simulate.
#![tactic(auto)]

mod progress;
mod stops;

pub use progress::Progress;
pub use stops::stop_of;
