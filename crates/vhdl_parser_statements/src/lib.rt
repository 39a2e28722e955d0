//! From tokens to declarations of objects and types, sequential statements, processes, conditional
//! and selected assignments, and texts that are dropped.
#![tactic(auto)]

mod assignments;
mod behind;
mod language;
mod objects;
mod processes;
mod sequential;
mod texts;
mod types;
mod waveforms;

pub use behind::ended;
pub use language::{is_wide, wide};
pub use objects::{constants, identifiers, object_declaration, optional_default, subtype};
pub use processes::process;
pub use sequential::{label, optional_label};
pub use texts::text;
pub use types::{enumeration, subtype_declaration};
pub use waveforms::{conditional_waveforms, selected_assignment};
