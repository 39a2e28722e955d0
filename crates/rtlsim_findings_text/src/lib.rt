//! What `check` tells of a netlist beside the lines of its verdict: a paragraph for each finding of
//! a rejection, remarks in lines, and all of it as an object of JSON, for programs; and the object
//! of a source that is refused.
//!
//! `specs/Explained.antt` says what is written of a rejection, `specs/RemarkText.antt` what of
//! remarks, `specs/Json.antt` the object, and `specs/Refusals.antt` that of a refused source;
//! `specs/Placed.antt` and `specs/Values.antt` how places, strings and arrays are written. Which
//! findings there are is defined by rtlsim_findings, and what is told of a fault of a source by
//! rtlsim_refusals.
#![tactic(auto)]

mod object;
mod paragraph;
mod places;
mod refused;
mod rejection;
mod showing;
mod shown;
mod values;
mod verdict;

pub use refused::refused_text;
pub use rejection::explain_rejection;
pub use showing::{show_remarks, stimulus_remarks_text};
pub use verdict::show_check_json;
