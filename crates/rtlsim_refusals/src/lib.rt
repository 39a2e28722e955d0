//! Explanations of faults, for a designer: the file, line and column, what is wrong in the design's
//! own words, the line with a mark under the place, and what to do about it.
//!
//! `specs/Explained.antt` says what is told of a fault of a source, and what is written of that,
//! and `specs/Stimuli.antt` what of those of a stimulus and a run; `specs/Refused.antt` says what
//! is told where a source has no tokens, `specs/SetGenerics.antt` what of a generic that the top
//! hasn't, and `specs/Races.antt` which line of a stimulus a race is told at. `specs/Places.antt`
//! has lines and columns. What is said of a rule are fault_rules's
//! texts; what is said of forms and slips is vhdl_slips', and what the tokens around a fault tell
//! vhdl_hints'.
#![tactic(auto)]

mod beside;
mod explaining;
mod place;
mod race;
mod refused;
mod stimulus;
mod told;
mod unset;

pub use beside::{Noted, Notes};
pub use explaining::explain_refusal;
pub use place::{Position, line_after, line_before, position_behind, position_from};
pub use stimulus::{explain_stim, explain_unsettled};
pub use told::{Told, push_paragraph, told_refusal, told_source};
pub use vhdl_slips::{Lexed, text_of};
