//! What codes and values print as in a value change dump (IEEE 1364-2005, 18.2), one at a time or
//! many at once.
#![tactic(auto)]

mod characters;
mod line;
mod positions;
mod put;

pub use characters::{are_same, are_same_lanes};
pub use line::{
    INTEGER, LINE, Line, binary_digits, character, is_other_character, push_binary, push_code,
    push_elements, push_integer,
};
pub use positions::is_other_position;
pub use put::put_run;
