//! Rows of whole calls: how a table of them is read, by which calls of the program each row is
//! made, and what is printed of it.
//!
//! The program itself is a `Program`, so that nothing here stands on it: a crate of rows has little
//! more than its calls.
//!
//! Tables of rows: texts with what is expected of each, as they stand in the data of the crates of
//! rows.
//!
//! A table is a file of lines. A line `TEXT → EXPECTED` is a row, one that begins with `#` a
//! comment, and one that begins with `in ` the frame of the rows below it: what stands before `…`
//! there comes before each text, and what stands behind it behind. In a text `{N TEXT}` stands for
//! N times the text, and `^` for the place of the fault.
#![tactic(auto)]

mod answer;
mod beginnings;
mod calls;
mod failing;
mod faulty;
mod frame;
mod names;
mod program;
mod row;
mod sources;
mod table;
mod tables;
mod text;

pub use frame::Frame;
pub use names::named;
pub use program::Program;
pub use row::bytes_of;
pub use sources::{Told, tell_sources};
pub use table::{Teller, tell_table};
pub use tables::tell_calls;
pub use text::Text;
