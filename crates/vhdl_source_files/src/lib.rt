//! A source of several files: their texts joined, and in which of them a byte stands; and long
//! lines, cut round a byte.
//!
//! `specs/Files.antt` says what the joined text is, and where a byte of it stands;
//! `specs/Laws.antt` that a byte that is told by its own file is the byte of the source;
//! `specs/Cutting.antt` what is shown of a line; `specs/Listed.antt` which files a list names.
#![tactic(auto)]

mod cutting;
mod file;
mod joining;
pub mod laws;
mod listing;
mod places;

pub use cutting::{CutLine, cut_line};
pub use file::{FilePlace, SourceFile, halves};
pub use joining::joined;
pub use listing::listed;
pub use places::{place_in, source_name};
