//! What a table of rows has of each.

use smallvec::SmallVec;

/// Those that feed a row, in any order and perhaps several times. Up to two, as a net and a hub
/// have, take no memory of their own.
pub type Row = SmallVec<usize, 2>;
