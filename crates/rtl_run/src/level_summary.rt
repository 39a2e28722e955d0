//! What a levelized simulation came to.

/// How many moments there were, and the bound of the checker's report, which no moment's delta
/// cycles pass where one simulates by events.
#[derive(Clone, Copy)]
pub struct LevelSummary {
    pub moments: u64,
    pub bound: u32,
}
