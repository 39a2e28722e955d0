//! Loops of processes that feed each other.

ghost use Rattle.std.specs.Prelude.{◌≡◌, ◌≤◌, ◌<◌, ◌++◌, ℕ, All, Contains, IfOk, IfSome, IsTrue, ◌↔◌, None, length, take, drop, nat_lt};
ghost use Rattle.std.specs.List.{IsFirstBest};
ghost use Rattle.rtl_check_levels.specs.Feeding.{IsClosed, IsIn, feeders_of};
ghost use Rattle.rtl_check_levels.specs.Levels.{level_of};
ghost use Rattle.rtl_check_levels.specs.Lowest.{LowestOpen, IsLowestOpen, AreLeft};
ghost use Rattle.rtl_check_levels.specs.Rounds.{IsRound, IsListedOnce};

use crate::table::Row;
use std::alloc::{AllocError, Global};

/// Whether a process is lower than the lowest so far.
fn is_lower(p: usize, lowest: Option<usize>) -> bool
    ensures { IsTrue result ↔ IfSome lowest (λ l. p < l) }
{
    match lowest {
        Some(l) => p < l,
        None => true,
    }
}

/// The lowest of these processes that has no level, if there is one.
fn lowest_open(processes: &[usize], levels: &[Option<u32>]) -> Option<usize>
    requires { All (λ p. p < length levels.now) processes.now }
    ensures { LowestOpen processes.now levels.now result }
{
    let mut lowest = None;
    for &p in processes {
        if levels[p].is_none() && is_lower(p, lowest) {
            lowest = Some(p);
        }
    }
    lowest
}

/// The lowest process without a level that feeds q, which has none for want of that.
fn next_open(table: &[Option<Row>], levels: &[Option<u32>], q: usize) -> usize
    requires closed { IsClosed table.now }
    requires each { length levels.now ≡ length table.now }
    requires left { AreLeft table.now levels.now }
    requires inside { IsIn table.now q }
    requires unplaced { level_of levels.now q ≡ None }
    ensures { IsLowestOpen (feeders_of table.now q) levels.now result }
{
    if let Some(feeders) = &table[q] {
        if let Some(p) = lowest_open(feeders, levels) {
            return p;
        }
    }
    unreachable!()
}

/// The place of the lowest of some processes.
fn place_of_lowest(processes: &[usize]) -> usize
    requires { 0 < length processes.now }
    ensures { IsFirstBest nat_lt processes.now (length processes.now) result }
{
    let mut best = 0;
    for i in 1..processes.len() {
        if processes[i] < processes[best] {
            best = i;
        }
    }
    best
}

/// The round at the end of a path, from this place on, as it is listed from its lowest process.
fn from_lowest(alloc: Global, path: &[usize], first: usize) -> Result<Vec<usize>, AllocError>
    requires { first < length path.now }
    ensures { IfOk result (λ turned. let round = drop first path.now in
        (k : ℕ) × IsFirstBest nat_lt round (length round) k × (turned.items ≡ drop k round ++ take k round)) }
{
    let (_, round) = path.split_at(first);
    let (front, back) = round.split_at(place_of_lowest(round));
    let mut turned = Vec::from_slice(alloc, back)?;
    turned.extend_from_slice(front)?;
    Ok(turned)
}

/// The loop that is met first from a process without a level, going each time to the lowest process
/// without a level that feeds the one before; listed from its lowest process.
pub fn find_round(
    alloc: Global,
    table: &[Option<Row>],
    levels: &[Option<u32>],
    start: usize,
) -> Result<Vec<usize>, AllocError>
    requires closed { IsClosed table.now }
    requires each { length levels.now ≡ length table.now }
    requires left { AreLeft table.now levels.now }
    requires inside { IsIn table.now start }
    requires unplaced { level_of levels.now start ≡ None }
    ensures round { IfOk result (λ round. IsRound table.now round.items) }
    ensures once { IfOk result (λ round. IsListedOnce round.items) }
{
    let mut path = Vec::new(alloc);
    let mut places: Vec<Option<usize>> = vec![in alloc; None; table.len()]?;
    let mut at = start;
    loop {
        if let Some(first) = places[at] {
            return from_lowest(alloc, &path, first);
        }
        places[at] = Some(path.len());
        path.push(at)?;
        at = next_open(table, levels, at);
    }
}
