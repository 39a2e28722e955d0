//! Names in blocks.

ghost use Rattle.std.specs.Prelude.{◌≡◌, ◌≤◌, ◌<◌, ◌+◌, ◌/◌, ◌++◌, ◌∷◌, [], ℕ, List, All, Contains, length, take, drop, map, slice_index, true, IfOk, OnOk};
ghost use Rattle.std.specs.List.{flat_map};
ghost use Rattle.rtl_net.specs.Nets.{SignalView, signal_view};
ghost use Rattle.rtl_net.specs.Showing.{IsShown};
ghost use Rattle.rtl_net_groups.specs.Touching.{KeepsLeft};
ghost use Rattle.rtl_vcd.specs.Blocks.{IsBlockOf, AreBlocks, AreListed};

use rtl_net::{Shown, Signal};
use rtl_net_groups::{Groups, Lists, Touched};
use rtl_vcd_values::are_same;
use std::alloc::{AllocError, Global};

/// The most names of a block whose nets are compared, and at how many others a block ends.
const NAMES: usize = 64;

/// How many names are looked at as fast as their nets are compared.
const FEW: usize = 7;

/// How many nets for each name of a block are compared at most.
const REACH: usize = 128;

/// Of how many nets, from the least to the greatest of a block, the marks are looked at. A block
/// whose nets are compared reaches no further.
const SPAN: usize = NAMES * REACH;

/// How many blocks are looked at as fast as those are marked that have nets which differ.
pub(crate) const MANY: usize = 1024;

/// Names one behind the other, and the least and the greatest of their nets.
#[derive(Clone, Copy)]
pub(crate) struct Block {
    /// How many names.
    pub(crate) names: usize,
    pub(crate) least: usize,
    pub(crate) greatest: usize,
    /// Whether all nets between these are compared before a name is looked at.
    pub(crate) is_compared: bool,
}

impl Block {
    /// The block of this name alone.
    fn of(signal: &Signal) -> Block
        requires some { 0 < length signal.now.nets.items }
        ensures names { result.names ≡ 1 }
        ensures block { (nets : ℕ) → IsShown nets (signal_view signal.now)
            → IsBlockOf nets result (signal_view signal.now ∷ []) }
    {
        let (least, greatest) = bounds(&signal.nets);
        Block {
            names: 1,
            least,
            greatest,
            is_compared: false,
        }
    }

    /// The block with the names of both, the other's behind its own.
    fn with(&self, other: &Block) -> Block
        requires room { self.now.names + other.now.names < 18446744073709551616 }
        ensures names { result.names ≡ self.now.names + other.now.names }
        ensures block { (nets : ℕ) (names more : List SignalView) → IsBlockOf nets self.now names
            → IsBlockOf nets other.now more
            → IsBlockOf nets result (names ++ more) }
    {
        Block {
            names: self.names + other.names,
            least: self.least.min(other.least),
            greatest: self.greatest.max(other.greatest),
            is_compared: false,
        }
    }

    /// Whether it has no more nets, from the least to the greatest, than are compared for so many
    /// names.
    fn is_dense(&self) -> bool
        requires order { self.now.least ≤ self.now.greatest }
    {
        (self.greatest - self.least) / REACH < self.names
    }

    /// Whether it shows, without a look at a name, that the nets from the least to the greatest
    /// have the same values in both: by the marks, or since they are compared.
    pub(crate) fn is_quiet(&self, touched: &Touched, old: &[u8], new: &[u8]) -> bool
        requires order { self.now.least ≤ self.now.greatest }
        requires before { self.now.greatest < length old.now }
        requires after { self.now.greatest < length new.now }
        requires nets { touched.now.nets ≡ length new.now }
        requires left { KeepsLeft touched.now old.now new.now }
        ensures { result ≡ true → (n : ℕ) → self.now.least ≤ n → n ≤ self.now.greatest
            → slice_index old.now n ≡ slice_index new.now n }
    {
        let beyond = self.greatest + 1;
        if beyond - self.least <= SPAN && touched.are_left(self.least, beyond) {
            return true;
        }
        self.is_compared && are_same(&old[self.least..beyond], &new[self.least..beyond])
    }
}

/// The least and the greatest of these nets.
fn bounds(nets: &[usize]) -> (usize, usize)
    requires some { 0 < length nets.now }
    ensures least { Contains nets.now result.0 }
    ensures greatest { Contains nets.now result.1 }
    ensures between { All (λ n. (result.0 ≤ n) × (n ≤ result.1)) nets.now }
{
    let mut least = nets[0];
    let mut greatest = nets[0];
    for net in nets {
        least = least.min(*net);
        greatest = greatest.max(*net);
    }
    (least, greatest)
}

/// The blocks of the names that are shown.
pub(crate) fn blocks_of(alloc: Global, shown: Shown<'_>) -> Result<Vec<Block>, AllocError>
    ensures { IfOk result (λ bs. AreBlocks (length shown.entry.net.now.types) bs.items
        (map signal_view shown.entry.signals.now)) }
{
    let mut blocks = Vec::new(alloc);
    let mut next = 0;
    while next < shown.signals.len() {
        let block = block_at(shown, next);
        blocks.push(block)?;
        next += block.names;
    }
    Ok(blocks)
}

/// For each net the blocks of these that have a name with it. It takes memory for each net, and for
/// each net of a name.
pub(crate) fn listed_for(
    alloc: Global,
    shown: Shown<'_>,
    blocks: &[Block],
) -> Result<Groups, AllocError>
    requires { AreBlocks (length shown.net.now.types) blocks.now (map signal_view shown.signals.now) }
    ensures { IfOk result (λ groups. AreListed (length shown.entry.net.now.types) groups blocks.now
        (map signal_view shown.entry.signals.now)) }
{
    let mut nets_of = Lists::new(alloc)?;
    let mut next = 0;
    for block in blocks {
        let end = next + block.names;
        let nets = nets_in(alloc, &shown.signals[next..end])?;
        nets_of.push(nets.as_slice())?;
        next = end;
    }
    let declared = vec![in alloc; 0; shown.net.nets()]?;
    Groups::new(alloc, &declared, &nets_of)
}

/// The nets of these names, one behind the other.
fn nets_in(alloc: Global, names: &[Signal]) -> Result<Vec<usize>, AllocError>
    ensures { IfOk result (λ nets. nets.items ≡ flat_map (λ (s : SignalView). s.nets) (map signal_view names.now)) }
{
    let mut nets = Vec::new(alloc);
    for name in names {
        nets.extend_from_slice(&name.nets)?;
    }
    Ok(nets)
}

/// The block that begins with the name of this number: names whose nets stand close to one another,
/// or those before so many.
fn block_at(shown: Shown<'_>, first: usize) -> Block
    requires there { first < length shown.signals.now }
    ensures some { 0 < result.names }
    ensures block { IsBlockOf (length shown.entry.net.now.types) result
        (take result.names (drop first (map signal_view shown.entry.signals.now))) }
{
    let mut block = close_at(shown, first);
    if block.names > FEW {
        return Block {
            is_compared: true,
            ..block
        };
    }
    let mut next = first + block.names;
    while next < shown.signals.len() {
        let more = close_at(shown, next);
        if more.names > FEW || block.names >= NAMES {
            return block;
        }
        block = block.with(&more);
        next += more.names;
    }
    block
}

/// The names from this number on whose nets stand close to one another. They end where one name
/// more would be too many, or too far off.
fn close_at(shown: Shown<'_>, first: usize) -> Block
    requires there { first < length shown.signals.now }
    ensures some { 0 < result.names }
    ensures block { IsBlockOf (length shown.entry.net.now.types) result
        (take result.names (drop first (map signal_view shown.entry.signals.now))) }
{
    let signals = shown.signals;
    let mut block = Block::of(&signals[first]);
    for number in first + 1..signals.len() {
        let more = block.with(&Block::of(&signals[number]));
        if more.names > NAMES || !more.is_dense() {
            return block;
        }
        block = more;
    }
    block
}
