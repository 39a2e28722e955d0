//! Static integers as they are analysed.

ghost use Rattle.std.specs.Prelude.{◌≡◌, IfOk};
ghost use Rattle.vhdl_names_rules.specs.Ranges as ranges;
ghost use Rattle.vhdl_names_rules.specs.units.Expressions as units;
ghost use Rattle.vhdl_names_trees.specs.views.Integers.{static_view, start_view, static_chained, range_view, target_range_view};
ghost use Rattle.vhdl_names_rules.specs.views.Ranges.{declared_range_view};

use drops::take_apart;
use std::alloc::{AllocError, Global};
use vhdl_names_rules::{Arithmetic, Bound, DeclaredRange, IntegerBase};
use vhdl_tree::Direction;

/// A static integer. Declarations are numbered from 0 within their class and unit.
#[cycle(integer)]
pub enum Static {
    Number(u32),
    Generic(usize),
    /// An integer constant.
    Constant(usize),
    /// The parameter of the generate, or of the loop, that has so many of its kind round it.
    GenerateParameter(usize),
    LoopParameter(usize),
    /// The left bound of INTEGER (5.2.3.2).
    LeastInteger,
    /// A minus sign, and the byte at which it starts.
    Negated(usize, Box<Static>),
    /// `abs`, and the byte at which it starts.
    Absolute(usize, Box<Static>),
    /// A bound or the length of the declared range of this number.
    Bound(Bound, usize),
    /// The same of a slice of what has that range, whose name starts at byte `at`.
    SliceBound {
        at: usize,
        bound: Bound,
        range: usize,
        left: Box<Static>,
        direction: Direction,
        right: Box<Static>,
    },
    /// Operators, grouped from the left: the first one, and those after it.
    Chain(Box<StaticStart>, Vec<StaticLink>),
}

impl Drop for Static {
    #[cycle(integer)]
    fn drop(self) {
        take_apart!(self: Number(_) | Generic(_) | Constant(_) | GenerateParameter(_)
            | LoopParameter(_) | LeastInteger | Negated(_, _) | Absolute(_, _) | Bound(_, _)
            | SliceBound { at, bound, range, left, direction, right } | Chain(_, _));
    }
}

/// An operator on static integers, the byte at which it starts, and its right operand.
#[cycle(integer)]
pub struct StaticLink {
    pub operator: Arithmetic,
    pub at: usize,
    pub operand: Static,
}

impl Drop for StaticLink {
    #[cycle(integer)]
    fn drop(self) {
        take_apart!(self: { operator, at, operand });
    }
}

/// A first operand and the first operator after it, with its right operand.
#[cycle(integer)]
pub struct StaticStart {
    pub first: Static,
    pub link: StaticLink,
}

impl Drop for StaticStart {
    #[cycle(integer)]
    fn drop(self) {
        take_apart!(self: { first, link });
    }
}

/// An integer subtype (6.3): those integers, or of them those in a range, with the byte at which
/// that starts.
pub struct IntegerSubtype {
    pub base: IntegerBase,
    pub range: Option<(usize, StaticRange)>,
}

impl Drop for IntegerSubtype {
    fn drop(self) {
        take_apart!(self: { base, range });
    }
}

/// A range and its direction.
pub struct StaticRange {
    pub left: Static,
    pub direction: Direction,
    pub right: Static,
}

impl Drop for StaticRange {
    fn drop(self) {
        take_apart!(self: { left, direction, right });
    }
}

/// The range of what a value is given to: one that is declared, or one that stands in the text.
#[derive(Clone, Copy)]
pub enum TargetRange<'a> {
    Declared(DeclaredRange),
    Written(&'a StaticRange),
}

/// An index of an aggregate, or the indexes of a range, and the byte at which the choice starts.
#[derive(Drop)]
pub enum Index {
    Single(usize, Static),
    Range(usize, StaticRange),
}

impl Index {
    ghost use Rattle.vhdl_names_trees.specs.views.Integers.{index_view};

    /// The byte at which the choice starts.
    pub fn at(&self) -> usize
        ensures { result ≡ units.index_start (index_view self.now) }
    {
        match self {
            Index::Single(at, _) | Index::Range(at, _) => *at,
        }
    }
}

/// A first operand with its operator, and further operators with their right operands.
#[tactic(auto, using(crate::proofs::rows::Integers::view_chain))]
fn chain(start: Box<StaticStart>, links: Vec<StaticLink>) -> Static
    ensures { static_view result ≡ static_chained (start_view start.value) links.items }
{
    Static::Chain(start, links)
}

impl Static {
    /// `-operand`, whose sign starts at byte `at`. It takes the memory of a box.
    pub fn negated(alloc: Global, at: usize, operand: Static) -> Result<Static, AllocError>
        ensures { IfOk result (λ s. static_view s ≡ units.Static.negated at (static_view operand)) }
    {
        Ok(Static::Negated(at, Box::new(alloc, operand)?))
    }

    /// `abs operand`, whose `abs` starts at byte `at`. It takes the memory of a box.
    pub fn absolute(alloc: Global, at: usize, operand: Static) -> Result<Static, AllocError>
        ensures { IfOk result (λ s. static_view s ≡ units.absolute at (static_view operand)) }
    {
        Ok(Static::Absolute(at, Box::new(alloc, operand)?))
    }

    /// An operator, which starts at byte `at`, with its right operand after this one. A chain goes
    /// on, so that its height doesn't grow. It takes the memory of a list.
    pub fn binary(
        self,
        alloc: Global,
        operator: Arithmetic,
        at: usize,
        operand: Static,
    ) -> Result<Static, AllocError>
        ensures { IfOk result (λ s. static_view s ≡
            units.Static.binary at operator (static_view self) (static_view operand)) }
    {
        let link = StaticLink {
            operator,
            at,
            operand,
        };
        match self {
            Static::Chain(start, mut links) => {
                links.push(link)?;
                Ok(chain(start, links))
            }
            first => {
                let start = Box::new(alloc, StaticStart { first, link })?;
                Ok(chain(start, Vec::new(alloc)))
            }
        }
    }
}

impl Static {
    /// The same once more. It takes the memory of boxes and lists.
    #[cycle(copied)]
    pub fn copied(&self, alloc: Global) -> Result<Static, AllocError>
        ensures { IfOk result (λ s. static_view s ≡ static_view self.now) }
    {
        match self {
            Static::Number(number) => Ok(Static::Number(*number)),
            Static::Generic(k) => Ok(Static::Generic(*k)),
            Static::Constant(k) => Ok(Static::Constant(*k)),
            Static::GenerateParameter(k) => Ok(Static::GenerateParameter(*k)),
            Static::LoopParameter(k) => Ok(Static::LoopParameter(*k)),
            Static::LeastInteger => Ok(Static::LeastInteger),
            Static::Negated(at, operand) => Static::negated(alloc, *at, operand.copied(alloc)?),
            Static::Absolute(at, operand) => Static::absolute(alloc, *at, operand.copied(alloc)?),
            Static::Bound(bound, range) => Ok(Static::Bound(*bound, *range)),
            Static::SliceBound {
                at,
                bound,
                range,
                left,
                direction,
                right,
            } => {
                let left = left.copied(alloc)?;
                let slice = StaticRange {
                    left,
                    direction: *direction,
                    right: right.copied(alloc)?,
                };
                slice.bound(alloc, *at, *bound, *range)
            }
            Static::Chain(start, links) => {
                let first = start_copied(start, alloc)?;
                links_copied(links, alloc, first)
            }
        }
    }
}

/// The first operator of a chain once more.
#[cycle(copied)]
fn start_copied(start: &StaticStart, alloc: Global) -> Result<Static, AllocError>
    ensures { IfOk result (λ s. static_view s ≡ start_view start.now) }
{
    let first = start.first.copied(alloc)?;
    let operand = start.link.operand.copied(alloc)?;
    first.binary(alloc, start.link.operator, start.link.at, operand)
}

/// Further operators once more, behind what is done.
#[cycle(copied)]
fn links_copied(links: &[StaticLink], alloc: Global, first: Static) -> Result<Static, AllocError>
    ensures { IfOk result (λ s. static_view s ≡ static_chained (static_view first) links.now) }
{
    let mut done = first;
    for link in links {
        let operand = link.operand.copied(alloc)?;
        done = done.binary(alloc, link.operator, link.at, operand)?;
    }
    Ok(done)
}

impl TargetRange<'_> {
    /// The range. It may take the memory of boxes and lists.
    pub fn copied(self, alloc: Global) -> Result<StaticRange, AllocError>
        ensures { IfOk result (λ r. range_view r ≡ target_range_view self.entry) }
    {
        match self {
            TargetRange::Declared(range) => Ok(StaticRange::declared(range)),
            TargetRange::Written(range) => {
                let left = range.left.copied(alloc)?;
                Ok(StaticRange {
                    left,
                    direction: range.direction,
                    right: range.right.copied(alloc)?,
                })
            }
        }
    }
}

impl StaticRange {
    /// A declared range, by its bounds.
    pub fn declared(range: DeclaredRange) -> StaticRange
        ensures { range_view result ≡ ranges.declared_range (declared_range_view range) }
    {
        StaticRange {
            left: Static::Bound(Bound::Left, range.number),
            direction: range.direction,
            right: Static::Bound(Bound::Right, range.number),
        }
    }

    /// A bound or the length of this slice of what has the declared range of this number, whose
    /// name starts at byte `at`. It takes the memory of two boxes.
    pub fn bound(
        self,
        alloc: Global,
        at: usize,
        bound: Bound,
        range: usize,
    ) -> Result<Static, AllocError>
        ensures { IfOk result (λ s. static_view s ≡ units.slice_bound at bound range
            (static_view self.left) self.direction (static_view self.right)) }
    {
        let StaticRange {
            left,
            direction,
            right,
        } = self;
        let left = Box::new(alloc, left)?;
        let right = Box::new(alloc, right)?;
        Ok(Static::SliceBound {
            at,
            bound,
            range,
            left,
            direction,
            right,
        })
    }
}
