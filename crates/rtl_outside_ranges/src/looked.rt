//! What conditions look at, and whether something looks at no variable and at none of some nets.

ghost use Rattle.std.specs.Prelude.{◌≡◌, ◌&&◌, ◌||◌, false, not, ℕ, true, IfOk, OnOk};
ghost use Rattle.std.specs.List.{list_any, list_all};
ghost use Rattle.std.specs.List.Sorted.{IsStrictlyIncreasing};
ghost use Rattle.rtl_model.specs.bodies.Leaves.{expr_leaves, value_leaves, test_leaves, read_of};
ghost use Rattle.rtl_net.specs.Bodies.{expr_view, value_view, test_view};
ghost use Rattle.rtl_net.specs.Indices.{numbers};
ghost use Rattle.rtl_net.specs.Visits.{leaf_view};
ghost use Rattle.rtl_body_facts.specs.Reading.{is_in};
ghost use Rattle.rtl_outside_ranges.specs.Outside as spec;
ghost use Rattle.rtl_outside_ranges.specs.Outside.{also};
ghost use Rattle.rtl_outside_ranges.specs.Tables.{IsLooked};

use crate::lists::numbers_of;
use rtl_body_facts::{contains_rising, sort_once};
use rtl_net::{
    Expr, Indices, Leaf, NoMemory, Test, Value, Visit, walk_expr, walk_test, walk_value,
};
use std::alloc::{AllocError, Global};

/// What is known round a statement: the nets that logic makes, and those that the conditions there
/// look at. Both rise.
#[derive(Clone, Copy)]
pub(crate) struct Round<'a> {
    pub(crate) logic: &'a [usize],
    pub(crate) looked: &'a [usize],
    ghost logic_rises: { IsStrictlyIncreasing logic.now },
    ghost looked_rises: { IsStrictlyIncreasing looked.now },
}

// ---- nets that are looked at

/// The nets that were looked at so far, unless memory for them was refused.
#[derive(Drop)]
struct Looked {
    alloc: Global,
    nets: Vec<usize>,
    refused: bool,
}

impl Looked {
    /// Puts the nets of a leaf to the others.
    fn push_leaf(&mut self, leaf: Leaf<'_>) -> Result<(), NoMemory>
        ensures refused { self.new.refused ≡ self.old.refused }
        ensures nets { OnOk result ((n : ℕ) → is_in n self.new.nets.items
            ≡ (is_in n self.old.nets.items || is_in n (read_of (leaf_view leaf.entry)))) }
    {
        match leaf {
            Leaf::Nets(nets) => {
                let nets = numbers_of(self.alloc, nets)?;
                Ok(self.nets.extend_from_slice(&nets)?)
            }
            Leaf::Net(net) | Leaf::Event(net) => Ok(self.nets.push(net as usize)?),
            Leaf::Elements(_) | Leaf::Element(_) => Ok(()),
        }
    }
}

impl Visit for Looked {
    ghost takes = { λ old leaf new. new.refused ≡ false → (old.refused ≡ false)
        × ((n : ℕ) → is_in n new.nets.items ≡ (is_in n old.nets.items || is_in n (read_of leaf))) };

    fn leaf(&mut self, leaf: Leaf<'_>) {
        if self.push_leaf(leaf).is_err() {
            self.refused = true;
        }
    }
}

/// These nets and those that a condition looks at, rising; `None` where it looks at a variable or
/// at a net of logic.
pub(crate) fn with_test(
    alloc: Global,
    logic: &[usize],
    nets: &[usize],
    test: &Test,
) -> Result<Option<Vec<usize>>, NoMemory>
    requires logic { IsStrictlyIncreasing logic.now }
    ensures { IfOk result (IsLooked
        (list_all (spec.is_apart (λ n. is_in n logic.now)) (test_leaves (test_view test.now)))
        (also (λ n. is_in n nets.now) (test_leaves (test_view test.now)))) }
{
    if !test_is_apart(logic, test) {
        return Ok(None);
    }
    let mut looked = begun(alloc, nets)?;
    walk_test(test, &mut looked);
    let found = sorted(looked)?;
    Ok(Some(found))
}

/// The same of a value.
pub(crate) fn with_value(
    alloc: Global,
    logic: &[usize],
    nets: &[usize],
    value: &Value,
) -> Result<Option<Vec<usize>>, NoMemory>
    requires logic { IsStrictlyIncreasing logic.now }
    ensures { IfOk result (IsLooked
        (list_all (spec.is_apart (λ n. is_in n logic.now)) (value_leaves (value_view value.now)))
        (also (λ n. is_in n nets.now) (value_leaves (value_view value.now)))) }
{
    if !value_is_apart(logic, value) {
        return Ok(None);
    }
    let mut looked = begun(alloc, nets)?;
    walk_value(value, &mut looked);
    let found = sorted(looked)?;
    Ok(Some(found))
}

/// These nets were looked at so far.
fn begun(alloc: Global, nets: &[usize]) -> Result<Looked, NoMemory>
    ensures { IfOk result (λ looked. looked.nets.items ≡ nets.now) }
{
    Ok(Looked {
        alloc,
        nets: Vec::from_slice(alloc, nets)?,
        refused: false,
    })
}

/// What was looked at, rising.
fn sorted(looked: Looked) -> Result<Vec<usize>, NoMemory>
    ensures rise { IfOk result (λ nets. IsStrictlyIncreasing nets.items) }
    ensures there { IfOk result (λ nets. looked.refused ≡ false) }
    ensures are { IfOk result (λ nets. (n : ℕ) → is_in n nets.items ≡ is_in n looked.nets.items) }
{
    let Looked {
        mut nets,
        refused,
        ..
    } = looked;
    if refused {
        return Err(AllocError);
    }
    sort_once(&mut nets);
    Ok(nets)
}

// ---- what looks at none of some nets

/// Whether one of these nets is among some that rise.
fn any_among(some: &[usize], nets: &Indices) -> bool
    requires rise { IsStrictlyIncreasing some.now }
    ensures { result ≡ list_any (λ n. is_in n some.now) (numbers nets.now) }
{
    match nets {
        Indices::Run { first, len } => any_in_run(some, *first, *len),
        Indices::List(listed) => listed
            .as_slice()
            .iter()
            .any(|net| contains_rising(some, *net as usize)),
    }
}

/// Whether one of so many nets from the first on is.
fn any_in_run(some: &[usize], first: u32, len: u32) -> bool
    requires rise { IsStrictlyIncreasing some.now }
    ensures { result ≡ list_any (λ n. is_in n some.now) (numbers (Indices.Run first len)) }
{
    for i in 0..len {
        if contains_rising(some, first as usize + i as usize) {
            return true;
        }
    }
    false
}

/// Whether a leaf looks at no variable and at none of these nets.
fn is_apart(nets: &[usize], leaf: Leaf<'_>) -> bool
    requires rise { IsStrictlyIncreasing nets.now }
    ensures { result ≡ spec.is_apart (λ n. is_in n nets.now) (leaf_view leaf.entry) }
{
    match leaf {
        Leaf::Nets(looked) => !any_among(nets, looked),
        Leaf::Net(net) | Leaf::Event(net) => !contains_rising(nets, net as usize),
        Leaf::Elements(_) | Leaf::Element(_) => false,
    }
}

/// Whether that was so of each leaf so far.
#[derive(Clone, Copy)]
struct Apart<'a> {
    nets: &'a [usize],
    so_far: bool,
    ghost rise: { IsStrictlyIncreasing nets.now },
}

impl Visit for Apart<'_> {
    ghost takes = { λ old leaf new. (new.nets.now ≡ old.nets.now)
        × (new.so_far ≡ (old.so_far && spec.is_apart (λ n. is_in n old.nets.now) leaf)) };

    fn leaf(&mut self, leaf: Leaf<'_>) {
        self.so_far = self.so_far && is_apart(self.nets, leaf);
    }
}

/// Whether an expression looks at no variable and at none of these nets.
pub(crate) fn expr_is_apart(nets: &[usize], expr: &Expr) -> bool
    requires rise { IsStrictlyIncreasing nets.now }
    ensures { result ≡ list_all (spec.is_apart (λ n. is_in n nets.now)) (expr_leaves (expr_view expr.now)) }
{
    let mut apart = Apart { nets, so_far: true };
    walk_expr(expr, &mut apart);
    apart.so_far
}

/// The same of a value.
fn value_is_apart(nets: &[usize], value: &Value) -> bool
    requires rise { IsStrictlyIncreasing nets.now }
    ensures { result ≡ list_all (spec.is_apart (λ n. is_in n nets.now)) (value_leaves (value_view value.now)) }
{
    let mut apart = Apart { nets, so_far: true };
    walk_value(value, &mut apart);
    apart.so_far
}

/// The same of a condition.
fn test_is_apart(nets: &[usize], test: &Test) -> bool
    requires rise { IsStrictlyIncreasing nets.now }
    ensures { result ≡ list_all (spec.is_apart (λ n. is_in n nets.now)) (test_leaves (test_view test.now)) }
{
    let mut apart = Apart { nets, so_far: true };
    walk_test(test, &mut apart);
    apart.so_far
}
