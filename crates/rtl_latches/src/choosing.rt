//! What the branches of an if with an else, or the alternatives of a case, come to for each net.

ghost use Rattle.std.specs.Prelude.{◌≡◌, ◌&&◌, not, ℕ, All, map, Some, IfOk, OnOk};
ghost use Rattle.std.specs.List.{filter};
ghost use Rattle.std.specs.List.Sorted.{IsStrictlyIncreasing};
ghost use Rattle.std.specs.Option.{option_or};
ghost use Rattle.rtl_body_facts.specs.Reading.{is_in};
ghost use Rattle.rtl_latches.specs.Parts as spec;
ghost use Rattle.rtl_latches.specs.declared.parts.Part.{Part};

use crate::omission::Omission;
use crate::parts::{Left, Part, touched};
use rtl_body_facts::{contains_rising, sort_once};
use std::alloc::{AllocError, Global};

/// What parts are counted in, and the byte at which it starts.
#[derive(Clone, Copy)]
pub(crate) enum Counted {
    Branches { at: u32 },
    Alternatives { at: u32 },
}

/// The part of this number.
fn numbered(counted: Counted, number: usize) -> Omission
    ensures { result ≡ spec.numbered counted number }
{
    match counted {
        Counted::Branches { at } => Omission::Branch { at, number },
        Counted::Alternatives { at } => Omission::Alternative { at, number },
    }
}

/// Whether a net is one of some, and the part doesn't assign it on every path.
fn is_open(inner: &Part, some: &[usize], net: usize) -> bool
    requires some { IsStrictlyIncreasing some.now }
    requires inner { IsStrictlyIncreasing inner.now.assigned.items }
    ensures { result ≡ (is_in net some.now && not (is_in net inner.now.assigned.items)) }
{
    contains_rising(some, net) && !contains_rising(&inner.assigned, net)
}

/// Lists, of some nets that a part doesn't assign on every path, where these places leave them out.
fn push_inner(
    inner: &Part,
    lefts: &[Left],
    some: &[usize],
    part: &mut Part,
) -> Result<(), AllocError>
    requires some { IsStrictlyIncreasing some.now }
    requires inner { IsStrictlyIncreasing inner.now.assigned.items }
    ensures { OnOk result ((n : ℕ) → spec.told n part.new ≡ spec.both (spec.told n part.old)
        (spec.only_left (spec.where_so (is_in n some.now && not (is_in n inner.now.assigned.items))
        (spec.left_at n lefts.now)))) }
{
    for left in lefts {
        part.push(is_open(inner, some, left.net), *left)?;
    }
    Ok(())
}

/// Those of some nets that a part doesn't assign on every path.
fn open_of(alloc: Global, inner: &Part, some: &[usize]) -> Result<Vec<usize>, AllocError>
    requires { IsStrictlyIncreasing inner.now.assigned.items }
    ensures { IfOk result (λ v. v.items ≡ filter (λ n. not (is_in n inner.now.assigned.items)) some.now) }
{
    some.iter()
        .copied()
        .filter(|net| !contains_rising(&inner.assigned, *net))
        .collect(alloc)
}

/// Those that it does.
fn closed_of(alloc: Global, inner: &Part, some: &[usize]) -> Result<Vec<usize>, AllocError>
    requires { IsStrictlyIncreasing inner.now.assigned.items }
    ensures { IfOk result (λ v. v.items ≡ filter (λ n. is_in n inner.now.assigned.items) some.now) }
{
    some.iter()
        .copied()
        .filter(|net| contains_rising(&inner.assigned, *net))
        .collect(alloc)
}

/// Of some nets, lists where a part leaves them out, or the part itself; and those are left that it
/// assigns on every path.
fn choose_in(
    alloc: Global,
    itself: Omission,
    inner: &Part,
    some: &[usize],
    part: &mut Part,
) -> Result<Vec<usize>, AllocError>
    requires some { IsStrictlyIncreasing some.now }
    requires inner { IsStrictlyIncreasing inner.now.assigned.items }
    ensures rise { IfOk result (λ v. IsStrictlyIncreasing v.items) }
    ensures are { IfOk result (λ v. (n : ℕ) → is_in n v.items ≡ (is_in n some.now && (spec.told n inner.now).must)) }
    ensures left { OnOk result ((n : ℕ) → spec.told n part.new ≡ spec.both (spec.told n part.old)
        (spec.only_left (spec.where_so (is_in n some.now && not (spec.told n inner.now).must)
        (option_or (spec.told n inner.now).left (Some itself))))) }
{
    push_inner(inner, &inner.left, some, part)?;
    let without = open_of(alloc, inner, some)?;
    part.leave_out(&without, itself)?;
    let mut within = closed_of(alloc, inner, some)?;
    sort_once(&mut within);
    Ok(within)
}

/// Lists what parts come to of which one is taken, for some nets.
fn choose_each(
    alloc: Global,
    counted: Counted,
    parts: &[Part],
    mut some: Vec<usize>,
    part: &mut Part,
) -> Result<(), AllocError>
    requires some { IsStrictlyIncreasing some.items }
    requires parts { All (λ (p : Part). IsStrictlyIncreasing p.assigned.items) parts.now }
    ensures { OnOk result ((n : ℕ) → spec.told n part.new ≡ spec.both (spec.told n part.old)
        (spec.rest_told (spec.numbered counted) 1 (is_in n some.items) (map (spec.told n) parts.now))) }
{
    for i in 0..parts.len() {
        some = choose_in(alloc, numbered(counted, i + 1), &parts[i], &some, part)?;
    }
    part.assign(&some)?;
    Ok(())
}

/// Lists what all of these parts come to.
pub(crate) fn choose(
    alloc: Global,
    counted: Counted,
    parts: &[Part],
    part: &mut Part,
) -> Result<(), AllocError>
    requires { All (λ (p : Part). IsStrictlyIncreasing p.assigned.items) parts.now }
    ensures { OnOk result ((n : ℕ) → spec.told n part.new
        ≡ spec.both (spec.told n part.old) (spec.together (spec.numbered counted) (map (spec.told n) parts.now))) }
{
    let some = touched(alloc, parts)?;
    choose_each(alloc, counted, parts, some, part)?;
    Ok(())
}
