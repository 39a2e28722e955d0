//! What a body reads (IEEE 1076-2008, 11.3): the nets whose values or events it looks at, or the
//! elements, where it has these in place of nets.

ghost use Rattle.std.specs.Prelude.{◌≡◌, ℕ, false, ◌++◌, ◌↔◌, [], ◌∷◌, Contains, IfOk, OnOk};
ghost use Rattle.std.specs.List.{range_with_len};
ghost use Rattle.std.specs.List.Sorted.{IsStrictlyIncreasing};
ghost use Rattle.rtl_model.specs.bodies.Leaves as leaves;
ghost use Rattle.rtl_model.specs.bodies.Reads as definition;
ghost use Rattle.rtl_net.specs.Bodies.{statements_of};
ghost use Rattle.rtl_net.specs.Indices.{numbers};
ghost use Rattle.rtl_net.specs.Visits.{leaf_view};

use rtl_body_facts::order_once;
use rtl_net::{Indices, Leaf, Statement, Visit, walk_body};
use std::alloc::{AllocError, Global};

/// What was read so far, unless memory was wanting.
#[derive(Drop)]
struct Reads {
    found: Vec<usize>,
    failed: bool,
}

impl Visit for Reads {
    ghost takes = { λ old leaf new. new.failed ≡ false → (old.failed ≡ false)
        × (new.found.items ≡ old.found.items ++ leaves.read_of leaf) };

    fn leaf(&mut self, leaf: Leaf<'_>) {
        if !self.failed {
            self.failed = of_leaf(leaf, &mut self.found).is_err();
        }
    }
}

/// What a body reads, rising. It takes the memory of a list of all nets or elements that the body's
/// names have, at most as much again to put it in order, and time to do so.
pub fn read_of(alloc: Global, body: &[Statement]) -> Result<Vec<usize>, AllocError>
    ensures rise { IfOk result (λ v. IsStrictlyIncreasing v.items) }
    ensures all { IfOk result (λ v. (n : ℕ)
        → Contains v.items n ↔ Contains (definition.reads (statements_of body.now)) n) }
{
    let mut reads = Reads {
        found: Vec::new(alloc),
        failed: false,
    };
    walk_body(body, &mut reads);
    if reads.failed {
        return Err(AllocError);
    }
    let mut found = reads.found;
    order_once(alloc, &mut found)?;
    Ok(found)
}

/// Puts what a leaf reads behind others.
fn of_leaf(leaf: Leaf<'_>, found: &mut Vec<usize>) -> Result<(), AllocError>
    ensures { OnOk result (found.new.items ≡ found.old.items ++ leaves.read_of (leaf_view leaf.entry)) }
{
    match leaf {
        Leaf::Nets(indices) => of_indices(indices, found),
        Leaf::Net(index) => of_index(index, found),
        Leaf::Event(index) => of_index(index, found),
        Leaf::Elements(_) => Ok(()),
        Leaf::Element(_) => Ok(()),
    }
}

/// Puts what a name has behind others.
fn of_indices(indices: &Indices, found: &mut Vec<usize>) -> Result<(), AllocError>
    ensures { OnOk result (found.new.items ≡ found.old.items ++ numbers indices.now) }
{
    match indices {
        Indices::Run { first, len } => of_run(*first, *len, found),
        Indices::List(listed) => of_list(listed.as_slice(), found),
    }
}

/// Puts neighbours behind others.
fn of_run(first: u32, len: u32, found: &mut Vec<usize>) -> Result<(), AllocError>
    ensures { OnOk result (found.new.items ≡ found.old.items ++ range_with_len first len) }
{
    for k in 0..len {
        found.push(first as usize + k as usize)?;
    }
    Ok(())
}

/// Puts what is listed behind others.
fn of_list(listed: &[u32], found: &mut Vec<usize>) -> Result<(), AllocError>
    ensures { OnOk result (found.new.items ≡ found.old.items ++ listed.now) }
{
    for index in listed {
        found.push(*index as usize)?;
    }
    Ok(())
}

/// Puts one net or element behind others.
fn of_index(index: u32, found: &mut Vec<usize>) -> Result<(), AllocError>
    ensures { OnOk result (found.new.items ≡ found.old.items ++ index ∷ []) }
{
    found.push(index as usize)?;
    Ok(())
}
