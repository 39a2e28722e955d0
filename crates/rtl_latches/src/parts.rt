//! What a part of a body does to the nets that it assigns.

ghost use Rattle.std.specs.Prelude.{◌≡◌, ◌==◌, ◌&&◌, ◌||◌, ℕ, Some, IfOk, OnOk};
ghost use Rattle.std.specs.List.{list_any};
ghost use Rattle.std.specs.List.Sorted.{IsStrictlyIncreasing};
ghost use Rattle.rtl_body_facts.specs.Reading.{is_in};
ghost use Rattle.rtl_latches.specs.Parts as spec;

use crate::omission::Omission;
use rtl_body_facts::sort_once;
use std::alloc::{AllocError, Global};

/// A net, and where its assignment is left out.
#[derive(Clone, Copy)]
pub(crate) struct Left {
    pub(crate) net: usize,
    pub(crate) omission: Omission,
}

/// The nets that a part of a body assigns on every syntactic path, and where it leaves out
/// assignments: of a net the first place in this list counts.
#[derive(Drop)]
pub(crate) struct Part {
    pub(crate) assigned: Vec<usize>,
    pub(crate) left: Vec<Left>,
}

impl Part {
    /// Of a part that assigns nothing.
    pub(crate) fn new(alloc: Global) -> Part
        ensures { (n : ℕ) → spec.told n result ≡ spec.nothing }
    {
        Part {
            assigned: Vec::new(alloc),
            left: Vec::new(alloc),
        }
    }

    /// Lists nets that are assigned.
    pub(crate) fn assign(&mut self, nets: &[usize]) -> Result<(), AllocError>
        ensures { OnOk result ((n : ℕ) → spec.told n self.new
            ≡ spec.both (spec.told n self.old) (spec.only_must (is_in n nets.now))) }
    {
        self.assigned.extend_from_slice(nets)?;
        Ok(())
    }

    /// Puts the nets that are assigned into rising order.
    pub(crate) fn sort(&mut self)
        ensures rise { IsStrictlyIncreasing self.new.assigned.items }
        ensures told { (n : ℕ) → spec.told n self.new ≡ spec.told n self.old }
    {
        sort_once(&mut self.assigned);
    }

    /// Lists a net that is left out, if so.
    pub(crate) fn push(&mut self, so: bool, left: Left) -> Result<(), AllocError>
        ensures { OnOk result ((n : ℕ) → spec.told n self.new ≡ spec.both (spec.told n self.old)
            (spec.only_left (spec.where_so (so && (left.net == n)) (Some left.omission)))) }
    {
        if !so {
            return Ok(());
        }
        self.left.push(left)?;
        Ok(())
    }

    /// Lists nets that are left out at one place.
    pub(crate) fn leave_out(&mut self, nets: &[usize], omission: Omission) -> Result<(), AllocError>
        ensures { OnOk result ((n : ℕ) → spec.told n self.new ≡ spec.both (spec.told n self.old)
            (spec.only_left (spec.where_so (is_in n nets.now) (Some omission)))) }
    {
        for net in nets {
            let left = Left {
                net: *net,
                omission,
            };
            self.push(true, left)?;
        }
        Ok(())
    }
}

/// Appends the nets whose assignments are left out.
fn push_left(left: &[Left], nets: &mut Vec<usize>) -> Result<(), AllocError>
    ensures { OnOk result ((n : ℕ) → is_in n nets.new.items ≡ (is_in n nets.old.items || spec.has_left n left.now)) }
{
    for one in left {
        nets.push(one.net)?;
    }
    Ok(())
}

/// Appends the nets that a part assigns on some path.
fn push_touched(part: &Part, nets: &mut Vec<usize>) -> Result<(), AllocError>
    ensures { OnOk result ((n : ℕ) → is_in n nets.new.items
        ≡ (is_in n nets.old.items || spec.is_touched (spec.told n part.now))) }
{
    nets.extend_from_slice(&part.assigned)?;
    push_left(&part.left, nets)?;
    Ok(())
}

/// The nets that some of these parts assign on some path, rising.
pub(crate) fn touched(alloc: Global, parts: &[Part]) -> Result<Vec<usize>, AllocError>
    ensures rise { IfOk result (λ v. IsStrictlyIncreasing v.items) }
    ensures are { IfOk result (λ v. (n : ℕ) → is_in n v.items
        ≡ list_any (λ p. spec.is_touched (spec.told n p)) parts.now) }
{
    let mut nets = Vec::new(alloc);
    for part in parts {
        push_touched(part, &mut nets)?;
    }
    sort_once(&mut nets);
    Ok(nets)
}
