//! Which variables of a process are kept, and where their nets and drivers stand.

ghost use Rattle.std.specs.Prelude.{◌≡◌, ◌+◌, ◌<◌, ◌≤◌, ◌^◌, true, length, map, slice_index_or, IfOk};
ghost use Rattle.std.specs.List.{list_any, range_with_len};
ghost use Rattle.rtl_model.specs.nets.FlatNetlist.{element_starts};
ghost use Rattle.rtl_net.specs.Indices.{numbers};
ghost use Rattle.rtl_net.specs.Nets.{variable_view};
ghost use Rattle.rtl_kept_bodies.specs.Rules.{keeps_each};
ghost use Rattle.rtl_kept_bodies.specs.Steps.{kept_count, kept_from};

use rtl_net::{Indices, SignalKind, Variable};
use std::alloc::{AllocError, Global};

/// A variable that is kept: the numbers of its elements, of their nets, and the places of their
/// drivers, each in a row.
#[derive(Clone, Copy)]
pub(crate) struct Kept {
    pub(crate) kind: SignalKind,
    pub(crate) element: u32,
    pub(crate) net: u32,
    pub(crate) place: u32,
    pub(crate) len: u32,
}

impl Kept {
    /// Its elements.
    pub(crate) fn elements(self) -> Indices
        ensures { numbers result ≡ range_with_len self.element self.len }
    {
        Indices::Run {
            first: self.element,
            len: self.len,
        }
    }

    /// Their nets.
    pub(crate) fn nets(self) -> Indices
        ensures { numbers result ≡ range_with_len self.net self.len }
    {
        Indices::Run {
            first: self.net,
            len: self.len,
        }
    }

    /// The places of their drivers.
    pub(crate) fn places(self) -> Indices
        ensures { numbers result ≡ range_with_len self.place self.len }
    {
        Indices::Run {
            first: self.place,
            len: self.len,
        }
    }
}

/// What the elements of variables start with.
pub(crate) fn starts_of(alloc: Global, variables: &[Variable]) -> Result<Vec<u8>, AllocError>
    ensures { IfOk result (λ v. v.items ≡ element_starts (map variable_view variables.now)) }
{
    let mut starts = Vec::new(alloc);
    for variable in variables {
        starts.extend_from_slice(&variable.starts)?;
    }
    Ok(starts)
}

/// Whether one of so many elements from this one on is marked.
fn some_marked(marks: &[bool], first: usize, len: usize) -> bool
    requires { first + len ≤ length marks.now }
    ensures { result ≡ list_any (λ e. slice_index_or marks.now e true) (range_with_len first len) }
{
    for k in 0..len {
        if marks[first + k] {
            return true;
        }
    }
    false
}

/// Whether each variable has an element that is marked.
pub(crate) fn flags_of(
    alloc: Global,
    variables: &[Variable],
    marks: &[bool],
) -> Result<Vec<bool>, AllocError>
    requires { length (element_starts (map variable_view variables.now)) ≤ length marks.now }
    ensures { IfOk result (λ v. v.items
        ≡ keeps_each (λ e. slice_index_or marks.now e true) 0 (map variable_view variables.now)) }
{
    let mut flags = Vec::new(alloc);
    let mut element = 0;
    for variable in variables {
        let len = variable.starts.len();
        flags.push(some_marked(marks, element, len))?;
        element += len;
    }
    Ok(flags)
}

/// How many elements the variables have that are kept.
pub(crate) fn count_kept(variables: &[Variable], flags: &[bool]) -> usize
    requires flags { length flags.now ≡ length variables.now }
    requires fits { length (element_starts (map variable_view variables.now)) < 2 ^ 64 }
    ensures { result ≡ kept_count flags.now variables.now }
{
    let mut many = 0;
    for number in 0..variables.len() {
        if !flags[number] {
            continue;
        }
        many += variables[number].starts.len();
    }
    many
}

/// The variables that are kept, whose nets and drivers stand from these on.
pub(crate) fn kept_of(
    alloc: Global,
    variables: &[Variable],
    flags: &[bool],
    mut net: usize,
    mut place: usize,
) -> Result<Vec<Kept>, AllocError>
    requires flags { length flags.now ≡ length variables.now }
    requires elements { length (element_starts (map variable_view variables.now)) < 2 ^ 32 }
    requires nets { net + kept_count flags.now variables.now < 2 ^ 32 }
    requires places { place + kept_count flags.now variables.now < 2 ^ 32 }
    ensures { IfOk result (λ v. v.items ≡ kept_from 0 net place flags.now variables.now) }
{
    let mut kept = Vec::new(alloc);
    let mut element = 0;
    for number in 0..variables.len() {
        let variable = &variables[number];
        let len = variable.starts.len();
        if !flags[number] {
            element += len;
            continue;
        }
        kept.push(Kept {
            kind: variable.kind,
            element: element as u32,
            net: net as u32,
            place: place as u32,
            len: len as u32,
        })?;
        element += len;
        net += len;
        place += len;
    }
    Ok(kept)
}
