//! The branch of the reset.

ghost use Rattle.std.specs.Prelude.{◌≡◌, ℕ, ◌+◌, ◌≤◌, ◌<◌, ◌^◌, All, length, map, slice_index_or, IfOk, OnOk};
ghost use Rattle.std.specs.List.{range_with_len};
ghost use Rattle.rtl_net.specs.Bodies.{statement_view, statements_of};
ghost use Rattle.rtl_net.specs.Indices.{numbers};
ghost use Rattle.rtl_kept_bodies.specs.declared.kept.Kept.{Kept};
ghost use Rattle.rtl_kept_bodies.specs.Steps.{IsWithin, placed, placed_by, place_at, stmt_at_reset, all_at_reset};

use crate::kept::Kept;
use rtl_net::{Indices, Statement, Value};
use smallvec::SmallVec;
use std::alloc::{AllocError, Global};
use std::mem;

/// The places of the drivers of a process's variable elements. An element that isn't kept has the
/// place behind all of them.
#[derive(Drop)]
pub(crate) struct Places {
    listed: Vec<u32>,
    behind: u32,
}

/// Puts the places of a variable's drivers into a list.
fn put_places(kept: Kept, listed: &mut [u32])
    requires { IsWithin (length listed.old) kept }
    ensures length { length listed.new ≡ length listed.old }
    ensures each { (e d : ℕ) → slice_index_or listed.new e d ≡ placed kept (slice_index_or listed.old e d) e }
{
    for k in 0..kept.len {
        listed[kept.element as usize + k as usize] = kept.place + k;
    }
}

impl Places {
    /// The places of these variables' drivers, of so many elements in all. They are put from the
    /// last on.
    pub(crate) fn new(
        alloc: Global,
        kept: &[Kept],
        many: usize,
        behind: u32,
    ) -> Result<Places, AllocError>
        requires { All (λ (k : Kept). IsWithin many k) kept.now }
        ensures { IfOk result (λ places. (e : ℕ) → place_at places e ≡ placed_by kept.now behind e) }
    {
        let mut listed = vec![in alloc; behind; many]?;
        for number in 0..kept.len() {
            put_places(kept[kept.len() - 1 - number], &mut listed);
        }
        Ok(Places { listed, behind })
    }

    /// The place of an element's driver.
    fn of(&self, element: usize) -> u32
        ensures { result ≡ place_at self.now element }
    {
        match self.listed.get(element) {
            Some(place) => *place,
            None => self.behind,
        }
    }

    /// The places of the drivers of so many elements from this one on.
    fn of_run(
        &self,
        alloc: Global,
        first: usize,
        len: usize,
    ) -> Result<SmallVec<u32, 4>, AllocError>
        requires { first + len < 2 ^ 64 }
        ensures { IfOk result (λ v. v.items ≡ map (place_at self.now) (range_with_len first len)) }
    {
        let mut places = SmallVec::new(alloc);
        for k in 0..len {
            places.push(self.of(first + k))?;
        }
        Ok(places)
    }

    /// The places of the drivers of these elements.
    fn of_listed(&self, alloc: Global, elements: &[u32]) -> Result<SmallVec<u32, 4>, AllocError>
        ensures { IfOk result (λ v. v.items ≡ map (place_at self.now) elements.now) }
    {
        let mut places = SmallVec::new(alloc);
        for element in elements {
            places.push(self.of(*element as usize))?;
        }
        Ok(places)
    }

    /// The places of the drivers of a name's elements.
    fn of_named(&self, alloc: Global, elements: &Indices) -> Result<SmallVec<u32, 4>, AllocError>
        ensures { IfOk result (λ v. v.items ≡ map (place_at self.now) (numbers elements.now)) }
    {
        match elements {
            Indices::Run { first, len } => self.of_run(alloc, *first as usize, *len as usize),
            Indices::List(listed) => self.of_listed(alloc, listed.as_slice()),
        }
    }
}

/// Makes an assignment to a variable one to its nets.
fn keep_given(alloc: Global, places: &Places, statement: &mut Statement) -> Result<(), AllocError>
    ensures { OnOk result (statement_view statement.new
        ≡ stmt_at_reset (place_at places.now) (statement_view statement.old)) }
{
    match statement {
        Statement::Set { elements, value } => {
            let places = places.of_named(alloc, elements)?;
            let value = mem::replace(value, Value::Position(0));
            *statement = Statement::Assign {
                places: Indices::List(places),
                value,
            };
        }
        Statement::Null => {}
        Statement::Assign { .. } => {}
        Statement::AssignAt { .. } => {}
        Statement::SetAt { .. } => {}
        Statement::If { .. } => {}
        Statement::Case { .. } => {}
    }
    Ok(())
}

/// The same of each statement of a branch.
pub(crate) fn keep_at_reset(
    alloc: Global,
    places: &Places,
    statements: &mut [Statement],
) -> Result<(), AllocError>
    ensures { OnOk result (statements_of statements.new
        ≡ all_at_reset (place_at places.now) (statements_of statements.old)) }
{
    for i in 0..statements.len() {
        keep_given(alloc, places, &mut statements[i])?;
    }
    Ok(())
}
