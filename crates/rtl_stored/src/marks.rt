//! What is known of the elements of a process's variables while its body is walked.

ghost use Rattle.std.specs.Prelude.{◌≡◌, ◌==◌, ◌<◌, ℕ, true, length, map, replicate, IfOk, OnOk};
ghost use Rattle.std.specs.List.{filter};
ghost use Rattle.rtl_net.specs.Indices.{numbers};
ghost use Rattle.rtl_model.specs.bodies.Leaves.{leaf_looks_at};
ghost use Rattle.rtl_body_facts.specs.Reading.{is_in};
ghost use Rattle.rtl_stored.specs.Walks.{unmarked, is_assigned, never, Reads, Walked, Released};

use rtl_net::{Indices, Leaf, Visit};
use std::alloc::{AllocError, Global};

/// What is known of an element so far.
#[derive(Clone, Copy)]
pub(crate) struct Mark {
    /// It is assigned on every syntactic path to here.
    pub(crate) assigned: bool,
    /// It was read where it wasn't.
    pub(crate) stored: bool,
}

/// The marks of all elements. An element that isn't there counts as assigned.
#[derive(Drop)]
pub(crate) struct Marks {
    marks: Vec<Mark>,
}

impl Visit for Marks {
    ghost takes = { λ old leaf new. Reads (λ e. leaf_looks_at e leaf) old.marks.items new.marks.items };

    fn leaf(&mut self, leaf: Leaf<'_>) {
        match leaf {
            Leaf::Elements(elements) => self.read_all(elements),
            Leaf::Element(element) => self.read(element as usize),
            _ => {}
        }
    }
}

impl Marks {
    /// Of so many elements, none of which is assigned yet, or stored.
    pub(crate) fn new(alloc: Global, many: usize) -> Result<Marks, AllocError>
        ensures { IfOk result (λ m. m.marks.items ≡ replicate many unmarked) }
    {
        let mark = Mark {
            assigned: false,
            stored: false,
        };
        Ok(Marks {
            marks: vec![in alloc; mark; many]?,
        })
    }

    /// Whether an element is assigned on every syntactic path to here.
    pub(crate) fn is_assigned(&self, element: usize) -> bool
        ensures { result ≡ is_assigned self.now.marks.items element }
    {
        if element >= self.marks.len() {
            return true;
        }
        self.marks[element].assigned
    }

    /// Marks an element that is read as stored, unless it is assigned.
    fn read(&mut self, element: usize)
        ensures { Reads (λ e. element == e) self.old.marks.items self.new.marks.items }
    {
        if self.is_assigned(element) {
            return;
        }
        self.marks[element] = Mark {
            assigned: false,
            stored: true,
        };
    }

    /// The same of each of some elements.
    fn read_all(&mut self, elements: &Indices)
        ensures { Reads (λ e. is_in e (numbers elements.now)) self.old.marks.items self.new.marks.items }
    {
        for place in 0..elements.len() {
            self.read(elements.at(place));
        }
    }

    /// Marks an element as assigned, and lists it where it wasn't.
    fn assign(&mut self, element: usize, added: &mut Vec<usize>) -> Result<(), AllocError>
        ensures { OnOk result (Walked never (λ e. element == e)
            self.old.marks.items self.new.marks.items added.old.items added.new.items) }
    {
        if self.is_assigned(element) {
            return Ok(());
        }
        let stored = self.marks[element].stored;
        self.marks[element] = Mark {
            assigned: true,
            stored,
        };
        added.push(element)?;
        Ok(())
    }

    /// The same of each of a name's elements.
    pub(crate) fn assign_named(
        &mut self,
        elements: &Indices,
        added: &mut Vec<usize>,
    ) -> Result<(), AllocError>
        ensures { OnOk result (Walked never (λ e. is_in e (numbers elements.now))
            self.old.marks.items self.new.marks.items added.old.items added.new.items) }
    {
        for place in 0..elements.len() {
            self.assign(elements.at(place), added)?;
        }
        Ok(())
    }

    /// The same of each of some elements.
    pub(crate) fn assign_listed(
        &mut self,
        elements: &[usize],
        added: &mut Vec<usize>,
    ) -> Result<(), AllocError>
        ensures { OnOk result (Walked never (λ e. is_in e elements.now)
            self.old.marks.items self.new.marks.items added.old.items added.new.items) }
    {
        for element in elements {
            self.assign(*element, added)?;
        }
        Ok(())
    }

    /// Takes back that some elements are assigned.
    pub(crate) fn release(&mut self, elements: &[usize])
        requires { (e : ℕ) → is_in e elements.now ≡ true → e < length self.old.marks.items }
        ensures { Released elements.now self.old.marks.items self.new.marks.items }
    {
        for element in elements {
            let stored = self.marks[*element].stored;
            self.marks[*element] = Mark {
                assigned: false,
                stored,
            };
        }
    }

    /// Whether each element is stored.
    pub(crate) fn stored(&self, alloc: Global) -> Result<Vec<bool>, AllocError>
        ensures { IfOk result (λ v. v.items ≡ map (λ m. m.stored) self.now.marks.items) }
    {
        self.marks.iter().map(|mark| mark.stored).collect(alloc)
    }

    /// Those of some elements that are assigned.
    pub(crate) fn assigned_of(
        &self,
        alloc: Global,
        elements: &[usize],
    ) -> Result<Vec<usize>, AllocError>
        ensures { IfOk result (λ v. v.items ≡ filter (is_assigned self.now.marks.items) elements.now) }
    {
        elements
            .iter()
            .copied()
            .filter(|element| self.is_assigned(*element))
            .collect(alloc)
    }
}
