//! Which places have an entry.

ghost use Rattle.std.specs.Prelude.{◌≡◌, ℕ, ◌+◌, ◌<◌, ◌≤◌, length, replicate, slice_index_or, slice_set, true, false, Contains, IfOk};
ghost use Rattle.rtl_drives.specs.Spans.{places_of};
ghost use Rattle.rtl_drives.specs.Marked.{marked, HasNoMark};
ghost use Rattle.rtl_drives.specs.Tracked.{LieWithin};

use crate::spans::{Span, are_free, take_off};
use std::alloc::{AllocError, Global};
use std::marker::Model;

/// A mark for each place. A span that is marked while nothing else is marked is kept as it is, and
/// marked place by place once there is more to mark or to look at. Contracts see the marks.
#[derive(Drop)]
pub(crate) struct Marks {
    marks: Vec<bool>,
    alone: Span,
}

impl Model for Marks {
    ghost use Rattle.std.specs.Prelude.{Bool, List};

    ghost Value = { List Bool };

    ghost use Rattle.rtl_drives.specs.Marked.{marks_of, IsMarking};

    ghost view = { marks_of };

    ghost invariant = { IsMarking };
}

impl Marks {
    /// So many places, none of which is marked.
    pub(crate) fn new(alloc: Global, many: usize) -> Result<Marks, AllocError>
        ensures { IfOk result (λ m. m ≡ replicate many false) }
    {
        Ok(Marks {
            marks: vec![in alloc; false; many]?,
            alone: Span { first: 0, len: 0 },
        })
    }

    /// How many places there are.
    pub(crate) fn len(&self) -> usize
        ensures { result ≡ length self.now }
    {
        self.marks.len()
    }

    /// Whether a place is marked.
    pub(crate) fn has(&self, place: usize) -> bool
        requires { place < length self.now }
        ensures { result ≡ slice_index_or self.now place false }
    {
        self.marks[place] || is_in(self.alone, place)
    }

    /// Marks a place.
    pub(crate) fn set(&mut self, place: usize)
        requires { place < length self.old }
        ensures { self.new ≡ slice_set self.old place true }
    {
        settle(&mut self.marks, &mut self.alone);
        self.marks[place] = true;
    }

    /// Whether no place of this span is marked.
    pub(crate) fn are_free(&mut self, first: usize, len: usize) -> bool
        requires { first + len ≤ length self.old }
        ensures stay { self.new ≡ self.old }
        ensures free { result ≡ true → (k : ℕ) → k < len → slice_index_or self.old (first + k) false ≡ false }
    {
        settle(&mut self.marks, &mut self.alone);
        are_free(&self.marks[first..first + len])
    }

    /// Marks the places of this span, which stay a span where no other place is marked.
    pub(crate) fn fill(&mut self, first: usize, len: usize, are_first: bool)
        requires within { first + len ≤ length self.old }
        requires first { are_first ≡ true → HasNoMark self.old }
        ensures { self.new ≡ marked first len self.old }
    {
        if are_first {
            self.alone = Span { first, len };
        } else {
            settle(&mut self.marks, &mut self.alone);
            fill(&mut self.marks, first, len);
        }
    }

    /// Takes the marks off at the places of these spans, which are all that are marked.
    pub(crate) fn take_off(&mut self, spans: &[Span])
        requires within { LieWithin (length self.old) spans.now }
        requires all { (place : ℕ) → slice_index_or self.old place false ≡ true → Contains (places_of spans.now) place }
        ensures { self.new ≡ replicate (length self.old) false }
    {
        if self.alone.len > 0 {
            self.alone = Span { first: 0, len: 0 };
        } else {
            take_off(&mut self.marks, spans);
        }
    }
}

/// Whether a place is one of the span's.
fn is_in(span: Span, place: usize) -> bool
    ensures yes { result ≡ true → (span.first ≤ place) × (place < span.first + span.len) }
    ensures no { result ≡ false → (k : ℕ) → k < span.len → span.first + k ≡ place → ⊥ }
{
    span.first <= place && place - span.first < span.len
}

/// Marks the places of a span, and leaves it empty.
fn settle(marks: &mut Vec<bool>, alone: &mut Span)
    requires { alone.old.first + alone.old.len ≤ length marks.old.items }
    ensures marks { marks.new.items ≡ marked alone.old.first alone.old.len marks.old.items }
    ensures within { alone.new.first + alone.new.len ≤ length marks.new.items }
    ensures none { alone.new.len ≡ 0 }
{
    let span = *alone;
    if span.len > 0 {
        fill(marks, span.first, span.len);
        *alone = Span { first: 0, len: 0 };
    }
}

/// Marks so many places from the first on.
fn fill(marks: &mut Vec<bool>, first: usize, len: usize)
    requires { first + len ≤ length marks.old.items }
    ensures { marks.new.items ≡ marked first len marks.old.items }
{
    marks[first..first + len].fill(true);
}
