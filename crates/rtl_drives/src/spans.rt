//! Places that stand one after another.

ghost use Rattle.std.specs.Prelude.{◌≡◌, ◌<◌, ℕ, length, replicate, slice_index_or, true, false, Contains};
ghost use Rattle.rtl_drives.specs.Spans.{places_of};
ghost use Rattle.rtl_drives.specs.Tracked.{LieWithin};

/// So many places, each one above the one before it.
#[derive(Clone, Copy)]
pub struct Span {
    pub first: usize,
    pub len: usize,
}

/// Whether none of these is set.
pub(crate) fn are_free(marks: &[bool]) -> bool
    ensures { result ≡ true → (k : ℕ) → k < length marks.now → slice_index_or marks.now k false ≡ false }
{
    let mut any = false;
    for mark in marks {
        any = any | *mark;
    }
    !any
}

/// Takes the marks off at the places of these spans, which are all that are set.
pub(crate) fn take_off(marks: &mut [bool], spans: &[Span])
    requires within { LieWithin (length marks.old) spans.now }
    requires all { (place : ℕ) → slice_index_or marks.old place false ≡ true → Contains (places_of spans.now) place }
    ensures { marks.new ≡ replicate (length marks.old) false }
{
    for span in spans {
        marks[span.first..span.first + span.len].fill(false);
    }
}
