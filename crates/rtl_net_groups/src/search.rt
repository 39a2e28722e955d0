//! Search for marks.

ghost use Rattle.std.specs.Prelude.{◌≡◌, ℕ, ◌<◌, ◌≤◌, true, false, length, slice_index_or};
ghost use Rattle.rtl_net_groups.specs.NextMarks.{AreUnmarked, IsNextMark};

/// The first marked place from this one on, or how many places there are. It looks at the nearest
/// places one by one, and at all others sixteen at once.
pub fn next_marked(marks: &[bool], from: usize) -> usize
    requires { from ≤ length marks.now }
    ensures { IsNextMark marks.now from (length marks.now) result }
{
    let near = marks.len().min(from + 4);
    let next = first_marked(marks, from, near);
    if next < near {
        return next;
    }
    let rest = after_unmarked(marks, near);
    first_marked(marks, rest, marks.len())
}

/// The first marked place from one on and before an end, or the end.
fn first_marked(marks: &[bool], from: usize, end: usize) -> usize
    requires from { from ≤ end }
    requires end { end ≤ length marks.now }
    ensures { IsNextMark marks.now from end result }
{
    for place in from..end {
        if marks[place] {
            return place;
        }
    }
    end
}

/// A place from this one on, before which none from this one on is marked. It looks at sixteen
/// places at once.
fn after_unmarked(marks: &[bool], from: usize) -> usize
    requires { from ≤ length marks.now }
    ensures later { from ≤ result }
    ensures within { result ≤ length marks.now }
    ensures unmarked { AreUnmarked marks.now from result }
{
    let mut place = from;
    while marks.len() - place >= 16 {
        if has_mark(&marks[place..place + 16]) {
            return place;
        }
        place += 16;
    }
    place
}

/// Whether one of these is marked.
pub(crate) fn has_mark(marks: &[bool]) -> bool
    ensures none { result ≡ false → (k : ℕ) → k < length marks.now → slice_index_or marks.now k false ≡ false }
    ensures some { result ≡ true → (k : ℕ) × (k < length marks.now) × (slice_index_or marks.now k false ≡ true) }
{
    let mut any = false;
    for mark in marks {
        any = any | *mark;
    }
    any
}
