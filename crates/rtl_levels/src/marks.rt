//! Marks of those that are to run.

ghost use Rattle.std.specs.Prelude.{◌≡◌, ◌<◌, [], length, slice_index_or, slice_set, All};
ghost use Rattle.rtl_kernel.specs.wakes.Woken.{AddsPlaces, wakers_of};
ghost use Rattle.rtl_levels.specs.Marks.{AreBelow, Marks};

use rtl_net_groups::Groups;

/// The readers of a net: what a change of it marks.
#[inline(always)]
pub fn readers_of(groups: &Groups, net: usize) -> &[usize]
    requires { net < length (wakers_of groups.now) }
    ensures { result.now ≡ slice_index_or (wakers_of groups.now) net [] }
{
    groups.listed(groups.of_net()[net])
}

/// Marks these numbers, of which mostly there is one.
#[inline(always)]
pub fn mark(marks: &mut Vec<bool>, numbers: &[usize])
    requires there { All (λ k. k < length marks.old.items) numbers.now }
    ensures as_many { length marks.new.items ≡ length marks.old.items }
    ensures marks { AddsPlaces numbers.now marks.old.items marks.new.items }
{
    if numbers.len() == 1 {
        marks[numbers[0]] = true;
    } else {
        mark_each(marks, numbers);
    }
}

/// Marks these numbers, however many there are.
#[inline(never)]
fn mark_each(marks: &mut Vec<bool>, numbers: &[usize])
    requires there { All (λ k. k < length marks.old.items) numbers.now }
    ensures as_many { length marks.new.items ≡ length marks.old.items }
    ensures marks { AddsPlaces numbers.now marks.old.items marks.new.items }
{
    for number in numbers {
        marks[*number] = true;
    }
}

/// Marks the readers of a net, if the value that the net is to get is new.
pub fn mark_readers(groups: &Groups, values: &[u8], net: usize, value: u8, marks: &mut Vec<bool>)
    requires there { net < length values.now }
    requires each_net { length (wakers_of groups.now) ≡ length values.now }
    requires below { AreBelow (wakers_of groups.now) (length marks.old.items) }
    ensures { Marks (wakers_of groups.now) (λ n. n ≡ net) values.now (slice_set values.now net value)
        marks.old.items marks.new.items }
{
    if values[net] != value {
        mark(marks, readers_of(groups, net));
    }
}
