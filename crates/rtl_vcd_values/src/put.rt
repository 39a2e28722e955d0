//! Runs of values as characters, behind the first bytes of a room.

ghost use Rattle.std.specs.Prelude.{◌≡◌, ◌+◌, ◌≤◌, ◌||◌, length, take};
ghost use Rattle.rtl_vcd_values.specs.Puts.{IsPut};

use crate::characters::put_lanes;
use crate::line::{character, is_other_character};

/// How many values are put, and whether the old ones print otherwise.
#[derive(Clone, Copy)]
struct Front {
    many: usize,
    is_other: bool,
}

/// Puts what the new values print as behind the first bytes of the room. Answers whether the old
/// ones print otherwise. What stands behind these characters is lost, too, or isn't.
pub fn put_run(room: &mut [u8], from: usize, old: &[u8], new: &[u8]) -> bool
    requires as_many { length old.now ≡ length new.now }
    requires room { from + length new.now ≤ length room.old }
    ensures { IsPut room.old room.new from old.now new.now result }
{
    let front = put_front(room, from, old, new);
    let done = front.many;
    if done == new.len() {
        return front.is_other;
    }
    let is_more = put_each(room, from + done, &old[done..], &new[done..]);
    either(front.is_other, is_more)
}

/// The same of the first values, as many as are put at once: 64, 32, 16, eight or four, or none
/// where they are fewer.
fn put_front(room: &mut [u8], from: usize, old: &[u8], new: &[u8]) -> Front
    requires as_many { length old.now ≡ length new.now }
    requires room { from + length new.now ≤ length room.old }
    ensures within { result.many ≤ length new.now }
    ensures front { IsPut room.old room.new from (take result.many old.now) (take result.many new.now) result.is_other }
{
    if new.len() >= 64 {
        return Front {
            many: 64,
            is_other: put_lanes::<64>(room, from, old, new),
        };
    }
    if new.len() >= 32 {
        return Front {
            many: 32,
            is_other: put_lanes::<32>(room, from, old, new),
        };
    }
    if new.len() >= 16 {
        return Front {
            many: 16,
            is_other: put_lanes::<16>(room, from, old, new),
        };
    }
    if new.len() >= 8 {
        return Front {
            many: 8,
            is_other: put_lanes::<8>(room, from, old, new),
        };
    }
    if new.len() >= 4 {
        return Front {
            many: 4,
            is_other: put_lanes::<4>(room, from, old, new),
        };
    }
    Front {
        many: 0,
        is_other: false,
    }
}

/// The same, one value at a time.
fn put_each(room: &mut [u8], from: usize, old: &[u8], new: &[u8]) -> bool
    requires as_many { length old.now ≡ length new.now }
    requires room { from + length new.now ≤ length room.old }
    ensures { IsPut room.old room.new from old.now new.now result }
{
    let mut is_other = false;
    for at in 0..new.len() {
        let now = new[at];
        room[from + at] = character(now);
        is_other = either(is_other, is_other_character(old[at], now));
    }
    is_other
}

/// Whether one of both is true.
fn either(one: bool, other: bool) -> bool
    ensures { result ≡ (one || other) }
{
    one || other
}
