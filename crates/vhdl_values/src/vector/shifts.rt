//! Changes of length, shifts and rotates of a vector.

ghost use Rattle.std.specs.Prelude.{◌≡◌, ◌≤◌, length};
ghost use Rattle.vhdl_values.specs.Shifts.{shifted_left, shifted_right, rotated_left, resized, resized_signed, leftmost};
ghost use Rattle.vhdl_values.specs.Shifts.{shifted_of, counted_of, counted_length, IsCount};
ghost use Rattle.vhdl_values.specs.declared.scalar.Nine.TheVariants.{Zero};

use super::Vec9;
use crate::kinds::{Counted, Shift};
use crate::scalar::Nine;

impl Vec9 {
    /// The vector at another length, 1 to 64 (numeric_std, `RESIZE`, R.2): with 0s to its left, or
    /// its rightmost values alone.
    pub fn resize(&self, len: usize) -> Vec9
        requires some { 1 ≤ len }
        requires room { len ≤ 64 }
        ensures list { result ≡ resized Zero len self.now }
        ensures len { length result ≡ len }
    {
        if len <= self.len() {
            self.slice(self.len() - len, len)
        } else {
            Vec9::fill(Nine::Zero, len - self.len()).concat(self)
        }
    }

    /// A `signed` at another length, 1 to 64 (numeric_std, `RESIZE`, R.1): its leftmost value, as
    /// often as there is room, and the rightmost of the others.
    pub fn resize_signed(&self, len: usize) -> Vec9
        requires some { 1 ≤ len }
        requires room { len ≤ 64 }
        ensures list { result ≡ resized_signed Zero len self.now }
        ensures len { length result ≡ len }
    {
        let others = len.min(self.len()) - 1;
        let sign = Vec9::fill(self.get(0), len - others);
        if others == 0 {
            sign
        } else {
            sign.concat(&self.slice(self.len() - others, others))
        }
    }

    /// The values moved that many places to the left, with 0s to their right (numeric_std,
    /// `SHIFT_LEFT`, S.1): all 0 from the length on.
    pub fn shl(&self, count: usize) -> Vec9
        ensures list { result ≡ shifted_left Zero count self.now }
        ensures len { length result ≡ length self.now }
    {
        let len = self.len();
        if count == 0 {
            *self
        } else if count < len {
            self.slice(count, len - count)
                .concat(&Vec9::fill(Nine::Zero, count))
        } else {
            Vec9::fill(Nine::Zero, len)
        }
    }

    /// The values moved that many places to the right, with 0s to their left (numeric_std,
    /// `SHIFT_RIGHT`, S.2): all 0 from the length on.
    pub fn shr(&self, count: usize) -> Vec9
        ensures list { result ≡ shifted_right Zero count self.now }
        ensures len { length result ≡ length self.now }
    {
        self.moved_right(count, Nine::Zero)
    }

    /// The same of a `signed`, with its leftmost value to its left (numeric_std, `SHIFT_RIGHT`,
    /// S.4).
    pub fn shr_signed(&self, count: usize) -> Vec9
        ensures list { result ≡ shifted_right (leftmost Zero self.now) count self.now }
        ensures len { length result ≡ length self.now }
    {
        let _len = self.len();
        self.moved_right(count, self.get(0))
    }

    /// The values moved that many places to the right, with this one to their left.
    fn moved_right(&self, count: usize, filler: Nine) -> Vec9
        ensures list { result ≡ shifted_right filler count self.now }
        ensures len { length result ≡ length self.now }
    {
        let len = self.len();
        if count == 0 {
            *self
        } else if count < len {
            Vec9::fill(filler, count).concat(&self.slice(0, len - count))
        } else {
            Vec9::fill(filler, len)
        }
    }

    /// The values moved that many places to the left, what falls off coming in on the right
    /// (numeric_std, `ROTATE_LEFT`, S.5).
    pub fn rotate_left(&self, count: usize) -> Vec9
        ensures list { result ≡ rotated_left count self.now }
        ensures len { length result ≡ length self.now }
    {
        let len = self.len();
        let count = count % len;
        if count == 0 {
            *self
        } else {
            self.slice(count, len - count).concat(&self.slice(0, count))
        }
    }

    /// The values shifted, or rotated, by a number of places.
    pub fn shifted(&self, by: Shift, count: usize) -> Vec9
        ensures list { result ≡ shifted_of Zero by count self.now }
        ensures len { length result ≡ length self.now }
    {
        match by {
            Shift::Left => self.shl(count),
            Shift::Right => self.shr(count),
            Shift::RightSigned => self.shr_signed(count),
            Shift::RotateLeft => self.rotate_left(count),
        }
    }

    /// An operator with a count.
    pub fn counted(&self, operator: Counted, count: usize) -> Vec9
        requires { IsCount operator count }
        ensures list { result ≡ counted_of Zero operator count self.now }
        ensures len { length result ≡ counted_length operator count (length self.now) }
    {
        match operator {
            Counted::Resize => self.resize(count),
            Counted::ResizeSigned => self.resize_signed(count),
            Counted::Shift(by) => self.shifted(by, count),
        }
    }
}
