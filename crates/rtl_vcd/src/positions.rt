//! Positions of enumerations' values, in binary digits.

ghost use Rattle.std.specs.Prelude.{◌≡◌, ◌+◌, ◌≤◌, ◌++◌, length};
ghost use Rattle.rtl_vcd_values.specs.Values as spec;

use crate::page::{PAGE, Page};

/// Appends so many binary digits of the number, the lowest last.
pub(crate) fn push_digits(page: &mut Page, digits: u32, number: u64)
    requires few { digits ≤ 64 }
    requires room { length page.old + digits ≤ PAGE }
    ensures digits { page.new ≡ page.old ++ spec.binary digits number }
    ensures len { length page.new ≡ length page.old + digits }
{
    if digits == 0 {
        return;
    }
    let highest = (number >> (digits - 1)) % 2;
    page.push(b'0' + highest as u8);
    push_digits(page, digits - 1, number);
}
