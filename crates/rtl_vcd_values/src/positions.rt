//! Positions of enumerations' values, in binary digits.

ghost use Rattle.std.specs.Prelude.{◌≡◌, not};
ghost use Rattle.std.specs.Str.{bytes_eq};
ghost use Rattle.rtl_vcd_values.specs.Values as spec;

/// Whether one position prints otherwise than the other in so many binary digits.
pub fn is_other_position(digits: u8, before: u8, now: u8) -> bool
    ensures { result ≡ not (bytes_eq (spec.binary digits before) (spec.binary digits now)) }
{
    if digits == 0 {
        return false;
    }
    if before % 2 != now % 2 {
        return true;
    }
    is_other_position(digits - 1, before / 2, now / 2)
}
