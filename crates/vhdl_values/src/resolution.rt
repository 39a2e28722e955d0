//! Resolution of the values that drive one net.

ghost use Rattle.std.specs.Prelude.{◌≡◌, ◌<◌, fold, length};
ghost use Rattle.vhdl_values.specs.Resolution.{resolution_table, resolved};

use crate::scalar::Nine;

/// The value of a net that these values drive, one for each driver, at least one (std_logic_1164,
/// function `resolved`). A single driver gives its value unchanged, `-` too. Takes no memory.
pub fn resolve(values: &[Nine]) -> Nine
    requires { 0 < length values.now }
    ensures { result ≡ resolved values.now }
{
    if values.len() == 1 {
        return values[0];
    }
    fold_from_z(values)
}

/// The values folded from Z by the resolution table, one after the other.
fn fold_from_z(values: &[Nine]) -> Nine
    ensures { result ≡ fold resolution_table Nine.Z values.now }
{
    values
        .iter()
        .fold(Nine::Z, |net, value| resolve_two(net, *value))
}

/// The value of a net that these two drive.
fn resolve_two(left: Nine, right: Nine) -> Nine
    ensures { result ≡ resolution_table left right }
{
    match (left, right) {
        (Nine::U, _) | (_, Nine::U) => Nine::U,
        (Nine::X | Nine::Dash, _) | (_, Nine::X | Nine::Dash) => Nine::X,
        (Nine::Zero, Nine::One) | (Nine::One, Nine::Zero) => Nine::X,
        (Nine::Zero, _) | (_, Nine::Zero) => Nine::Zero,
        (Nine::One, _) | (_, Nine::One) => Nine::One,
        (Nine::Z, value) | (value, Nine::Z) => value,
        (Nine::L, Nine::L) => Nine::L,
        (Nine::H, Nine::H) => Nine::H,
        _ => Nine::W,
    }
}
