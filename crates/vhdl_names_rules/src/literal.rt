//! What literals stand for (IEEE 1076-2008, 9.3.2 and 15.5 to 15.8).

ghost use Rattle.std.specs.Prelude.{◌≡◌};
ghost use Rattle.vhdl_names_rules.specs.Literals as rules;

use vhdl_values::Nine;

/// The value of a character: one of the nine, letters in capitals.
pub fn nine_of(character: u8) -> Option<Nine>
    ensures { result ≡ rules.nine_of character }
{
    match character {
        b'U' => Some(Nine::U),
        b'X' => Some(Nine::X),
        b'0' => Some(Nine::Zero),
        b'1' => Some(Nine::One),
        b'Z' => Some(Nine::Z),
        b'W' => Some(Nine::W),
        b'L' => Some(Nine::L),
        b'H' => Some(Nine::H),
        b'-' => Some(Nine::Dash),
        _ => None,
    }
}
