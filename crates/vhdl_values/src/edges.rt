//! Edges of a scalar signal.

ghost use Rattle.std.specs.Prelude.{◌≡◌, ◌↔◌, IsTrue};
ghost use Rattle.vhdl_values.specs.Edges.{HasEdge, has_edge};

use crate::kinds::Edge;
use crate::scalar::Nine;

/// Whether a change from the value `old` to the value `new` is an edge of that kind
/// (std_logic_1164, `rising_edge` and `falling_edge`; for `To1` and `To0`, `s'event and s = '1'`
/// and its kin). Where the two are equal there is no event, and so no edge. Takes no memory.
pub fn edge(kind: Edge, old: Nine, new: Nine) -> bool
    ensures meaning { IsTrue result ↔ HasEdge kind old new }
    ensures test { result ≡ has_edge kind old new }
{
    old != new
        && match kind {
            Edge::Rising => old.x01() == Nine::Zero && new.x01() == Nine::One,
            Edge::Falling => old.x01() == Nine::One && new.x01() == Nine::Zero,
            Edge::To1 => new == Nine::One,
            Edge::To0 => new == Nine::Zero,
        }
}
