//! Kinds of signals and variables (IEEE 1076-2008, 5.2, 5.3).

ghost use Rattle.std.specs.Prelude.{◌≡◌};
ghost use Rattle.vhdl_expand_rules.specs.views.Kinds.{kind_view};
ghost use Rattle.vhdl_elab_rules.specs.laws.Signals as elab;

use rtl_net::SignalKind;
use vhdl_expand_rules::ObjectKind;

/// A kind as netlists have it.
pub fn signal_kind(kind: ObjectKind) -> SignalKind
    ensures { result ≡ elab.kind_view (kind_view kind) }
{
    match kind {
        ObjectKind::One => SignalKind::One,
        ObjectKind::Vector(bounds) => SignalKind::Vector {
            left: bounds.left,
            right: bounds.right,
        },
        ObjectKind::Enumeration(count) => SignalKind::Enumeration {
            count: count as u32,
        },
        ObjectKind::Integer(range) => SignalKind::Integer {
            least: range.lower(),
            greatest: range.upper(),
        },
        ObjectKind::Boolean => SignalKind::Boolean,
    }
}
