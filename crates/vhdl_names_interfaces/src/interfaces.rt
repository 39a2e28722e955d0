//! Whether a component is its entity's interface, token for token apart from case (IEEE 1076-2008,
//! 6.8).

ghost use Rattle.std.specs.Prelude.{◌≡◌, ◌&&◌};
ghost use Rattle.vhdl_names_rules.specs.SameText as rules;
ghost use Rattle.vhdl_tree.specs.View as tree;

use crate::alike::Alike;
use crate::same::{same_expr, same_named, same_range};
use vhdl_tree::{
    Component, Constraint, DiscreteRange, Entity, Expr, Generic, Mode, Port, Subtype, Value,
};

impl Alike for bool {
    ghost alike = { rules.same_word };

    fn is_like(&self, other: &bool) -> bool {
        *self == *other
    }
}

impl Alike for Mode {
    ghost alike = { rules.same_mode };

    fn is_like(&self, other: &Mode) -> bool {
        match (self, other) {
            (Mode::In, Mode::In) | (Mode::Out, Mode::Out) => true,
            _ => false,
        }
    }
}

impl Alike for Expr {
    ghost alike = { λ a b. rules.same_expr (tree.view a) (tree.view b) };

    fn is_like(&self, other: &Expr) -> bool {
        same_expr(self, other)
    }
}

impl Alike for Value {
    ghost alike = { λ a b. rules.same_value (tree.value_view a) (tree.value_view b) };

    fn is_like(&self, other: &Value) -> bool {
        match (self, other) {
            (Value::Expr(a), Value::Expr(b)) => same_expr(a, b),
            (Value::Others { element: a, .. }, Value::Others { element: b, .. }) => same_expr(a, b),
            _ => false,
        }
    }
}

impl Alike for DiscreteRange {
    ghost alike = { λ a b. rules.same_discrete_range (tree.discrete_range_view a) (tree.discrete_range_view b) };

    fn is_like(&self, other: &DiscreteRange) -> bool {
        match (self, other) {
            (DiscreteRange::Bounds(a), DiscreteRange::Bounds(b)) => same_range(a, b),
            (DiscreteRange::Name(a), DiscreteRange::Name(b)) => same_named(a, b),
            _ => false,
        }
    }
}

impl Alike for Constraint {
    ghost alike = { λ a b. rules.same_constraint (tree.constraint_view a) (tree.constraint_view b) };

    fn is_like(&self, other: &Constraint) -> bool {
        match (self, other) {
            (Constraint::Index(a), Constraint::Index(b)) => a.is_like(b),
            (Constraint::Range(a), Constraint::Range(b)) => a.is_like(b),
            _ => false,
        }
    }
}

impl Alike for Subtype {
    ghost alike = { λ a b. rules.same_subtype (tree.subtype_view a) (tree.subtype_view b) };

    fn is_like(&self, other: &Subtype) -> bool {
        self.mark.is_like(&other.mark) && self.constraint.is_like(&other.constraint)
    }
}

impl Alike for Generic {
    ghost alike = { λ a b. rules.same_generic (tree.generic_view a) (tree.generic_view b) };

    #[tactic(auto, using(crate::proofs::Pairwise::names_alike))]
    fn is_like(&self, other: &Generic) -> bool {
        self.constant_word.is_like(&other.constant_word)
            && self.names.is_like(&other.names)
            && self.in_word.is_like(&other.in_word)
            && self.subtype.is_like(&other.subtype)
            && self.default.is_like(&other.default)
    }
}

impl Alike for Port {
    ghost alike = { λ a b. rules.same_port (tree.port_view a) (tree.port_view b) };

    #[tactic(auto, using(crate::proofs::Pairwise::names_alike))]
    fn is_like(&self, other: &Port) -> bool {
        self.signal_word.is_like(&other.signal_word)
            && self.names.is_like(&other.names)
            && self.mode.is_like(&other.mode)
            && self.subtype.is_like(&other.subtype)
            && self.default.is_like(&other.default)
    }
}

/// Whether a component has the generics and ports of an entity, token for token apart from case.
#[tactic(auto, using(crate::proofs::Pairwise::generics_alike, crate::proofs::Pairwise::ports_alike))]
pub fn has_interface(component: &Component, entity: &Entity) -> bool
    ensures { result ≡ (rules.same_generics
        (tree.option_generics_view component.now.generics) (tree.option_generics_view entity.now.generics)
        && rules.same_ports (tree.option_ports_view component.now.ports) (tree.option_ports_view entity.now.ports)) }
{
    component.generics.is_like(&entity.generics) && component.ports.is_like(&entity.ports)
}
