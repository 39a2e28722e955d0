//! Locally static expressions (IEEE 1076-2008, 9.4.2): they name no generic and no parameter,
//! themselves or through what they name.

ghost use Rattle.std.specs.Prelude.{◌≡◌, map, option_map, option_copied};
ghost use Rattle.std.specs.List.{list_all};
ghost use Rattle.vhdl_names_rules.specs.Local as rules;
ghost use Rattle.vhdl_names_rules.specs.Visibility.{Name};
ghost use Rattle.vhdl_names_sight.specs.Views.{meaning_view, entry_of};
ghost use Rattle.vhdl_tree.specs.Tree as t;
ghost use Rattle.vhdl_tree.specs.View.{view, suffix_view, chain_view, discrete_range_view, subtype_view};

use vhdl_names_sight::{Entry, Meaning, Sight};
use vhdl_tree::{Chain, Constraint, DiscreteRange, Expr, Link, Subtype, Suffix};

/// Whether a name of this meaning is a generic or a parameter.
fn is_parameter(meaning: &Meaning) -> bool
    ensures { result ≡ rules.is_parameter (meaning_view meaning.now) }
{
    match meaning {
        Meaning::Generic(_)
        | Meaning::BooleanGeneric(_)
        | Meaning::GenerateParameter(_)
        | Meaning::LoopParameter(_) => true,
        _ => false,
    }
}

/// Whether a name is declared, and locally static.
fn names_local(found: Option<&Entry>) -> bool
    ensures { (n : Name) → result ≡ rules.names_local (option_map (entry_of n) (option_copied found.entry)) }
{
    match found {
        None => false,
        Some(entry) => !entry.is_global && !is_parameter(&entry.meaning),
    }
}

/// Whether an integer or a boolean is locally static.
#[cycle(is_local)]
#[tactic(auto, unfolding(vhdl_names_rules::specs::Local::is_local))]
pub fn is_local(sight: &Sight, e: &Expr) -> bool
    ensures { result ≡ rules.is_local sight.now (view e.now) }
{
    match e {
        Expr::Name(name) => {
            names_local(sight.declaration(&name.identifier.text))
                && suffix_is_local(sight, &name.suffix)
        }
        Expr::Parens { inner, .. } => is_local(sight, inner),
        Expr::Not { operand, .. } => is_local(sight, operand),
        Expr::Abs { operand, .. } => is_local(sight, operand),
        Expr::Power(power) => is_local(sight, &power.base) && is_local(sight, &power.exponent),
        Expr::Signed { operand, .. } => is_local(sight, operand),
        Expr::Chain(chain) => chain_is_local(sight, chain),
        _ => true,
    }
}

/// Whether all operands of a chain are locally static.
#[cycle(is_local)]
#[tactic(auto, using(crate::proofs::Locals::chain_local))]
fn chain_is_local(sight: &Sight, chain: &Chain) -> bool
    ensures { result ≡ rules.is_local sight.now (chain_view chain.now) }
{
    is_local(sight, &chain.first)
        && is_local(sight, &chain.second.operand)
        && links_are_local(sight, &chain.rest)
}

/// Whether the right operands of links are locally static.
#[cycle(is_local)]
fn links_are_local(sight: &Sight, links: &[Link]) -> bool
    ensures { result ≡ list_all (λ l. rules.is_local sight.now (view l.operand)) links.now }
{
    for link in links {
        if !is_local(sight, &link.operand) {
            return false;
        }
    }
    true
}

/// Whether what stands in parentheses behind a name is locally static.
#[cycle(is_local)]
#[tactic(auto, unfolding(vhdl_names_rules::specs::Local::suffix_is_local))]
fn suffix_is_local(sight: &Sight, suffix: &Suffix) -> bool
    ensures { result ≡ rules.suffix_is_local sight.now (suffix_view suffix.now) }
{
    match suffix {
        Suffix::Plain => true,
        Suffix::Arguments(all) => are_local(sight, all),
        Suffix::Range(range) => is_local(sight, &range.left) && is_local(sight, &range.right),
    }
}

/// Whether indexes or arguments are locally static.
#[cycle(is_local)]
#[tactic(auto, unfolding(vhdl_names_rules::specs::Local::are_local))]
fn are_local(sight: &Sight, all: &[Expr]) -> bool
    ensures { result ≡ rules.are_local sight.now (t.exprs_of (map view all.now)) }
{
    for e in all {
        if !is_local(sight, e) {
            return false;
        }
    }
    true
}

/// Whether a range is locally static.
fn range_is_local(sight: &Sight, range: &DiscreteRange) -> bool
    ensures { result ≡ rules.range_is_local sight.now (discrete_range_view range.now) }
{
    match range {
        DiscreteRange::Bounds(range) => {
            is_local(sight, &range.left) && is_local(sight, &range.right)
        }
        DiscreteRange::Name(name) => {
            names_local(sight.declaration(&name.identifier.text))
                && suffix_is_local(sight, &name.suffix)
        }
    }
}

/// Whether a subtype indication is locally static: its type's name, and the range behind that.
pub fn subtype_is_local(sight: &Sight, indication: &Subtype) -> bool
    ensures { result ≡ rules.subtype_is_local sight.now (subtype_view indication.now) }
{
    if !names_local(sight.declaration(&indication.mark.text)) {
        return false;
    }
    match &indication.constraint {
        None => true,
        Some(Constraint::Index(range) | Constraint::Range(range)) => range_is_local(sight, range),
    }
}
