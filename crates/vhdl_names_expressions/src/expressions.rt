//! The types of expressions (IEEE 1076-2008, clause 9). Faults are told in order of the text, those
//! of operands before those of their operator.

ghost use Rattle.std.specs.Prelude.{◌≡◌, Some, IfErr};
ghost use Rattle.vhdl_names_rules.specs.problems.Broken.{Tells, refused, ◌▸◌};
ghost use Rattle.vhdl_names_rules.specs.problems.Expressions as broken;
ghost use Rattle.vhdl_names_rules.specs.problems.Places as places;
ghost use Rattle.vhdl_names_rules.specs.Expressions as rules;
ghost use Rattle.vhdl_names_rules.specs.Gives.{Gives};
ghost use Rattle.vhdl_names_rules.specs.declared.fault.NameProblem.TheVariants.{TypeMismatch};
ghost use Rattle.vhdl_names_trees.specs.views.Integers.{static_view};
ghost use Rattle.vhdl_tree.specs.Tree as t;
ghost use Rattle.vhdl_tree.specs.View.{view};
ghost use Rattle.vhdl_names_expressions.specs.Chosen.{started, links_of};
ghost use Rattle.vhdl_names_expressions.specs.Steps.{is_parens, enclosed_if, linked, all_linked, computed_of};
ghost use Rattle.vhdl_names_numbers.specs.Integers.{integer_view};
ghost use Rattle.vhdl_names_expressions.specs.Breaking.{link_breaks, all_break, started_breaks};
ghost use Rattle.vhdl_names_trees.specs.views.Expressions.{typed_view};

use crate::elements::{qualified, typed_elements};
use crate::name::named;
use vhdl_names_numbers::{Integer, absolute, signed};
use vhdl_names_operators::{
    bit_string_literal, character_literal, enclosed, in_parentheses, integer_literal, inverse,
    operated, power, string_literal,
};
use vhdl_names_rules::{NameFault, NameProblem, without};
use vhdl_names_sight::Sight;
use vhdl_names_trees::{Static, Typed};
use vhdl_tree::{Chain, Expr, Link, Power};

/// The byte at which an expression starts.
#[tactic(auto, using(crate::proofs::Starting::chain_starts))]
pub fn start(e: &Expr) -> usize
    ensures { result ≡ places.start (view e.now) }
{
    match e {
        Expr::Integer(literal) => literal.at,
        Expr::Character { at, .. } => *at,
        Expr::StringLiteral(literal) => literal.at,
        Expr::BitString(literal) => literal.at,
        Expr::Name(name) => name.identifier.at,
        Expr::Parens { at, .. } => *at,
        Expr::Not { at, .. } => *at,
        Expr::Abs { at, .. } => *at,
        Expr::Power(power) => start(&power.base),
        Expr::Signed { at, .. } => *at,
        Expr::Chain(chain) => start(&chain.first),
        Expr::Aggregate { at, .. } => *at,
        Expr::Qualified { mark, .. } => mark.at,
    }
}

/// The static integer that an operand is, which starts at byte `at`.
pub fn as_integer(operand: Typed, at: usize) -> Result<Static, NameFault>
    ensures given { Gives static_view (rules.as_integer (typed_view operand)) result }
    ensures told { IfErr result (Tells (refused TypeMismatch at)) }
{
    match operand {
        Typed::Integer(integer) => Ok(integer),
        _ => Err(NameProblem::TypeMismatch.at(at)),
    }
}

/// An operand behind one that may stand in parentheses.
fn beside(after_parens: bool, operand: Typed) -> Typed
    ensures { typed_view result ≡ enclosed_if after_parens (typed_view operand) }
{
    if after_parens {
        enclosed(operand)
    } else {
        operand
    }
}

/// Whether an expression stands in parentheses, or is a qualified one.
fn stands_in_parens(e: &Expr) -> bool
    ensures { result ≡ is_parens (view e.now) }
{
    match e {
        Expr::Parens { .. } | Expr::Qualified { .. } => true,
        _ => false,
    }
}

/// What an expression is, with its type, given the declarations in sight. It takes memory for what
/// is analysed.
#[cycle(typed)]
#[tactic(auto, unfolding(vhdl_names_rules::specs::Expressions::typed))]
pub fn typed(sight: &Sight, e: &Expr) -> Result<Typed, NameFault>
    ensures given { Gives typed_view (rules.typed sight.now (view e.now)) result }
    ensures told { IfErr result (Tells (broken.typed sight.now (view e.now))) }
{
    match e {
        Expr::Integer(literal) => integer_literal(literal),
        Expr::Character { at, code } => character_literal(*code, *at),
        Expr::StringLiteral(literal) => string_literal(sight.alloc, literal),
        Expr::BitString(literal) => bit_string_literal(sight.alloc, literal),
        Expr::Name(name) => named(sight, name),
        Expr::Parens { inner, .. } => {
            let operand = typed(sight, inner)?;
            in_parentheses(operand, start(inner))
        }
        Expr::Not { at, operand } => {
            let operand = typed(sight, operand)?;
            inverse(sight.alloc, *at, operand)
        }
        Expr::Abs { at, operand } => {
            let operand = typed(sight, operand)?;
            absolute(sight.alloc, operand, *at)
        }
        Expr::Power(power) => raised(sight, power),
        Expr::Signed { sign, at, operand } => {
            let operand = typed(sight, operand)?;
            signed(sight.alloc, *sign, operand, *at)
        }
        Expr::Chain(chain) => {
            let begun = begun(sight, chain)?;
            further(sight, chain, begun)
        }
        Expr::Aggregate { at, elements } => {
            let elements = typed_elements(sight, elements)?;
            Ok(Typed::composite(*at, elements))
        }
        Expr::Qualified { mark, at, elements } => qualified(sight, mark, elements, *at),
    }
}

/// A power: a base, and behind it an exponent.
#[cycle(typed)]
fn raised(sight: &Sight, raised: &Power) -> Result<Typed, NameFault>
    ensures given { Gives typed_view
        (rules.typed sight.now (t.power (view raised.now.base) raised.now.at (view raised.now.exponent))) result }
    ensures told { IfErr result (Tells
        (broken.typed sight.now (t.power (view raised.now.base) raised.now.at (view raised.now.exponent)))) }
{
    let base = typed(sight, &raised.base)?;
    let exponent = typed(sight, &raised.exponent)?;
    power(sight.alloc, raised.at, base, exponent)
}

/// A chain's first operand and its first operator with the right operand.
#[cycle(typed)]
fn begun(sight: &Sight, chain: &Chain) -> Result<Typed, NameFault>
    ensures given { Gives typed_view (started sight.now chain.now) result }
    ensures told { IfErr result (Tells (started_breaks sight.now chain.now)) }
{
    let first = typed(sight, &chain.first)?;
    let after_parens = stands_in_parens(&chain.first);
    link(sight, &chain.second, after_parens, first)
}

/// A chain's further operators, on what stands before them.
#[cycle(typed)]
fn further(sight: &Sight, chain: &Chain, before: Typed) -> Result<Typed, NameFault>
    ensures given { Gives typed_view (all_linked sight.now (Some (typed_view before)) (links_of chain.now)) result }
    ensures told { IfErr result (Tells (all_break sight.now (Some (typed_view before)) (links_of chain.now))) }
{
    links(sight, &chain.rest, before)
}

/// An operator and its right operand, behind a left one that may stand in parentheses.
#[cycle(typed)]
fn link(sight: &Sight, link: &Link, after_parens: bool, first: Typed) -> Result<Typed, NameFault>
    ensures given { Gives typed_view (linked sight.now after_parens (Some (typed_view first)) link.now) result }
    ensures told { IfErr result (Tells (link_breaks sight.now after_parens (Some (typed_view first)) link.now)) }
{
    let operand = typed(sight, &link.operand)?;
    let operand = beside(after_parens, operand);
    operated(
        sight.alloc,
        sight.language,
        sight.has_numbers,
        link.operator,
        link.at,
        first,
        operand,
    )
}

/// A chain's further links, on what stands before them.
#[cycle(typed)]
#[tactic(auto, using(crate::proofs::Chains::all_linked_none))]
fn links(sight: &Sight, links: &[Link], first: Typed) -> Result<Typed, NameFault>
    ensures given { Gives typed_view (all_linked sight.now (Some (typed_view first)) links.now) result }
    ensures told { IfErr result (Tells (all_break sight.now (Some (typed_view first)) links.now)) }
{
    let mut done = first;
    for next in links {
        done = link(sight, next, false, done)?;
    }
    Ok(done)
}

/// The integer that an expression is, which a run may compute.
#[cycle(typed)]
pub(crate) fn computed_integer(sight: &Sight, e: &Expr) -> Result<Integer, NameFault>
    ensures given { Gives integer_view (computed_of sight.now (view e.now)) result }
    ensures told { IfErr result (Tells (broken.typed sight.now (view e.now)
        ▸ broken.computed_wanted (places.start (view e.now)) (rules.typed sight.now (view e.now)))) }
{
    let value = typed(sight, e)?;
    match Integer::of(value) {
        Ok(integer) => Ok(integer),
        Err(value) => Err(without(value, NameProblem::TypeMismatch.at(start(e)))),
    }
}

/// The static integer that an expression is. It takes memory for what is analysed.
#[cycle(typed)]
#[tactic(auto, using(crate::proofs::Chains::static_is))]
pub fn static_integer(sight: &Sight, e: &Expr) -> Result<Static, NameFault>
    ensures given { Gives static_view (rules.static sight.now (view e.now)) result }
    ensures told { IfErr result (Tells (broken.static sight.now (view e.now))) }
{
    let value = typed(sight, e)?;
    as_integer(value, start(e))
}
