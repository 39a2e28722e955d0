//! No number is chosen twice (IEEE 1076-2008, 10.9).

ghost use Rattle.std.specs.Prelude.{◌≡◌, [], not, map};
ghost use Rattle.std.specs.List.{list_any};
ghost use Rattle.vhdl_expand_rules.specs.Statements as definition;
ghost use Rattle.vhdl_expand_rules.specs.views.Integers.{Makes};
ghost use Rattle.vhdl_expand_numbers.specs.Views.{limits_view};
ghost use Rattle.vhdl_expand_choices.specs.Views.{chosen_span, spanned_view};

use crate::limits::overlap;
use crate::spans::Spanned;
use vhdl_expand_numbers::Limits;
use vhdl_expand_rules::{ElabFault, ElabProblem};

/// Whether none of these numbers is one of a choice before.
fn is_apart(before: &[Spanned], numbers: Limits) -> bool
    ensures { result ≡ not (list_any (definition.overlap (limits_view numbers)) (map chosen_span before.now)) }
{
    for other in before {
        if overlap(numbers, other.limits) {
            return false;
        }
    }
    true
}

/// Sees that no number is chosen twice; a fault is Index at the later choice. Numbers that are
/// greater than all before them are apart.
pub(crate) fn are_apart(spans: &[Spanned]) -> Result<(), ElabFault>
    ensures { Makes (λ _. tt) (definition.are_apart [] (map spanned_view spans.now)) result }
{
    let mut greatest = i64::MIN;
    for (place, next) in spans.iter().enumerate() {
        let numbers = next.limits;
        if i64::from(numbers.least) <= greatest && !is_apart(&spans[..place], numbers) {
            return Err(ElabProblem::Index.at(next.at));
        }
        greatest = greatest.max(i64::from(numbers.greatest));
    }
    Ok(())
}
