//! What generates go by (IEEE 1076-2008, 11.9).

ghost use Rattle.std.specs.Prelude.{List, ℕ, IfErr};
ghost use Rattle.vhdl_names_rules.specs.problems.Broken.{Tells};
ghost use Rattle.vhdl_names_rules.specs.problems.Concurrent as broken;
ghost use Rattle.vhdl_names_rules.specs.Concurrent as rules;
ghost use Rattle.vhdl_names_rules.specs.Gives.{Gives};
ghost use Rattle.vhdl_names_rules.specs.units.Units as u;
ghost use Rattle.vhdl_tree.specs.View.{scheme_view};
ghost use Rattle.vhdl_names_units.specs.views.Concurrent.{generated};

use vhdl_names_asked::{static_condition, static_range};
use vhdl_names_rules::NameFault;
use vhdl_names_sight::Sight;
use vhdl_names_units::Scheme;
use vhdl_tree as syntax;

/// A parameter's range, or a condition over static integers.
pub fn scheme(sight: &Sight, scheme: &syntax::Scheme) -> Result<Scheme, NameFault>
    ensures given { (label : List ℕ) (at : ℕ) (body : u.Concurrents) → Gives (generated label at body)
        (rules.generated sight.now label at (scheme_view scheme.now) body) result }
    ensures told { IfErr result (Tells (broken.scheme sight.now (scheme_view scheme.now))) }
{
    match scheme {
        syntax::Scheme::For { range, .. } => Ok(Scheme::For(static_range(sight, range)?)),
        syntax::Scheme::If { condition } => { Ok(Scheme::If(static_condition(sight, condition)?)) }
    }
}
