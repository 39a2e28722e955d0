//! The declarations of an architecture (IEEE 1076-2008, 3.3.2).

ghost use Rattle.std.specs.Prelude.{◌≡◌, [], map, OnOk, IfErr};
ghost use Rattle.vhdl_names_declarations.specs.Counts.{AreCounts};
ghost use Rattle.vhdl_names_declarations.specs.Entered.{entering};
ghost use Rattle.vhdl_names_declarations.specs.Subtyping.{analysed_view};
ghost use Rattle.vhdl_names_interfaces.specs.Views.{entities_view};
ghost use Rattle.vhdl_names_rules.specs.Declarations.{in_order};
ghost use Rattle.vhdl_names_rules.specs.Files as rules;
ghost use Rattle.vhdl_names_rules.specs.Gives.{Gives};
ghost use Rattle.vhdl_names_rules.specs.Visibility.{with_declared};
ghost use Rattle.vhdl_tree.specs.View as tree;
ghost use Rattle.vhdl_names_units.specs.views.Declarations.{declarations_view};
ghost use Rattle.vhdl_names_rules.specs.problems.Broken.{Tells};
ghost use Rattle.vhdl_names_rules.specs.problems.Declarations as declarations_broken;
ghost use Rattle.vhdl_names_rules.specs.problems.Files as broken;

use crate::components::component;
use crate::entities::Entities;
use vhdl_names_declarations::Counts;
use vhdl_names_declarations::constants::constants;
use vhdl_names_declarations::enumeration::enumeration;
use vhdl_names_declarations::objects::signals;
use vhdl_names_declarations::process::push_if_any;
use vhdl_names_declarations::subtypes::subtype_declaration;
use vhdl_names_rules::NameFault;
use vhdl_names_sight::{Sight, names_are_apart};
use vhdl_names_units::Declaration;
use vhdl_tree as syntax;

/// One declaration, whose objects are numbered from here on. Nothing is analysed of a type or a
/// component.
fn declaration(
    entities: &Entities<'_>,
    sight: &mut Sight,
    counts: Counts,
    one: &syntax::Declaration,
) -> Result<Option<Declaration>, NameFault>
    requires counts { AreCounts counts sight.old.region }
    requires outermost { sight.old.enclosing ≡ [] }
    ensures given { Gives (λ d. (sight.new, analysed_view d))
        (entering (rules.declaration (entities_view entities.now)) sight.old
        (tree.declaration_view one.now)) result }
    ensures outermost { OnOk result (sight.new.enclosing ≡ []) }
    ensures told { IfErr result (Tells (broken.declaration (entities_view entities.now) sight.old
        (tree.declaration_view one.now))) }
{
    match one {
        syntax::Declaration::Signals(one) => {
            let done = signals(sight, counts, one)?;
            Ok(Some(done))
        }
        syntax::Declaration::Constants(one) => {
            let done = constants(sight, counts, one)?;
            Ok(Some(done))
        }
        syntax::Declaration::Enumeration(one) => {
            enumeration(sight, counts, one)?;
            Ok(None)
        }
        syntax::Declaration::Subtype(one) => subtype_declaration(sight, counts, one),
        syntax::Declaration::Attribute(_) => {
            names_are_apart(&sight.region);
            Ok(None)
        }
        syntax::Declaration::Component(one) => {
            component(entities, sight, one)?;
            Ok(None)
        }
    }
}

/// The declarations of an architecture, which are in sight of what follows; no region encloses that
/// of the sight. It takes memory for what is declared and analysed.
pub fn declarations(
    entities: &Entities<'_>,
    sight: &mut Sight,
    all: &[syntax::Declaration],
) -> Result<Vec<Declaration>, NameFault>
    requires { sight.old.enclosing ≡ [] }
    ensures given { Gives (λ v. (sight.new, declarations_view v))
        (entering (in_order with_declared (rules.declaration (entities_view entities.now))) sight.old
        (map tree.declaration_view all.now)) result }
    ensures outermost { OnOk result (sight.new.enclosing ≡ []) }
    ensures told { IfErr result (Tells (declarations_broken.in_order with_declared
        (rules.declaration (entities_view entities.now)) (broken.declaration (entities_view entities.now))
        sight.old (map tree.declaration_view all.now))) }
{
    let mut done = Vec::new(sight.alloc);
    names_are_apart(&sight.region);
    let mut counts = Counts::NONE.of(&sight.region, 0);
    for one in all {
        let first = sight.region.len();
        let next = declaration(entities, sight, counts, one)?;
        push_if_any(&mut done, next)?;
        counts = counts.of(&sight.region, first);
    }
    Ok(done)
}
