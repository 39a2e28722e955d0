//! The units of a file (IEEE 1076-2008, clause 13).

ghost use Rattle.std.specs.Prelude.{◌≡◌, false, IfOk, IfErr, IsTrue, drop, length, map, None, option_map, replicate, Some};
ghost use Rattle.std.specs.Vec.Iter.{into_iter_items};
ghost use Rattle.vhdl_names.specs.Finding.{Finds};
ghost use Rattle.vhdl_names.specs.Spelled.{IsSpelled};
ghost use Rattle.vhdl_names.specs.steps.Architectures.{options_view, with_unit};
ghost use Rattle.vhdl_names.specs.steps.Units as steps;
ghost use Rattle.vhdl_names_interfaces.specs.Views.{entities_view, named_view};
ghost use Rattle.vhdl_names_units.specs.Lists.{in_turn};
ghost use Rattle.vhdl_names_units.specs.Once.{names_view};
ghost use Rattle.vhdl_names_laws.specs.Laws.{small_ports_are_distinct};
ghost use Rattle.vhdl_names_rules.specs.problems.Broken.{Tells, any_of};
ghost use Rattle.vhdl_names_rules.specs.problems.Files as broken;
ghost use Rattle.vhdl_names_rules.specs.Files.{architectures_of as all_of, units_of};
ghost use Rattle.vhdl_names_rules.specs.Visibility.{Name};
ghost use Rattle.vhdl_names_rules.specs.Gives.{Gives};
ghost use Rattle.vhdl_names_rules.specs.sound.Named.{are_named};
ghost use Rattle.vhdl_names_rules.specs.sound.Units.{are_sound};
ghost use Rattle.vhdl_tree.specs.View.{file_view};
ghost use Rattle.vhdl_tree.specs.grammar.Units.{IsFile, IsFileIn};
ghost use Rattle.vhdl_lexer.specs.declared.language.Language.TheVariants.{Profile};
ghost use Rattle.vhdl_names_rules.specs.Registers.{units_in};
ghost use Rattle.vhdl_names_units.specs.views.Units as views;

use crate::architectures::architectures_of;
use crate::entities::entities_of;
use crate::faults::{beside, earlier_of};
use crate::outline::{Outline, outline_of};
use crate::tables::{Given, table};
use std::alloc::{AllocError, Global};
use std::vec;
use vhdl_lexer::Language;
use vhdl_names_interfaces::{Entities, EntityInterface};
use vhdl_names_registers::written;
use vhdl_names_rules::NameFault;
use vhdl_names_units::{Architecture, Entity, Units};
use vhdl_tree::{File, Identifier};

/// The next architecture, if the next entity has one.
fn next_of(rest: &mut vec::IntoIter<Option<Architecture>>) -> Option<Architecture>
    ensures first { option_map views.architecture_view result ≡
        steps.first (map (option_map views.architecture_view) (into_iter_items rest.old)) }
    ensures rest { map (option_map views.architecture_view) (into_iter_items rest.new)
        ≡ drop 1 (map (option_map views.architecture_view) (into_iter_items rest.old)) }
{
    match rest.next() {
        None => None,
        Some(architecture) => architecture,
    }
}

/// An entity under its name, with its architecture.
fn with_architecture(
    name: Vec<u8>,
    entity: EntityInterface<'_>,
    architecture: Option<Architecture>,
) -> Entity
    ensures { views.entity_view result ≡
        steps.with_architecture (named_view name.items entity.entry) (option_map views.architecture_view architecture) }
{
    let at = entity.tree.name.at;
    let (generics, ports) = entity.into_parts();
    Entity {
        name: Identifier { at, text: name },
        generics,
        ports,
        architecture,
    }
}

/// Entities with their architectures, in order.
fn joined(
    alloc: Global,
    entities: Entities<'_>,
    architectures: Vec<Option<Architecture>>,
) -> Result<Vec<Entity>, AllocError>
    ensures { IfOk result (λ v. map views.entity_view v.items ≡
        steps.joined (entities_view entities.entry) (options_view architectures)) }
{
    let mut all = Vec::new(alloc);
    let mut rest = architectures.into_iter();
    for pair in entities {
        let (name, entity) = pair;
        let architecture = next_of(&mut rest);
        all.push(with_architecture(name, entity, architecture))?;
    }
    Ok(all)
}

/// The architectures of a file with this outline and these entities.
fn described(
    alloc: Global,
    language: Language,
    file: &File,
    outline: &Outline<'_>,
    entities: &Entities<'_>,
) -> Result<Vec<Option<Architecture>>, NameFault>
    ensures told { Finds
        (any_of (broken.described language (names_view outline.now.entities) (entities_view entities.now))
        (all_of (file_view file.now).units)) result }
    ensures given { ((n : Name) → broken.is_hidden (names_view outline.now.entities) (entities_view entities.now) n ≡
        false) → IfOk result (λ v.
        in_turn (with_unit (entities_view entities.now)) (replicate (length (entities_view entities.now)) None)
        (file_view file.now).units ≡ Some (options_view v)) }
{
    let formals = table(alloc, entities)?;
    let given = Given {
        language,
        names: &outline.entities,
        entities,
        formals: &formals,
    };
    architectures_of(alloc, file, &given)
}

/// The entities that are given of a file, and the architecture of each, if the file has one.
fn read(
    alloc: Global,
    language: Language,
    file: &File,
) -> Result<(Entities<'_>, Vec<Option<Architecture>>), NameFault>
    ensures given { Gives (λ p. steps.joined (entities_view p.0) (options_view p.1))
        (units_of language (file_view file.now)) result }
    ensures told { IfErr result (Tells (broken.file language (file_view file.now))) }
{
    let (outline, names) = outline_of(alloc, file);
    let (entities, interfaces) = entities_of(alloc, language, file, &outline);
    let architectures = described(alloc, language, file, &outline, &entities);
    let told = earlier_of(names, earlier_of(interfaces, architectures));
    beside(entities, told)
}

/// The units of a file, with their registers as they are written.
fn analysed_units(alloc: Global, language: Language, file: &File) -> Result<Units, NameFault>
    ensures given { Gives views.units_view (units_of language (file_view file.now)) result }
    ensures told { IfErr result (Tells (broken.file language (file_view file.now))) }
{
    let (entities, architectures) = read(alloc, language, file)?;
    let entities = joined(alloc, entities, architectures)?;
    Ok(Units { entities })
}

/// The units of a file that is read in this language; those of the wider one have their registers
/// as the checker knows them. All else is as `analyse` says. It takes memory for both.
pub fn analyse_in(alloc: Global, language: Language, file: &File) -> Result<Units, NameFault>
    ensures given { Gives views.units_view (units_in language (file_view file.now)) result }
    ensures told { IfErr result (Tells (broken.file language (file_view file.now))) }

    // As those of `analyse`.
    ensures sound { IfOk result (λ units. IsFileIn language (file_view file.now)
        → IsTrue (are_sound (views.units_view units))) }
    ensures named { IfOk result (λ units. IsSpelled (file_view file.now)
        → IsTrue (are_named (views.units_view units))) }
    ensures ports { IfOk result (λ units. IsSpelled (file_view file.now)
        → IsTrue (small_ports_are_distinct (views.units_view units))) }
{
    let units = analysed_units(alloc, language, file)?;
    match language {
        Language::Profile => Ok(units),
        Language::Wide => Ok(written(alloc, units)?),
    }
}

/// The units of a file: its entities in order of the text, each with its architecture if it has
/// one. No two entities have one name, no entity has two architectures, and each architecture
/// stands after its entity; instances may be of any entity of the file. It fails at the first byte
/// where a rule is broken, or where memory is refused; an entity that stands later than a component
/// or an instance of it is read there, so that what is wrong behind it in that architecture isn't
/// told where the entity is at fault. It takes memory for what is declared in the file and analysed
/// of it.
pub fn analyse(alloc: Global, file: &File) -> Result<Units, NameFault>
    ensures given { Gives views.units_view (units_of Profile (file_view file.now)) result }
    ensures told { IfErr result (Tells (broken.file Profile (file_view file.now))) }

    // Of a file that `parse` gives of the tokens of `lex` they are what elaboration asks for, and
    // the ports of each entity have names of their own.
    ensures sound { IfOk result (λ units. IsFile (file_view file.now) → IsTrue (are_sound (views.units_view units))) }
    ensures named { IfOk result (λ units. IsSpelled (file_view file.now)
        → IsTrue (are_named (views.units_view units))) }
    ensures ports { IfOk result (λ units. IsSpelled (file_view file.now)
        → IsTrue (small_ports_are_distinct (views.units_view units))) }
{
    analyse_in(alloc, Language::Profile, file)
}
