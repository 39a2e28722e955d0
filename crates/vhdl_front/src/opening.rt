//! From a source to its netlist.

ghost use Rattle.std.specs.Prelude.{◌≡◌, IfOk, IfErr, length};
ghost use Rattle.rtl_net.specs.Elaborated.{IsNet};
ghost use Rattle.rtl_net.specs.Parts.{assembled, IdleAreThere};
ghost use Rattle.rtl_stim.specs.Ports.{HasOwnPorts};
ghost use Rattle.vhdl_expand_rules.specs.Tops as tops;
ghost use Rattle.vhdl_expand_rules.specs.views.Tops.{top_view};
ghost use Rattle.vhdl_front_rules.specs.Asking.{asked_view};
ghost use Rattle.vhdl_front_rules.specs.Designs.{IsNetOf};
ghost use Rattle.vhdl_front_rules.specs.Faults.{LiesIn};
ghost use Rattle.vhdl_front_rules.specs.Refusals.{Refuses};
ghost use Rattle.vhdl_front_rules.specs.Sources.{IsFileOf};
ghost use Rattle.vhdl_names.specs.Spelled.{IsSpelled};
ghost use Rattle.vhdl_front.specs.Steps.{GivesUnits, AreReady, ReadsIn, GivesNet};
ghost use Rattle.vhdl_tree.specs.View.{file_view};
ghost use Rattle.vhdl_tree.specs.grammar.Units.{IsFileIn};
ghost use Rattle.vhdl_names_units.specs.views.Units.{units_view};

use rtl_keeping::keep;
use rtl_net::{Net, Parts};
use std::alloc::Global;
use vhdl_elab::elaborate;
use vhdl_expand_rules::Top;
use vhdl_front_rules::{Asked, Front, SourceFault};
use vhdl_lexer::{Language, lex};
use vhdl_names::analyse_in;
use vhdl_names_units::Units;
use vhdl_parser::parse_in;
use vhdl_tree::File;

/// The netlist of a source under a top, which is an entity in it. The file is read, its names and
/// types are analysed, and its top is elaborated (IEEE 1076-2008, clauses 15, 12 and 14). It takes
/// memory in proportion to the source and to the netlist, within the limits of elaboration.
///
/// # Errors
///
/// The first layer that refuses the source, with its fault: `Lex`, `Syntax`, `Name` or `Elab`, told
/// at a byte of the source or at its end. `Name` is the first rule that the file breaks as it is
/// read, with its byte; `Elab` is the first broken rule, with its byte, or `TooMany`. `NoMemory`
/// where memory was refused.
pub fn open(alloc: Global, asked: Asked<'_>) -> Result<Net, SourceFault>
    ensures net { IfOk result (λ net. IsNetOf (asked_view asked.entry) net) }
    ensures ports { IfOk result (λ net. HasOwnPorts net) }
    ensures refused { IfErr result (Refuses (asked_view asked.entry)) }
    ensures told { IfErr result (LiesIn (length (asked_view asked.entry).source)) }
{
    let file = read(alloc, asked.language, asked.source)?;
    let units = units_of(alloc, asked.language, &file)?;
    net_of(alloc, asked.language, &units, asked.top)
}

/// Sources in VHDL.
pub struct Vhdl;

impl Front for Vhdl {
    fn open(alloc: Global, asked: Asked<'_>) -> Result<Net, SourceFault> {
        open(alloc, asked)
    }
}

/// The tree of a source in a language.
fn read(alloc: Global, language: Language, source: &[u8]) -> Result<File, SourceFault>
    ensures file { IfOk result (λ file. IsFileOf language source.now (file_view file)) }
    ensures refused { IfErr result
        (λ fault. (top : tops.Top)
        → Refuses (record { language = language; source = source.now; top = top }) fault) }
    ensures told { IfErr result (LiesIn (length source.now)) }
{
    let tokens = lex(alloc, source)?;
    Ok(parse_in(alloc, language, source, &tokens)?)
}

/// The units of a file that is read in a language.
fn units_of(alloc: Global, language: Language, file: &File) -> Result<Units, SourceFault>
    ensures given { GivesUnits language (file_view file.now) result }
    ensures ready { IfOk result
        (λ units. IsFileIn language (file_view file.now) → IsSpelled (file_view file.now)
        → AreReady (units_view units)) }
{
    match analyse_in(alloc, language, file) {
        Ok(units) => Ok(units),
        Err(fault) => Err(SourceFault::from(fault)),
    }
}

/// The netlist of a top of some units, which were read in a language.
fn net_of(
    alloc: Global,
    language: Language,
    units: &Units,
    top: Top<'_>,
) -> Result<Net, SourceFault>
    requires { AreReady (units_view units.now) }
    ensures given { GivesNet language (units_view units.now) (top_view top.entry) result }
    ensures ports { IfOk result (λ net. HasOwnPorts net) }
{
    let parts = elaborate(alloc, units, top)?;
    read_in(alloc, language, parts)
}

/// The netlist of these parts. Elaboration, which gives them, knows no language: the source was
/// read in this one.
fn read_in(alloc: Global, language: Language, parts: Parts) -> Result<Net, SourceFault>
    requires net { IsNet (assembled parts) }
    requires idle { IdleAreThere parts }
    ensures given { ReadsIn language (assembled parts) result }
    ensures ports { IfOk result (λ net. HasOwnPorts (assembled parts) → HasOwnPorts net) }
{
    match language {
        Language::Profile => Ok(Net::new(alloc, parts)?),
        Language::Wide => {
            let kept = keep(alloc, parts)?;
            Ok(Net::new(alloc, kept)?.widened())
        }
    }
}
