//! The elements that names in a text mean (IEEE 1076-2008, 8.1, 14.7.2): those of the ports and
//! signals of the instance, numbered from 0 in order of declaration, ports before signals, and from
//! the left.

ghost use Rattle.std.specs.Prelude.{◌≡◌, ◌++◌, map, IfOk, OnOk};
ghost use Rattle.vhdl_names_trees.specs.views.Vectors.{place_view};
ghost use Rattle.vhdl_expand_rules.specs.Prefixes as definition;
ghost use Rattle.vhdl_expand_rules.specs.Site.{place_elements};
ghost use Rattle.vhdl_expand_rules.specs.views.Kinds.{run_view};
ghost use Rattle.vhdl_expand_operands.specs.Results.{Expands};
ghost use Rattle.vhdl_expand_bodies.specs.Sites.{IsShort, IsSite, site_view};
ghost use Rattle.vhdl_names_units.specs.views.Sequential.{statement_view, statements_of};
ghost use Rattle.vhdl_expand_processes.specs.Driven.{IsRising, drives_of, read_by};
ghost use Rattle.vhdl_expand_processes.specs.Named.{name_view};

use crate::bodies::{names_in, targets_of};
use crate::name::Name;
use rtl_body_facts::order_once;
use std::alloc::{AllocError, Global};
use vhdl_expand_bodies::Site;
use vhdl_expand_rules::{ElabFault, Run, is_static_part};
use vhdl_names_trees::{Part, SignalPart};
use vhdl_names_units::Statement;

/// The elements of the longest static prefix of a name; a fault is StaticError or Index, at byte 0
/// where the name has none.
fn prefix(site: &Site, named: &Name) -> Result<Run, ElabFault>
    requires { IsSite site.now }
    ensures given { Expands run_view (place_elements (site_view site.now) (definition.prefix (name_view named.now)))
        result }
    ensures short { IfOk result IsShort }
{
    match named {
        Name::Written(place) => {
            if is_static_part(&place.part) {
                return site.signal_elements(place.signal, &place.part, place.at);
            }
            site.signal_elements(place.signal, &Part::Whole, place.at)
        }
        Name::Whole(signal) => site.signal_elements(*signal, &Part::Whole, 0),
    }
}

/// Puts neighbouring elements behind others.
fn add_run(found: &mut Vec<usize>, run: Run) -> Result<(), AllocError>
    requires { IsShort run }
    ensures { OnOk result (found.new.items ≡ found.old.items ++ run_view run) }
{
    for k in 0..run.len {
        found.push(run.first + k)?;
    }
    Ok(())
}

/// The elements of the longest static prefixes of names, in order of the names; a fault is
/// StaticError or Index. It takes the memory of the list.
fn prefixes(alloc: Global, site: &Site, names: &[Name]) -> Result<Vec<usize>, ElabFault>
    requires { IsSite site.now }
    ensures { Expands (λ v. v.items) (definition.prefixes_elements (site_view site.now) (map name_view names.now))
        result }
{
    let mut found = Vec::new(alloc);
    for item in names {
        let run = prefix(site, item)?;
        add_run(&mut found, run)?;
    }
    Ok(found)
}

/// The elements of a sensitivity list's names, in their order; a fault is StaticError or Index. It
/// takes the memory of the list.
pub fn listed(alloc: Global, site: &Site, names: &[SignalPart]) -> Result<Vec<usize>, ElabFault>
    requires { IsSite site.now }
    ensures { Expands (λ v. v.items)
        (definition.names_elements (site_view site.now) (map place_view names.now)) result }
{
    let mut found = Vec::new(alloc);
    for item in names {
        let run = site.signal_elements(item.signal, &item.part, item.at)?;
        add_run(&mut found, run)?;
    }
    Ok(found)
}

/// The elements of the longest static prefixes of the names that statements read, in order of the
/// text, to which `process (all)` is sensitive; a fault is StaticError or Index. It takes the
/// memory of the list.
pub fn read_elements(
    alloc: Global,
    site: &Site,
    list: &[Statement],
) -> Result<Vec<usize>, ElabFault>
    requires { IsSite site.now }
    ensures { Expands (λ v. v.items)
        (read_by (site_view site.now) (statements_of (map statement_view list.now))) result }
{
    let names = names_in(alloc, list)?;
    prefixes(alloc, site, &names)
}

/// The elements that statements drive, which are those of the longest static prefixes of their
/// targets, in order and each once; a fault is StaticError or Index. It takes the memory of a list
/// of all elements of the targets, at most as much again to put it in order, and time to do so.
pub fn drives(alloc: Global, site: &Site, list: &[Statement]) -> Result<Vec<usize>, ElabFault>
    requires { IsSite site.now }
    ensures given { Expands (λ v. v.items)
        (drives_of (site_view site.now) (statements_of (map statement_view list.now))) result }
    ensures rising { IfOk result (λ v. IsRising v.items) }
{
    let names = targets_of(alloc, list)?;
    let mut elements = prefixes(alloc, site, &names)?;
    order_once(alloc, &mut elements)?;
    Ok(elements)
}
