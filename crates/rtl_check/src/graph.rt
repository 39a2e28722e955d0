//! Which combinational processes feed which.

ghost use Rattle.std.specs.Prelude.{◌≡◌, ◌||◌, ◌<◌, ℕ, length, IfOk, OnOk};
ghost use Rattle.std.specs.List.{list_any};
ghost use Rattle.rtl_model.specs.nets.FlatNetlist.{flat_sources};
ghost use Rattle.rtl_net.specs.Nets.{flat, source_view};
ghost use Rattle.rtl_check_levels.specs.OfNets.{IsTableOf};
ghost use Rattle.rtl_body_facts.specs.Reading.{is_in};
ghost use Rattle.rtl_net.specs.Core.{core};
ghost use Rattle.rtl_process_kinds.specs.KindViews.{AreKinds};
ghost use Rattle.rtl_check.specs.Feeders.{feeds_by, IsRow};

use rtl_body_facts::ProcessKind;
use rtl_check_levels::Row;
use rtl_net::{Net, NoMemory, Source, nets_meet_the_laws};
use rtl_process_kinds::{is_combinational, wakes_of};
use smallvec::SmallVec;
use std::alloc::Global;

/// Appends the process of a driver, if it is combinational.
fn push_feeder(kinds: &[ProcessKind], source: Source, feeders: &mut Row) -> Result<(), NoMemory>
    ensures { OnOk result ((p : ℕ) → is_in p feeders.new.items ≡
        (is_in p feeders.old.items || feeds_by kinds.now p (source_view source))) }
{
    match source {
        Source::Driven { process, .. } => {
            if !is_combinational(kinds, process) {
                return Ok(());
            }
            feeders.push(process)?;
            Ok(())
        }
        Source::Idle { .. } => Ok(()),
    }
}

/// Appends the combinational processes that drive a net.
fn push_feeders(
    net: &Net,
    kinds: &[ProcessKind],
    number: usize,
    feeders: &mut Row,
) -> Result<(), NoMemory>
    requires { number < length net.now.types }
    ensures { OnOk result ((p : ℕ) → is_in p feeders.new.items ≡
        (is_in p feeders.old.items || list_any (feeds_by kinds.now p) (flat_sources (flat net.now) number))) }
{
    let sources = net.sources(number);
    for source in sources {
        push_feeder(kinds, *source, feeders)?;
    }
    Ok(())
}

/// Those that feed a process, if it is combinational.
fn row_of(
    alloc: Global,
    net: &Net,
    kinds: &[ProcessKind],
    process: usize,
) -> Result<Option<Row>, NoMemory>
    requires kinds { AreKinds (core net.now) kinds.now }
    requires there { process < length kinds.now }
    ensures { IfOk result (IsRow (core net.now) process) }
{
    if !is_combinational(kinds, process) {
        return Ok(None);
    }
    nets_meet_the_laws();
    net.is_elaborated();
    let wakes = wakes_of(net, process);
    let mut feeders = SmallVec::new(alloc);
    for wake in wakes {
        push_feeders(net, kinds, *wake, &mut feeders)?;
    }
    Ok(Some(feeders))
}

/// The combinational processes of a netlist, each with those that feed it. It takes time in
/// proportion to sensitivities and the drivers of their nets, and memory for the table.
pub fn table_of(
    alloc: Global,
    net: &Net,
    kinds: &[ProcessKind],
) -> Result<Vec<Option<Row>>, NoMemory>
    requires { AreKinds (core net.now) kinds.now }
    ensures { IfOk result (λ table. IsTableOf (core net.now) table.items) }
{
    let mut table = Vec::new(alloc);
    for process in 0..kinds.len() {
        table.push(row_of(alloc, net, kinds, process)?)?;
    }
    Ok(table)
}
