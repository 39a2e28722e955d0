//! Whole calls of the program, row by row. Each row is made by every call that can serve it, and
//! each answer is compared with the row's: the status, what goes to both outputs, and what shows
//! how far a run is.
//!
//! The tables lie in `data/` with the sources that they name; `data/values.txt` tells how a row is
//! written. Where a call answers otherwise, what it gave is printed, and so the output isn't that
//! of `stdout`.
//!
//! `data/names/` and `data/nets/` have tables of many small sources, as rows_calls reads them: a
//! row is a call of `net`, of which it tells a few words. They are printed as they stand, comments
//! aside.
//!
//! `data/rtl/` has rows of what a whole call doesn't show: what the processes of a netlist reach,
//! and what the checker reports and a second look lets stand. Then it is printed what the kernel
//! does step by step, with the processes in several orders, once for bodies as trees and once for
//! bodies as codes; and what agendas give.
//!
//! Last, each call is made once more with `--wide`, and the rows are printed that are answered
//! otherwise then.
//!
//! All that needs no program stands in rows_calls, and what needs no source in rows_on_net, where
//! it is proved sooner: here are the calls alone.
#![tactic(auto)]

mod library;
mod opened;
mod processes;
mod rtlsim_calls;
mod tries;

use opened::Opened;
use processes::Processes;
use rows_calls::{Text, Told, tell_calls, tell_sources, tell_table};
use rows_on_net::{tell_agendas, tell_orders};
use rtlsim_calls::Rtlsim;
use std::io;
use tries::Tries;

/// The tables of calls, in the folder in which the program runs.
const TABLES: [&str; 35] = [
    "values.txt",
    "refused.txt",
    "inputs.txt",
    "words.txt",
    "several.txt",
    "generics.txt",
    "trace.txt",
    "wide.txt",
    "by_nets.txt",
    "inner_resets.txt",
    "kept_variables.txt",
    "static_names.txt",
    "computed_integers.txt",
    "integers.txt",
    "lost_integers.txt",
    "integers_outside.txt",
    "explain.txt",
    "remarks.txt",
    "net.txt",
    "check.txt",
    "check_faults.txt",
    "check_loops.txt",
    "check_registers.txt",
    "check_resets.txt",
    "check_variables.txt",
    "dot.txt",
    "json.txt",
    "event.txt",
    "run.txt",
    "levels.txt",
    "examples.txt",
    "expected.txt",
    "examples_expected.txt",
    "progress.txt",
    "sizes.txt",
];

/// The tables of small sources, with what their rows tell.
const SOURCES: [(&str, Told); 18] = [
    ("names/units.rows", Told::Names),
    ("names/context.rows", Told::Names),
    ("names/regions.rows", Told::Names),
    ("names/declarations.rows", Told::Names),
    ("names/types.rows", Told::Names),
    ("names/names.rows", Told::Names),
    ("names/statements.rows", Told::Names),
    ("names/instances.rows", Told::Names),
    ("names/left_out.rows", Told::Names),
    ("names/order.rows", Told::Names),
    ("nets/nets.rows", Told::Lines),
    ("nets/instances.rows", Told::Lines),
    ("nets/generates.rows", Told::Lines),
    ("nets/integers.rows", Told::Lines),
    ("nets/static.rows", Told::Counts),
    ("nets/lengths.rows", Told::Counts),
    ("nets/sources.rows", Told::Counts),
    ("nets/limits.rows", Told::Counts),
];

/// Calls are made as they stand, and once more with `--wide`.
const PLAIN: bool = false;

const WIDE: bool = true;

fn main(rt: HostRuntime) -> io::Result<()> {
    tell_calls(&rt, &Rtlsim, &TABLES, PLAIN)?;
    tell_sources(&rt, &Rtlsim, &SOURCES, PLAIN)?;
    tell_table(&rt, "rtl/processes.rows", &Processes)?;
    tell_table(&rt, "rtl/reports.rows", &Tries)?;
    let mut told = Text::new(rt.alloc());
    tell_orders(rt.alloc(), &Opened, &mut told);
    tell_agendas(rt.alloc(), &mut told);
    told.print(&rt)?;
    tell_calls(&rt, &Rtlsim, &TABLES, WIDE)?;
    tell_sources(&rt, &Rtlsim, &SOURCES, WIDE)
}
