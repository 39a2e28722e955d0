//! The levels of an accepted netlist as a graph in Graphviz's language. Its arrows lead to the
//! processes that are sensitive to nets from those that drive these.

ghost use Rattle.std.specs.Prelude.{◌≡◌, ◌<◌, ◌==◌, All, [], if◌then◌else◌, length, position, bytes_eq, map, IfOk, IfSome};
ghost use Rattle.byte_streams.specs.Written.{Goes};
ghost use Rattle.rtl_net.specs.Nets.{source_view};
ghost use Rattle.rtlsim_listing.specs.NetText.{lines};
ghost use Rattle.rtlsim_listing.specs.DotText as spec;
ghost use Rattle.rtlsim_listing.specs.Printing.{Prints};

use crate::levels::greatest_level;
use crate::names::process_name;
use crate::report::process_of;
use byte_streams::{Sink, push_number, push_text};
use rtl_net::{Net, NoMemory, Source};
use std::alloc::Global;

/// The whole graph.
pub fn push_graph<W: Sink>(
    alloc: Global,
    net: &Net,
    levels: &[Option<u32>],
    out: &mut W,
) -> Result<(), NoMemory>
    ensures { Prints result (W.state out.old) (W.state out.new) (spec.graph_text net.now levels.now) }
{
    push_columns(greatest_level(levels), out);
    push_processes(alloc, net, levels, out)?;
    push_text(out, b"}\n");
    Ok(())
}

/// The beginning, with the heads of so many columns.
fn push_columns<W: Sink>(levels: u32, out: &mut W)
    ensures { Goes (W.state out.old) (W.state out.new) (spec.columns_text levels) }
{
    push_text(
        out,
        b"digraph levels {\n    rankdir=LR;\n    node [shape=plaintext, fontname=Helvetica, fontsize=11];\n    edge [style=invis];\n",
    );
    push_heads(levels, out);
    push_text(
        out,
        b"    node [shape=box];\n    edge [style=solid, fontname=Helvetica, fontsize=9];\n",
    );
}

/// The heads of so many columns.
fn push_heads<W: Sink>(levels: u32, out: &mut W)
    ensures { Goes (W.state out.old) (W.state out.new) (lines spec.column_text levels) }
{
    for before in 0..levels {
        push_head(before, out);
    }
}

/// The head of a column, behind that of the one before it.
fn push_head<W: Sink>(before: u32, out: &mut W)
    ensures { Goes (W.state out.old) (W.state out.new) (spec.column_text before) }
{
    if before == 0 {
        push_text(out, b"    \"level 1\";\n");
    } else {
        push_next_head(before, out);
    }
}

/// The head of a column behind another.
fn push_next_head<W: Sink>(before: u32, out: &mut W)
    ensures { Goes (W.state out.old) (W.state out.new) (spec.next_column before) }
{
    push_text(out, b"    \"level ");
    push_number(out, before as u64);
    push_text(out, b"\" -> \"level ");
    push_number(out, before as u64 + 1);
    push_text(out, b"\";\n");
}

/// The lines of all processes.
fn push_processes<W: Sink>(
    alloc: Global,
    net: &Net,
    levels: &[Option<u32>],
    out: &mut W,
) -> Result<(), NoMemory>
    ensures { Prints result (W.state out.old) (W.state out.new)
        (lines (spec.process_lines net.now levels.now) (length levels.now)) }
{
    for number in 0..levels.len() {
        push_process(alloc, net, levels, number, out)?;
    }
    Ok(())
}

/// The lines of a process.
fn push_process<W: Sink>(
    alloc: Global,
    net: &Net,
    levels: &[Option<u32>],
    number: usize,
    out: &mut W,
) -> Result<(), NoMemory>
    requires there { number < length levels.now }
    ensures { Prints result (W.state out.old) (W.state out.new) (spec.process_lines net.now levels.now number) }
{
    match levels[number] {
        Some(level) => push_leveled(alloc, net, number, level, out),
        None => push_register(alloc, net, number, out),
    }
}

/// The line of a register.
fn push_register<W: Sink>(
    alloc: Global,
    net: &Net,
    number: usize,
    out: &mut W,
) -> Result<(), NoMemory>
    ensures { Prints result (W.state out.old) (W.state out.new) (spec.register_text net.now number) }
{
    let name = process_name(alloc, net, number)?;
    push_text(out, b"    { rank=source; \"");
    push_text(out, &name);
    push_text(out, b"\" [peripheries=2]; }\n");
    Ok(())
}

/// The line of a process in the column of its level, and the arrows to it.
fn push_leveled<W: Sink>(
    alloc: Global,
    net: &Net,
    number: usize,
    level: u32,
    out: &mut W,
) -> Result<(), NoMemory>
    ensures { Prints result (W.state out.old) (W.state out.new) (spec.leveled_text net.now number level) }
{
    let name = process_name(alloc, net, number)?;
    push_text(out, b"    { rank=same; \"level ");
    push_number(out, level as u64);
    push_text(out, b"\"; \"");
    push_text(out, &name);
    push_text(out, b"\"; }\n");
    push_arrows_to(alloc, net, number, out)
}

/// The arrows to a process, by the nets that it is sensitive to.
fn push_arrows_to<W: Sink>(
    alloc: Global,
    net: &Net,
    number: usize,
    out: &mut W,
) -> Result<(), NoMemory>
    ensures { Prints result (W.state out.old) (W.state out.new) (spec.arrows_to net.now number) }
{
    net.is_elaborated();
    let Some(process) = net.processes().get(number) else {
        return Ok(());
    };
    push_arrows_by(alloc, net, number, process.wakes.as_slice(), out)
}

/// The arrows to a process by these nets, but for those that are as the one before.
fn push_arrows_by<W: Sink>(
    alloc: Global,
    net: &Net,
    to: usize,
    nets: &[usize],
    out: &mut W,
) -> Result<(), NoMemory>
    requires there { All (λ n. n < length net.now.types) nets.now }
    ensures { Prints result (W.state out.old) (W.state out.new) (spec.arrows_by net.now to nets.now) }
{
    let mut before = Vec::new(alloc);
    for place in 0..nets.len() {
        let arrow = arrow_by(alloc, net, to, nets[place])?;
        push_unless_again(&arrow, &before, out);
        before = arrow;
    }
    Ok(())
}

/// A line, unless it is as the one before.
fn push_unless_again<W: Sink>(line: &[u8], before: &[u8], out: &mut W)
    ensures { Goes (W.state out.old) (W.state out.new) (if bytes_eq line.now before.now then [] else line.now) }
{
    if line == before {
        return;
    }
    push_text(out, line);
}

/// The arrow to a process by a net: from the one that drives it, if there is one.
fn arrow_by(alloc: Global, net: &Net, to: usize, number: usize) -> Result<Vec<u8>, NoMemory>
    requires there { number < length net.now.types }
    ensures { IfOk result (λ text. text.items ≡ spec.arrow_by net.now to number) }
{
    match first_driver(net.sources(number)) {
        Some(from) => arrow_of(alloc, net, from, to, number),
        None => Ok(Vec::new(alloc)),
    }
}

/// The process of a net's first driver, if it has one.
pub fn driver_of(net: &Net, number: usize) -> Option<usize>
    ensures { result ≡ spec.driver_in net.now number }
{
    if number < net.nets() {
        return first_driver(net.sources(number));
    }
    None
}

/// The process of the first of these sources, if that is a driver.
fn first_driver(sources: &[Source]) -> Option<usize>
    ensures { result ≡ spec.driver_of (map source_view sources.now) }
{
    match sources {
        [first, ..] => process_of(*first),
        [] => None,
    }
}

/// The arrow from a process to another by a net.
fn arrow_of(
    alloc: Global,
    net: &Net,
    from: usize,
    to: usize,
    number: usize,
) -> Result<Vec<u8>, NoMemory>
    requires there { number < length net.now.types }
    ensures { IfOk result (λ text. text.items ≡ spec.arrow net.now from to number) }
{
    let mut text = Vec::from_slice(alloc, b"    \"")?;
    text.extend_from_slice(&process_name(alloc, net, from)?)?;
    text.extend_from_slice(b"\" -> \"")?;
    text.extend_from_slice(&process_name(alloc, net, to)?)?;
    text.extend_from_slice(b"\" [label=\"")?;
    text.extend_from_slice(without_index(&net.net_name(number)?))?;
    text.extend_from_slice(b"\"];\n")?;
    Ok(text)
}

/// A net's name up to the index that it ends with, if it does.
fn without_index(name: &[u8]) -> &[u8]
    ensures { result.now ≡ spec.without_index name.now }
{
    for at in 0..name.len() {
        if is_index(&name[at..]) {
            return &name[..at];
        }
    }
    name
}

/// Whether a text is `(`, and then a `)` at its end alone.
fn is_index(text: &[u8]) -> bool
    ensures { result ≡ spec.is_index text.now }
{
    opens(text) && closes(text)
}

/// Whether a text begins with `(`.
fn opens(text: &[u8]) -> bool
    ensures { result ≡ spec.opens text.now }
{
    match text {
        [first, ..] => *first == b'(',
        [] => false,
    }
}

/// Whether the first `)` of a text is its end.
fn closes(text: &[u8]) -> bool
    ensures { result ≡ spec.is_last (position (λ byte. byte == 41) text.now) (length text.now) }
{
    match close_of(text) {
        Some(at) => at + 1 == text.len(),
        None => false,
    }
}

/// Where the first `)` of a text stands.
fn close_of(text: &[u8]) -> Option<usize>
    ensures close { result ≡ position (λ byte. byte == 41) text.now }
    ensures within { IfSome result (λ at. at < length text.now) }
{
    text.iter().position(|byte| *byte == b')')
}
