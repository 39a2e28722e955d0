//! The changes at a time after 0.

ghost use Rattle.std.specs.Prelude.{◌≡◌, ◌+◌, ◌<◌, ◌≤◌, ◌||◌, [], if◌then◌else◌, All, length, map, OnOk, OnErr, IfOk, IfSome};
ghost use Rattle.byte_streams.specs.Written.{IsIntact, HasFailed, Goes};
ghost use Rattle.rtl_net.specs.Nets.{signal_view};
ghost use Rattle.rtl_net.specs.Showing.{IsShown};
ghost use Rattle.rtl_net_groups.specs.Touching.{KeepsLeft};
ghost use Rattle.rtl_vcd.specs.Trace.{changes, time_line, are_some, moment_text};
ghost use Rattle.rtl_vcd.specs.Blocks.{AreBlocks, AreListed, changes_from, continued};
ghost use Rattle.rtl_vcd.specs.Ready.{AreReady};
ghost use Rattle.rtl_vcd.specs.Shown.{shown_of};
ghost use Rattle.rtl_vcd.specs.Pages.{Passes, IsOpen};

use crate::blocks::{Block, MANY, blocks_of, listed_for};
use crate::fault::VcdFault;
use crate::named::{Step, push_part};
use crate::page::Page;
use crate::ready::{Run, runs_of};
use crate::trace::{push_time, written};
use byte_streams::{Sink, push_text};
use rtl_net::{Shown, Signal};
use rtl_net_groups::{Groups, PLACES, Touched};
use std::alloc::{AllocError, Global};
use std::marker::Model;

/// The names that are shown of a netlist in blocks, so that a moment passes over those whose nets
/// keep their values. Contracts see the netlist and these names.
#[derive(Drop)]
pub struct Blocks<'a> {
    shown: Shown<'a>,
    blocks: Vec<Block>,
    runs: Vec<Run>,
    /// The blocks by their nets, where there are many.
    listed: Option<Groups>,
}

impl<'a> Model for Blocks<'a> {
    ghost use Rattle.rtl_vcd.specs.Shown.{ShownView};
    ghost use Rattle.rtl_net.specs.contracts.process.Process as process_contract;
    ghost use Rattle.std.specs.Coded.{codes};

    ghost Value = { ShownView };

    ghost coded = { Prim.hlevel (codes, process_contract.the_row.coded) };

    ghost use Rattle.std.specs.Prelude.{length, map};
    ghost use Rattle.std.specs.Prelude.{IfSome};
    ghost use Rattle.rtl_net.specs.Nets.{signal_view};
    ghost use Rattle.rtl_vcd.specs.Blocks.{AreBlocks, AreListed};
    ghost use Rattle.rtl_vcd.specs.Ready.{AreReady};
    ghost use Rattle.rtl_vcd.specs.Shown.{shown_of};

    ghost view = { λ b. shown_of b.shown };

    ghost invariant = { λ b.
        AreBlocks (length b.shown.net.now.types) b.blocks.items (map signal_view b.shown.signals.now)
        × AreReady 0 (map signal_view b.shown.signals.now) b.runs.items
        × IfSome b.listed (λ groups. AreListed (length b.shown.net.now.types) groups b.blocks.items
        (map signal_view b.shown.signals.now)) };
}

impl<'a> Blocks<'a> {
    /// The blocks of the names, and the names that stand on nets one behind the other, ready to
    /// print. They take four words for each block, which mostly has some 64 names, and two
    /// for each name; and where there are many blocks, up to three for each net and one for each
    /// net of a name.
    pub fn new(alloc: Global, shown: Shown<'a>) -> Result<Blocks<'a>, AllocError>
        ensures { IfOk result (λ b. b ≡ shown_of shown.entry) }
    {
        let blocks = blocks_of(alloc, shown)?;
        let runs = runs_of(alloc, shown)?;
        let listed = if blocks.len() > MANY {
            Some(listed_for(alloc, shown, blocks.as_slice())?)
        } else {
            None
        };
        Ok(Blocks {
            shown,
            blocks,
            runs,
            listed,
        })
    }

    /// Writes what the names print at a time after 0, where the nets had the values `old` and have
    /// the values `new`, one for each net: those that print otherwise than before, behind the time.
    /// Answers whether there were such. Takes no memory. Nets of chunks that aren't marked have one
    /// value in both.
    ///
    /// Where there are many blocks, one that has no net whose value differs, nor shares its place
    /// with one that has, costs the look at one mark, and each net of a marked chunk costs a
    /// comparison. Of the other blocks, one of names whose nets stand close to one another costs
    /// one comparison of two runs of bytes where none of them has changed; else each of its names
    /// is looked at. The sink gets up to a page of lines at a time.
    ///
    /// # Errors
    ///
    /// `Write` where the sink failed: what went out is a beginning of the text.
    pub fn moment<W: Sink>(
        &self,
        time: u64,
        touched: &Touched,
        old: &[u8],
        new: &[u8],
        out: &mut W,
    ) -> Result<bool, VcdFault>
        requires intact { IsIntact (W.state out.old) }
        requires before { length old.now ≡ length self.now.net.types }
        requires after { length new.now ≡ length self.now.net.types }
        requires nets { touched.now.nets ≡ length self.now.net.types }
        requires left { KeepsLeft touched.now old.now new.now }
        ensures text { Goes (W.state out.old) (W.state out.new) (moment_text self.now.signals time old.now new.now) }
        ensures printed { IfOk result (λ is_printed. is_printed ≡ are_some (changes self.now.signals old.now new.now)) }
        ensures ok { OnOk result (IsIntact (W.state out.new)) }
        ensures err { OnErr result (HasFailed (W.state out.new)) }
    {
        let step = Step { time, old, new };
        let is_printed = push_moment(
            self.shown,
            self.blocks.as_slice(),
            self.runs.as_slice(),
            self.listed.as_ref(),
            touched,
            &step,
            out,
        );
        written(out)?;
        Ok(is_printed)
    }
}

/// The changes of the names, which stand in these blocks, behind their time. Answers
/// whether there are any.
fn push_moment<W: Sink>(
    shown: Shown<'_>,
    blocks: &[Block],
    runs: &[Run],
    listed: Option<&Groups>,
    touched: &Touched,
    step: &Step,
    out: &mut W,
) -> bool
    requires blocks { AreBlocks (length shown.net.now.types) blocks.now (map signal_view shown.signals.now) }
    requires runs { AreReady 0 (map signal_view shown.signals.now) runs.now }
    requires listed { IfSome listed (λ groups. AreListed (length shown.net.now.types) groups.now blocks.now
        (map signal_view shown.signals.now)) }
    requires before { length step.now.old.now ≡ length shown.net.now.types }
    requires after { length step.now.new.now ≡ length shown.net.now.types }
    requires nets { touched.now.nets ≡ length shown.net.now.types }
    requires left { KeepsLeft touched.now step.now.old.now step.now.new.now }
    ensures text { Goes (W.state out.old) (W.state out.new)
        (moment_text (map signal_view shown.entry.signals.now) step.now.time step.now.old.now step.now.new.now) }
    ensures printed { result
        ≡ are_some (changes (map signal_view shown.entry.signals.now) step.now.old.now step.now.new.now) }
{
    let signals = shown.signals;
    let mut marks = [listed.is_none(); PLACES];
    if let Some(groups) = listed {
        touched.mark_listed(groups, step.old, step.new, &mut marks);
    }
    let mut page = Page::new();
    let mut next = 0;
    let mut is_printed = false;
    for (number, block) in blocks.iter().enumerate() {
        let end = next + block.names;
        if marks[number % PLACES] && !block.is_quiet(touched, step.old, step.new) {
            is_printed = push_changes(
                &signals[next..end],
                &runs[next..end],
                next,
                step,
                is_printed,
                &mut page,
                out,
            );
        }
        next = end;
    }
    push_text(out, page.text());
    is_printed
}

/// The changes of these names, the first of them being number `first`, behind their time where that
/// isn't printed yet. Answers whether it is printed then. The last of what is printed stays in the
/// page.
#[inline(never)]
fn push_changes<W: Sink>(
    names: &[Signal],
    runs: &[Run],
    first: usize,
    step: &Step,
    is_printed: bool,
    page: &mut Page,
    out: &mut W,
) -> bool
    requires before { All (IsShown (length step.now.old.now)) (map signal_view names.now) }
    requires after { All (IsShown (length step.now.new.now)) (map signal_view names.now) }
    requires runs { AreReady first (map signal_view names.now) runs.now }
    requires numbers { first + length names.now < 18446744073709551616 }
    requires opened { IsOpen is_printed page.old }
    ensures opened { IsOpen result page.new }
    ensures text { Passes (W.state out.old) (W.state out.new) page.old page.new
        (continued is_printed step.now.time
        (changes_from first (map signal_view names.now) step.now.old.now step.now.new.now)) }
    ensures printed { result ≡ (is_printed
        || are_some (changes_from first (map signal_view names.now) step.now.old.now step.now.new.now)) }
{
    let here = *step;
    let mut printed = is_printed;
    let mut next = 0;
    while next < names.len() {
        let part = push_part(
            first + next,
            &names[next..],
            &runs[next..],
            &here,
            printed,
            page,
            out,
        );
        printed = part.1;
        next += part.0;
    }
    printed
}
