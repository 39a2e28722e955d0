//! Which netlists and stimuli are simulated as a machine.

ghost use Rattle.std.specs.Prelude.{◌≡◌, IfOk, IfErr, ℕ, List, map, Ok};
ghost use Rattle.rtl_stim.specs.Ports.{HasOwnPorts, inputs_of};
ghost use Rattle.rtl_stim.specs.Stimuli.{IsRead};
ghost use Rattle.rtl_net.specs.Core.{core};
ghost use Rattle.rtl_run.specs.Admitted.{AreMachineLevels, IsAcceptedWith, IsAdmitted, RefusesNet};
ghost use Rattle.rtl_run.specs.Words.{words_text};

use crate::fault::MachineFault;
use crate::laws::each_word_sets;
use crate::machine_levels::MachineLevels;
use crate::words::pairs_of;
use rtl_check::{Judgement, judge};
use rtl_net::Net;
use rtl_stim::{StimFault, Stimulus, first_race};
use std::alloc::Global;
use vhdl_values::Edge;

/// A stimulus without a race, of an accepted netlist, which is judged by these levels and whose
/// moments settle within the bound.
#[derive(Drop)]
pub struct Admitted {
    pub stimulus: Stimulus,
    pub bound: u32,
    pub levels: MachineLevels,
}

/// Checks a netlist, reads the text of a stimulus for it, and looks for a race. It takes the
/// checker's memory, the stimulus's and that of the search.
///
/// # Errors
///
/// `Rejected` with what the checker found; then `Stim` with the first bad line of the text; then
/// `Stim` with the earliest race. `Memory` where a growth was refused.
pub fn admit(alloc: Global, net: &Net, text: &[u8]) -> Result<Admitted, MachineFault>
    requires { HasOwnPorts net.now }
    ensures admitted { IfOk result (λ a. IsAdmitted net.now text.now a.bound a.stimulus) }
    ensures levels { IfOk result (λ a. AreMachineLevels (core net.now) a.levels) }
    ensures refused { IfErr result (RefusesNet net.now text.now) }
{
    let acceptance = accept(alloc, net)?;
    let stimulus = Stimulus::read(alloc, net, text)?;
    without_race(alloc, net, acceptance, stimulus)
}

/// The same of the stimulus that NAME=VALUE words say; a bad word is told by its place from 1.
pub(crate) fn admit_words(
    alloc: Global,
    net: &Net,
    words: &[&[u8]],
) -> Result<Admitted, MachineFault>
    requires { HasOwnPorts net.now }
    ensures admitted { let text = words_text (map (λ word. word.now) words.now) in
        IfOk result (λ a. IsAdmitted net.now text a.bound a.stimulus) }
    ensures refused { IfErr result (RefusesNet net.now (words_text (map (λ word. word.now) words.now))) }
{
    each_word_sets();
    let acceptance = accept(alloc, net)?;
    let pairs = pairs_of(alloc, words)?;
    let stimulus = Stimulus::of_pairs(alloc, net, &pairs)?;
    without_race(alloc, net, acceptance, stimulus)
}

/// A stimulus of an accepted netlist, if it has no race.
fn without_race(
    alloc: Global,
    net: &Net,
    acceptance: Acceptance,
    stimulus: Stimulus,
) -> Result<Admitted, MachineFault>
    requires accepted { IsAcceptedWith (core net.now) acceptance }
    requires ports { HasOwnPorts net.now }
    requires inputs { stimulus.inputs ≡ inputs_of net.now }
    ensures admitted { (text : List ℕ) → IsRead net.now text (Ok stimulus)
        → IfOk result (λ a. IsAdmitted net.now text a.bound a.stimulus) }
    ensures levels { IfOk result (λ a. AreMachineLevels (core net.now) a.levels) }
    ensures refused { (text : List ℕ) → IsRead net.now text (Ok stimulus) → IfErr result (RefusesNet net.now text) }
{
    if let Some(race) = first_race(alloc, net, &acceptance.clocks, &stimulus)? {
        return Err(MachineFault::Stim(StimFault::Race {
            time: race.time,
            input: race.input,
            clock: race.clock,
        }));
    }
    Ok(Admitted {
        stimulus,
        bound: acceptance.bound,
        levels: acceptance.levels,
    })
}

/// What the checker says yes to a netlist with: its clocks, the bound on a moment's delta cycles,
/// and the levels by which it is judged.
#[derive(Drop)]
struct Acceptance {
    clocks: Vec<(usize, Edge)>,
    bound: u32,
    levels: MachineLevels,
}

/// What the checker says yes with.
fn accept(alloc: Global, net: &Net) -> Result<Acceptance, MachineFault>
    ensures accepted { IfOk result (IsAcceptedWith (core net.now)) }
    ensures refused { (text : List ℕ) → IfErr result (RefusesNet net.now text) }
{
    match judge(alloc, net)? {
        Judgement::ByProcesses(report) => Ok(Acceptance {
            clocks: report.clocks,
            bound: report.bound,
            levels: MachineLevels::OfProcesses(report.levels),
        }),
        Judgement::ByNets(report) => Ok(Acceptance {
            clocks: report.clocks,
            bound: report.bound,
            levels: MachineLevels::OfNets(report.nets),
        }),
        Judgement::Faulty(faults) => Err(MachineFault::Rejected(faults)),
    }
}
