//! From names with values to the course of each input.

ghost use Rattle.std.specs.Prelude.{◌≡◌, IfOk, length, map, vec_len, Ok};
ghost use Rattle.rtl_stim_lines.specs.Pairs.{after_pair, after_pairs, pair_view, schedule_of_pairs};
ghost use Rattle.rtl_stim_lines.specs.Reading.{in_line};
ghost use Rattle.rtl_stim_lines.specs.View.{inputs_view, said_view, AreVectors, Leads, IsGiven};

use crate::faults::StimFault;
use crate::inputs::InputTable;
use crate::reading::Said;
use crate::schedule::Schedule;
use fault_rules::StimRule;
use std::alloc::Global;

/// What names with values say of these inputs: each sets its input at 0, where the simulation
/// stops.
pub fn read_pairs(
    alloc: Global,
    pairs: &[Option<(&[u8], &[u8])>],
    inputs: &InputTable,
) -> Result<Schedule, StimFault>
    requires { AreVectors (inputs_view inputs.now) }
    ensures given { IsGiven (schedule_of_pairs (inputs_view inputs.now) (map pair_view pairs.now)) result }
    ensures each { IfOk result (λ schedule. vec_len schedule.courses ≡ length (inputs_view inputs.now)) }
{
    let mut said = Said::new(alloc, inputs)?;
    said.read_pairs(alloc, inputs, pairs)?;
    Ok(Schedule {
        courses: said.courses,
        stop: 0,
    })
}

impl Said {
    /// Takes in pairs.
    fn read_pairs(
        &mut self,
        alloc: Global,
        inputs: &InputTable,
        pairs: &[Option<(&[u8], &[u8])>],
    ) -> Result<(), StimFault>
        requires vectors { AreVectors (inputs_view inputs.now) }
        requires each { vec_len self.old.courses ≡ length (inputs_view inputs.now) }
        ensures said { Leads (after_pairs (inputs_view inputs.now) 1 (map pair_view pairs.now)
            (Ok (said_view self.old))) (said_view self.new) result }
        ensures each { vec_len self.new.courses ≡ vec_len self.old.courses }
    {
        for (index, pair) in pairs.iter().enumerate() {
            self.read_pair(alloc, inputs, index + 1, *pair)?;
        }
        Ok(())
    }

    /// Takes in the pair of this number.
    fn read_pair(
        &mut self,
        alloc: Global,
        inputs: &InputTable,
        number: usize,
        pair: Option<(&[u8], &[u8])>,
    ) -> Result<(), StimFault>
        requires vectors { AreVectors (inputs_view inputs.now) }
        requires each { vec_len self.old.courses ≡ length (inputs_view inputs.now) }
        ensures said { Leads (in_line number
            (after_pair (inputs_view inputs.now) (said_view self.old) (pair_view pair.entry))) (said_view self.new)
            result }
        ensures each { vec_len self.new.courses ≡ vec_len self.old.courses }
    {
        match pair {
            None => Err(StimFault::in_line(StimRule::BadLine, number)),
            Some((name, value)) => self.read_set(alloc, inputs, number, 0, name, value),
        }
    }
}
