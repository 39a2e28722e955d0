//! The visits of a moment.

ghost use Rattle.rtl_net.specs.Core.{core};
ghost use Rattle.rtl_net_groups.specs.Touching.{Touches};
ghost use Rattle.rtl_levels.specs.Kept.{AreSettledOrToCome, IsPlanned, IsStateOf, MayRun};
ghost use Rattle.rtl_levels.specs.Marks.{HasNoMark};
ghost use Rattle.rtl_levels.specs.Steps.{IsSwept};

use crate::running::settle;
use crate::schedule::Schedule;
use crate::state::State;
use rtl_drives::Drives;
use rtl_eval::Exec;
use rtl_net::Net;
use rtl_net_groups::next_marked;

/// Makes the marked visits, and those that get marked by what these change, in order: each runs its
/// process and takes over all that it assigns. What no visit is to settle is settled; afterwards
/// all is.
pub fn sweep<E: Exec>(
    net: &Net,
    bodies: &[E],
    schedule: &Schedule,
    runs: &mut Vec<Drives>,
    state: &mut State,
)
    requires may { MayRun E.process E.types E.most net.now bodies.now runs.old.items }
    requires planned { IsPlanned (core net.now) schedule.now }
    requires state { IsStateOf (core net.now) schedule.now state.old }
    requires settled { AreSettledOrToCome (core net.now) schedule.now 0 state.old }
    ensures may { MayRun E.process E.types E.most net.now bodies.now runs.new.items }
    ensures state { IsStateOf (core net.now) schedule.now state.new }
    ensures swept { IsSwept (core net.now) state.old.values.items state.new.values.items }
    ensures touched { Touches state.old.touched state.new.touched state.old.values.items state.new.values.items }
    ensures none_dirty { HasNoMark state.new.dirty.items }
{
    let mut rank = 0;
    while rank < state.dirty.len() {
        if state.dirty[rank] {
            state.dirty[rank] = false;
            let process = schedule.visits[rank].process;
            settle(net, bodies, schedule, process, runs, state);
            rank += 1;
        } else {
            rank = next_marked(&state.dirty, rank + 1);
        }
    }
}
