//! Pending changes of nets by their times: `Agenda`, which gives the least time first with its
//! changes; `MapAgenda`, an agenda over an ordered map; and `Wheel`, one over a ring of slots.
//!
//! `specs/Agenda.antt` has the words in which contracts say what an agenda holds, and
//! `specs/Laws.antt` the law of `push`.
#![tactic(auto)]

mod agenda;
mod laws;
mod map_agenda;
mod occupied;
mod ring;
mod slot;
mod time_map;
mod wheel;

pub use agenda::{Agenda, Change, NoMemory};
pub use laws::each_push_is_last;
pub use map_agenda::MapAgenda;
pub use wheel::Wheel;
