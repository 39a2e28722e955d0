//! Places among the tokens of a source, beside the one at which a fault is told: where a name is
//! read, assigned, tested for an edge or associated; a name of a sensitivity list that isn't read;
//! the edge that stands in the way of a register; two statements that assign a signal; the first of
//! two declarations; the association that connects a port.
//!
//! `specs/Uses.antt` says how a name is used at a token, `specs/Statements.antt` which tokens a
//! statement has, and `specs/Regions.antt` where a declaration is looked for; the other files each
//! say where one kind of place is.
#![tactic(auto)]

mod drivers;
mod firsts;
mod lists;
mod maps;
mod regions;
mod statements;
mod uses;

pub use drivers::{first_driver, second_driver};
pub use firsts::first_declared;
pub use lists::{Lack, Unread, unread_name};
pub use maps::{connection, driving_port, entity_name, instance_in};
pub use statements::{body, statement};
pub use uses::{Use, first_use};
