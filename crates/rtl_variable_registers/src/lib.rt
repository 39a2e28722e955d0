//! Variables that are registers, kept by nets: the definition, and its laws.
#![tactic(auto)]

mod laws;

pub use laws::{
    accepted_stays, clocked_is_kept, clocked_is_register, keeps_none_stays, kept_is_sound,
    known_reset_is_register, no_register_stays, nothing_is_stored, runs_are_alike, settles_alike,
    stands_where_it_did, stays_beside, straight_sets, timing_is_kept,
};
