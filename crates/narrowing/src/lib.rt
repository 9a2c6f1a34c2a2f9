//! What is left of what happened, under rules that are narrower than those that it happened under: codes and tokens that go
//! beyond the rules have ended, and so has all that former owners granted, tokens live no longer than they may, and all else
//! stays. And what is left of a state file under a registry that is narrower than the rules that it tells, as the batches of
//! another file. Nothing is written.
#![tactic(auto)]

mod changes;
mod comparing;
mod ending;
mod laws;
mod narrowed;
mod records;
mod retelling;
mod rules;

pub use changes::changes_left;
pub use laws::{
    owners_are_who_they_were, what_is_left_is_no_former_owners, what_is_left_is_right,
    what_is_left_of_a_list_is_left, what_is_shortened_is_right,
};
pub use narrowed::{Narrowed, narrow};
pub use records::ended_count;
