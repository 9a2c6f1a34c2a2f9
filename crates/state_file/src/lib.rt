//! What a file tells that a server keeps, so that a crash leaves it: the rules that it was started with, and the changes of each round,
//! or what is left of these when what no longer matters is left out. And a server made of what it tells.
//!
//! A batch of the file begins with a byte 0 where it is of rules, with a byte 1 where it is of dated changes, and with a byte 3
//! where it is a horizon of a moment, behind which one of changes may stand. The last batch of rules tells under which they are right.
#![tactic(auto)]

mod comparing;
mod fault;
mod front;
mod gone;
mod hooks;
mod horizons;
mod known;
mod laws;
mod listing;
mod measures;
mod numbered;
mod preparing;
mod redoing;
mod remade;
mod restored;
mod resuming;
mod rules_told;
mod short;
mod sizes;

pub use comparing::compare;
pub use fault::StateFault;
pub use hooks::{SetHook, SetHooks};
pub use horizons::{horizon, later, until_of};
pub use known::Known;
pub use laws::{chains_are_made_again, what_is_right_is_made_again};
pub use listing::{changes_in, changes_of};
pub use preparing::{Parts, Prepared, Preparing, prepare};
pub use restored::{Restored, remake};
pub use resuming::Unprepared;
pub use rules_told::{Spelled, last_rules, rules_behind, spell_rules, tells_rules, told_rules};
pub use short::{Short, gather_changes, short_of};
pub use sizes::{is_short, size_behind};
