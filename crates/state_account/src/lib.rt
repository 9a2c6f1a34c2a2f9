//! What a state file stands for, and the rules that it tells, where no server is started on it and nothing is written.
#![tactic(auto)]

mod account;
mod file_rules;

pub use account::{Account, AccountFault, account_in, account_of};
