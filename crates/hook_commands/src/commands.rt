//! What a person types about a hook.

pub mod file;
pub mod run;
