//! What stands in the JSON data of a registry: its numbers, texts and lists, what faults it has, and where.
#![tactic(auto)]

pub mod fault;
pub mod json;
pub mod spot;
pub mod text;
