//! What a request says: the parameters of its query or form, and the scope texts among them.
//!
//! `Params` is seen in contracts as its pairs of a name and a value, in order of their names. `Catalogue` is seen as
//! the list of its scope names, and a set of them is a mask whose bit i stands for name i.
#![tactic(auto)]

mod catalogue;
mod params;

pub use catalogue::{Catalogue, CatalogueFault};
pub use params::{ParamFault, Params, has_replacement};
