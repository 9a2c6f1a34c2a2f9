//! A list in etcd, as whoever writes or reads it comes to it: `addresses` says where its members listen, `waiting` waits until
//! nobody else leads, at a `door` or without one, `opening` finds the list then, `reading` reads it as it stands, and `copying` takes
//! that, or puts another one there.
//! `porch` is the door's socket, and `door_log` notes what was told there.
#![tactic(auto)]

mod addresses;
mod copying;
mod door;
mod door_log;
mod fault;
mod opening;
mod porch;
mod reading;
mod waiting;

pub use addresses::addresses_of;
pub use copying::{TakenList, put_list, take_list};
pub use door::Door;
pub use fault::ListFault;
pub use opening::{ListFile, ListSource, ListTerms, open_list};
