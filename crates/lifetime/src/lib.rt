//! A server's life on the file of its state: it is started on what stands there, serves until it can't go on, and gives back all
//! that it was handed. What a crash leaves at any moment of one life another one may begin on.
#![tactic(auto)]

mod clock;
mod going_on;
mod laws;
mod life;
mod means;
mod opening;
mod plan;
mod settling;

pub use going_on::{AnewEnd, live_anew};
pub use laws::{a_moment_is_written_once_a_minute, lives_lose_nothing};
pub use life::{Life, LifeEnd, live};
pub use means::Means;
pub use opening::{Opening, Unopened};
pub use plan::{Plan, Planned, plan_of};
