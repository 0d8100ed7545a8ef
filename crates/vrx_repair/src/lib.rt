//! Rebuilds lost packets of the window, until no FEC packet that is held has a step left (RFC 5109 9).
//!
//! [`plan`] takes the memory of all that the arrival of a packet rebuilds, and changes nothing. [`Plan::commit`]
//! places the packet and the repairs, and can't fail. `specs/Step.antt` says what a step and the repairs are.
//! [`repairs_are`], [`any_order`] and [`true_repairs`] have the laws.
#![tactic(auto)]

mod committed;
mod laws;
mod media;
mod offsets;
mod planned;
mod planning;
mod reading;
mod rebuild;
mod repair;
mod seen;
mod step;

pub use laws::{any_order, repairs_are, true_repairs};
pub use planned::Plan;
pub use planning::plan;
pub use reading::Reading;
pub use repair::Repair;

#[cfg(test)]
mod tests;
