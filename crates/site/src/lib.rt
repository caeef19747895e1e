// A site: eight files kept in the cabinets of a row, any k of n of which restore each.
#![tactic(auto)]

mod cabinets;
mod checks;
mod collecting;
pub mod fault;
pub mod files;
mod getting;
pub mod orders;
mod putting;
mod refilling;
mod repairing;
pub mod site;
mod withdrawing;

pub use crate::fault::{SiteCause, SiteFault};
pub use crate::orders::{Order, Refilled};
pub use crate::site::Site;
