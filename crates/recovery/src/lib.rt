// Recovery: a package, or the record of one cabinet, from any k records.
#![tactic(auto)]

mod checking;
mod gathering;
mod joining;

pub use crate::joining::{join, rebuild};
