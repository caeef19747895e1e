// A bay map, sealed and kept in a row of cabinets: what the demonstrations show of it, line by line.
#![tactic(auto)]

mod garage;
mod showing;
mod strict;
#[cfg(test)]
mod tests;

pub use crate::garage::Garage;
pub use crate::showing::{blank_package, report, sealed, try_unseal, try_unseal_anyhow};

// The bay map's number among the files of a cabinet.
pub const BAY_MAP: usize = 0;

// Bytes that each slot of a demonstration's shelf has room for.
pub const ROOM: usize = 120;

// Bytes that a shelf of five such cabinets takes.
pub const SHELF: usize = 5 * (1 + 8 * (3 + ROOM));
