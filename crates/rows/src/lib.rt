// A cabinet stands on a garage's floor and keeps bytes in eight slots, one for each file. A row is up to 16 cabinets, numbered
// from 0. Here are the two interfaces to a row, why a call of it is refused, and a table of one to look at.
#![tactic(auto)]

pub mod fault;
pub mod row;
pub mod table;
