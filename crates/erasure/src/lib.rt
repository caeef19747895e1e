// Slices: a package cut into records, one to a cabinet, of which any k restore it.
#![tactic(auto)]

mod combining;
mod cutting;
pub mod fault;
pub mod head;
mod lengths;
pub mod plan;
mod slicing;

pub use crate::combining::{Sources, cut_from};
pub use crate::cutting::{cut, cut_spread};
pub use crate::fault::{SliceCause, SliceFault, refused};
pub use crate::head::Head;
pub use crate::lengths::record_length;
pub use crate::plan::Plan;
pub use crate::slicing::spread;
