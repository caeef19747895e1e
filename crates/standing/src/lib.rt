// Which cabinets of a row stand for a file: those in reach whose slot holds the record that is due. A cabinet that does not
// stand has one cause, the first that holds of away, condemned, empty and old.
#![tactic(auto)]

pub mod cause;
pub mod gathering;
pub mod lowest;
pub mod sets;

pub use crate::cause::{Cause, cause_at, in_reach};
pub use crate::gathering::gather;
pub use crate::lowest::{Lowest, lowest_standing};
pub use crate::sets::{Absent, Survey, away, reached, survey_of, with_member};
