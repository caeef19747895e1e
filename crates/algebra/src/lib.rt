// Fields over codes, and interpolation of polynomials over any of them.
#![tactic(auto)]

pub mod field;
pub mod interpolation;

pub use crate::field::{Field, WeightedSum};
pub use crate::interpolation::{interpolate, one_polynomial, weight, weights};
