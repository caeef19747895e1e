// The calls of the library for C: each answers a length, or the number of a refusal negated. The static library `capi_c` exports
// them, and include/runnelpan.h declares them.
#![tactic(auto)]

pub mod answers;
pub mod sealing;
pub mod slicing;
