// All that a host in C calls, on numbers and byte slices; include/coast.h declares it, and the crate coast_c exports it.
#![tactic(auto)]

pub mod events;
pub mod finding;
mod rows;
pub mod sequences;
pub mod setting;
pub mod shore_calls;
pub mod transmissions;
