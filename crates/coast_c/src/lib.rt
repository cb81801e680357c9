// What a host in C links: each function that include/coast.h declares calls the one of that name in the crate coast.
#![tactic(auto)]

mod events;
mod finding;
mod sequences;
mod setting;
mod shore_calls;
mod transmissions;
