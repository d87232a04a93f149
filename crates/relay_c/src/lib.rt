// The host's library for C: exports each function of crate `relay` with its contract. What each does stands there and in
// include/relay.h.
#![tactic(auto)]

mod datagrams;
mod edition_2017;
mod plans;
mod recordings;
mod settings;
mod streams;
