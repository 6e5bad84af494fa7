// The sorting controller: one package, its places and devices, and the calls on them.
#![tactic(auto)]

mod calls;
pub mod controller;
mod making;
mod replaying;
