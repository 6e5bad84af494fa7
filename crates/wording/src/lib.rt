// The text of excerpts, and of the rights and places that are held.
#![tactic(auto)]

pub mod excerpts;
pub mod reach;
