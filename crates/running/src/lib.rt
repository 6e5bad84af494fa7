// How a package runs: one loop over its bytes, with a stack of plain records.
#![tactic(auto)]

pub mod assembly;
pub mod cycling;
mod entering;
pub mod levels;
pub mod lookups;
mod lowering;
pub mod places;
mod plain;
pub mod setting;
mod stack;
mod stepping;
pub mod work;
