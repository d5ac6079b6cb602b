// What a volume is held to, as functions that programs run: the flat disk with its candidates, and the counts, each proved to compute its definition in
// `model`. No stage stands below them, so that a stage's mistake cannot be made twice.
#![tactic(auto)]

pub mod candidates;
pub mod count;
pub mod disk;
mod first;
pub mod fresh;
mod look;
