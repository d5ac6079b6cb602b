// The stages that the calls of a volume are made of, and the only way in which a volume writes. Only the shelf changes in a stage, and at a
// checkpoint the array's head.
// A stage ends at the operation at which the power goes or a member too many is found absent; that operation is the fault.
#![tactic(auto)]

pub mod array;
mod checkpoint;
mod content;
mod every;
pub mod heads;
mod home;
pub mod logged;
mod member;
mod operation;
mod rows;
