// The stock layouts: striped, left-symmetric parity, near copies and far copies.
#![tactic(auto)]

mod cells;
pub mod far;
pub mod grid;
pub mod left_symmetric;
pub mod near;
mod spread;
pub mod stock;
pub mod striped;
