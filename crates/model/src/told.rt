// What a volume tells of itself.
use crate::phase::Phase;

#[derive(Clone, Copy)]
pub struct Told {
    pub size: u64,
    pub phase: Phase,
    pub settled: u64,
    pub kept: u64,
    pub hand: Option<u64>,
}
