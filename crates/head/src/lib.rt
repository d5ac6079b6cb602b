// The head: the state of a volume as it stands in sector 0 of each member. docs/HEAD.md has its bytes.
#![tactic(auto)]

mod accept;
mod checkpoint;
mod decode;
mod encode;
mod part;
mod progress;
mod state;

pub use checkpoint::leading;
pub use state::{Head, Progress};

// the greatest checkpoint number
pub const MOST_NUMBER: u64 = 9_223_372_036_854_775_807;

// the most backup slots
pub const MOST_BACKUP: u32 = 4_096;

// the shelf sectors before the backup slots: the head, the logged datum and the logged parity
pub const HEAD_AT: u64 = 0;

pub const LOGGED_DATUM_AT: u64 = 1;

pub const LOGGED_PARITY_AT: u64 = 2;

pub const SLOTS_AT: u64 = 3;

const MARK: [u8; 2] = [0x52, 0x48];

const EDITION: u8 = 1;

// where each field begins, and the zeros after the last
const EDITION_AT: usize = 2;

const PHASE_AT: usize = 3;

const ARMED_AT: usize = 4;

const NUMBER_AT: usize = 8;

const SOURCE_AT: usize = 16;

const TARGET_AT: usize = 32;

const SIZE_AT: usize = 48;

const SETTLED_AT: usize = 56;

const KEPT_AT: usize = 64;

const BACKUP_AT: usize = 72;

const LOGGED_AT: usize = 80;

const TAIL_AT: usize = 88;
