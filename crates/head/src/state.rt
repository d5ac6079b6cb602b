// What a head says.
ghost use Rattle.std.specs.Prelude.{◌≤◌};
ghost use Rattle.head.specs.declared.TheConstants.{MOST_BACKUP, MOST_NUMBER};

use crate::{MOST_BACKUP, MOST_NUMBER};
use layout::label::Label;

// Whether the volume moves, and how far it has come: the target's settled rows and the source's kept rows.
// Two words of the subject rather than an `Option`: an idle volume lacks nothing. The rows are two numbers, here and wherever they go
// together: they are counted in rows of different layouts, and nearly every place is about one of the two.
#[derive(Clone, Copy, PartialEq, Eq, Debug)]
pub enum Progress {
    Idle,
    Moving {
        target: Label,
        settled: u64,
        kept: u64,
    },
}

// An idle head has no target and no rows, and an unarmed one no logged sector, so neither can be said wrong.
#[derive(Clone, Copy, PartialEq, Eq, Debug)]
pub struct Head {
    // the checkpoint number
    pub number: u64,
    pub source: Label,
    pub progress: Progress,
    // the volume's sectors
    pub size: u64,
    // the number of backup slots
    pub backup: u32,
    // the sector whose write stands in the log
    pub armed: Option<u64>,
    ghost numbered: { (1 ≤ number) × (number ≤ MOST_NUMBER) },
    ghost backed: { (1 ≤ backup) × (backup ≤ MOST_BACKUP) },
}
