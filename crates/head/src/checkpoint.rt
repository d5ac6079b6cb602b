// The order of checkpoints.
ghost use Rattle.std.specs.Prelude.{◌≡◌, ◌+◌, MatchOption};
ghost use Rattle.head.specs.Checkpoints.{Next, Leads};

use crate::MOST_NUMBER;
use crate::state::{Head, Progress};
use layout::label::Label;

impl Head {
    // The head of the next checkpoint, with the size and the backup as they are; None where no number is left.
    pub fn next(&self, source: Label, progress: Progress, armed: Option<u64>) -> Option<Head>
        ensures { MatchOption result (self.now.number ≡ MOST_NUMBER) (λ h. Next self.now source progress armed h) }
    {
        if self.number >= MOST_NUMBER {
            return None;
        }
        // every field by name: a struct with ghost fields has no `..*self`
        Some(Head {
            number: self.number + 1,
            source,
            progress,
            size: self.size,
            backup: self.backup,
            armed,
        })
    }

    // How many checkpoints can still be numbered.
    pub fn numbers_left(&self) -> u64
        ensures { result + self.now.number ≡ MOST_NUMBER }
    {
        MOST_NUMBER - self.number
    }
}

// Of two heads the one with the higher number; a tie is for the one that was found first.
pub fn leading(found: Option<Head>, next: Option<Head>) -> Option<Head>
    ensures { Leads found next result }
{
    next.filter(|second| found.is_none_or(|first| second.number > first.number))
        .or(found)
}
