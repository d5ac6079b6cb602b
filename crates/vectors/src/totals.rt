// What a run over many recordings came to.
ghost use Rattle.std.specs.Prelude.{◌≡◌, ◌&&◌, ◌==◌, nat_lt, true};
ghost use Rattle.vectors.specs.Agreements.{agreed};

use crate::Comparison;

// what was compared so far
#[derive(Clone, Copy, Default, PartialEq, Eq, Debug)]
pub struct Totals {
    pub recordings: u64,
    pub data: u64,
    pub parities: u64,
    // recordings that do not agree, and files that could not be compared
    pub differing: u64,
    pub left_out: u64,
}

impl Totals {
    // One recording more.
    pub fn compared(self, found: Comparison) -> Totals
        ensures recordings { nat_lt 0 result.recordings ≡ true }
        ensures differing { (result.differing == 0) ≡ (self.differing == 0 && agreed found) }
        ensures left_out { result.left_out ≡ self.left_out }
    {
        Totals {
            recordings: self.recordings.saturating_add(1),
            data: self.data.saturating_add(found.data),
            parities: self.parities.saturating_add(found.parities),
            differing: self.differing.saturating_add(u64::from(!found.agrees())),
            left_out: self.left_out,
        }
    }

    // One file more that could not be compared.
    pub fn left_out(self) -> Totals
        ensures recordings { result.recordings ≡ self.recordings }
        ensures differing { result.differing ≡ self.differing }
        ensures left_out { nat_lt 0 result.left_out ≡ true }
    {
        Totals {
            left_out: self.left_out.saturating_add(1),
            ..self
        }
    }

    // Whether there was a recording, and every file was one and agrees.
    pub fn all_agree(&self) -> bool
        ensures { result ≡ (nat_lt 0 self.now.recordings && (self.now.differing == 0 && self.now.left_out == 0)) }
    {
        self.recordings > 0 && (self.differing == 0 && self.left_out == 0)
    }
}
