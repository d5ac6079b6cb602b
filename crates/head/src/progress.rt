// What a progress says; an idle one has the label of no layout and no rows, as its head has it: a label and numbers of zero, and not None.
ghost use Rattle.std.specs.Prelude.{◌≡◌};
ghost use Rattle.std.specs.Int.{from_bool};
ghost use Rattle.head.specs.Heads.{phase_byte, target_label, settled_rows, kept_rows};

use crate::state::Progress;
use layout::label::Label;

impl Progress {
    pub(crate) fn is_moving(&self) -> bool
        ensures { from_bool result ≡ phase_byte self.now }
    {
        matches!(self, Progress::Moving { .. })
    }

    pub fn target(&self) -> Label
        ensures { result ≡ target_label self.now }
    {
        match *self {
            Progress::Idle => Label::ZERO,
            Progress::Moving { target, .. } => target,
        }
    }

    // The target's settled rows and the source's kept rows.
    fn rows(&self) -> (u64, u64)
        ensures settled { result.0 ≡ settled_rows self.now }
        ensures kept { result.1 ≡ kept_rows self.now }
    {
        match *self {
            Progress::Idle => (0, 0),
            Progress::Moving { settled, kept, .. } => (settled, kept),
        }
    }

    // The target's settled rows.
    pub fn settled(&self) -> u64
        ensures { result ≡ settled_rows self.now }
    {
        self.rows().0
    }

    // The source's kept rows.
    pub fn kept(&self) -> u64
        ensures { result ≡ kept_rows self.now }
    {
        self.rows().1
    }
}
