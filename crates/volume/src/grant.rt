// The grant of a row: what copy gives, and settle or hand back takes.
ghost use Rattle.std.specs.Prelude.{◌≡◌};
ghost use Rattle.volume.specs.Volumes.{granted_row};

// The right to settle the target row that was copied. It is no `Drop` and has no public field, so the compiler refuses a program
// that forgets one: it has to be settled or handed back.
pub struct Grant {
    row: u64,
}

impl Grant {
    pub(crate) fn of(row: u64) -> Grant
        ensures { granted_row result ≡ row }
    {
        Grant { row }
    }

    // The target row that it is for.
    pub fn row(&self) -> u64
        ensures { result ≡ granted_row self.now }
    {
        self.row
    }

    pub(crate) fn spend(self) -> u64
        ensures { result ≡ granted_row self }
    {
        let Grant { row } = self;
        row
    }
}
