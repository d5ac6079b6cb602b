// Where the sectors of a volume live.
ghost use Rattle.std.specs.Prelude.{◌≡◌, ◌+◌, ◌%◌, MatchOption};
ghost use Rattle.head.specs.declared.TheConstants.{SLOTS_AT};
ghost use Rattle.overlap.specs.declared.walk.Home.TheVariants.{Backup};
ghost use Rattle.stage.specs.Looks.{InLayout, homes_of};
ghost use Rattle.stage.specs.Walks.{WalkOf};

use crate::array::Array;
use head::SLOTS_AT;
use layout::Layout;
use model::phase::Phase;
use overlap::walk::{Home, Walk};

impl<L: Layout> Array<L> {
    // How far the move has come.
    pub fn walk(&self) -> Walk
        ensures { WalkOf (L.geometry self.now.source) (L.geometry self.now.target) self.now.head result }
    {
        let head = &self.head;
        let (settled, kept) = (head.progress.settled(), head.progress.kept());
        let backup = u64::from(head.backup);
        Walk::of(&self.source, &self.target, settled, kept, head.size, backup)
    }

    // Where a sector lives.
    fn home(&self, sector: u64) -> Home
        ensures { result ≡ homes_of L.geometry self.now sector }
    {
        match self.phase {
            Phase::Moving => self.walk().home(sector),
            Phase::After => Home::Target,
            Phase::Before | Phase::Shut(_) => Home::Source,
        }
    }

    // The layout that has a sector's home; None where a backup slot is.
    pub(crate) fn home_layout(&self, sector: u64) -> Option<&L>
        ensures { let h = homes_of L.geometry self.now sector in MatchOption result (h ≡ Backup) (λ layout. InLayout h (L.geometry self.now.source) (L.geometry self.now.target) (L.geometry layout.now)) }
    {
        match self.home(sector) {
            Home::Source => Some(&self.source),
            Home::Target => Some(&self.target),
            Home::Backup => None,
        }
    }

    // The shelf sector at which a member's body begins, after the backup slots.
    pub(crate) fn body(&self) -> u64
        ensures { result ≡ SLOTS_AT + self.now.head.backup }
    {
        SLOTS_AT + u64::from(self.head.backup)
    }

    // The shelf sector of the backup slot of a sector.
    pub(crate) fn slot(&self, sector: u64) -> u64
        ensures { result ≡ SLOTS_AT + sector % self.now.head.backup }
    {
        SLOTS_AT + sector % u64::from(self.head.backup)
    }
}
