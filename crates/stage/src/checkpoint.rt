// Checkpoints.
ghost use Rattle.std.specs.Prelude.{◌≡◌, OnOk};
ghost use Rattle.head.specs.Heads.{Fits};
ghost use Rattle.stage.specs.Checkpoint.{Checkpointed};
ghost use Rattle.stage.specs.Arrays.{crew_of};

use crate::array::Array;
use answer::{Refusal, Refused};
use head::Progress;
use layout::Layout;
use layout::label::Label;
use shelf::Shelf;

impl<L: Layout> Array<L> {
    // The next checkpoint: its head reaches every present member before anything rests on it.
    pub fn checkpoint<S: Shelf>(
        &mut self,
        shelf: &mut S,
        source: Label,
        progress: Progress,
        armed: Option<u64>,
    ) -> Result<(), Refused>
        ensures stage { Checkpointed (crew_of L.geometry self.old) source progress armed self.old.head self.new.head (S.meaning shelf.old) (S.meaning shelf.new) result }
        ensures fits { OnOk result (Fits self.new.head) }
        ensures source { self.new.source ≡ self.old.source }
        ensures target { self.new.target ≡ self.old.target }
        ensures phase { self.new.phase ≡ self.old.phase }
    {
        let head = self
            .head
            .next(source, progress, armed)
            .ok_or(Refusal::NumbersSpent)?;
        self.spread(shelf, &head)?;
        self.head = head;
        Ok(())
    }
}
