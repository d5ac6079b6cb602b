// Stages over every present member.
ghost use Rattle.answer.specs.declared.Operation.TheVariants.{Read, Write, Flush};
ghost use Rattle.std.specs.Prelude.{◌≡◌};
ghost use Rattle.head.specs.Heads.{Fits};
ghost use Rattle.stage.specs.Arrays.{crew_of};
ghost use Rattle.stage.specs.Done.{FlushedAll, ReadAny, WrittenAll};
ghost use Rattle.model.specs.Faults.{OnHeads, OnSector};
ghost use Rattle.model.specs.Ends.{Stage};
ghost use Rattle.model.specs.Images.{headed};
ghost use Rattle.model.specs.May.{AtSector, nothing};
ghost use Rattle.model.specs.Steps.{Passed};

use crate::array::Array;
use answer::Refused;
use head::{HEAD_AT, Head};
use layout::Layout;
use sector::Sector;
use shelf::Shelf;

impl<L: Layout> Array<L> {
    // Writes one content to a sector of every present member.
    // A loop of its own beside the flush's: a closure would have to say the plan and the fault of its operation again, in a clause longer than the loop.
    pub(crate) fn write_all<S: Shelf>(
        &self,
        shelf: &mut S,
        sector: u64,
        content: &Sector,
    ) -> Result<(), Refused>
        ensures { Stage (crew_of L.geometry self.now) (AtSector sector content.now) (OnSector Write (S.meaning shelf.old) sector) (S.meaning shelf.old) (S.meaning shelf.new) (λ _. WrittenAll sector content.now (S.meaning shelf.new)) result }
    {
        for member in 0..shelf.members() {
            self.write_at(shelf, member, sector, content)?;
        }
        Ok(())
    }

    // Persists what is current on every present member.
    pub(crate) fn flush_all<S: Shelf>(&self, shelf: &mut S) -> Result<(), Refused>
        ensures { Stage (crew_of L.geometry self.now) nothing (OnSector Flush (S.meaning shelf.old) 0) (S.meaning shelf.old) (S.meaning shelf.new) (λ _. FlushedAll (S.meaning shelf.new)) result }
    {
        for member in 0..shelf.members() {
            self.flush_at(shelf, member)?;
        }
        Ok(())
    }

    // A sector that every member holds, from the lowest one that answers; None where none is there.
    pub(crate) fn read_any<S: Shelf>(
        &self,
        shelf: &mut S,
        sector: u64,
    ) -> Result<Option<Sector>, Refused>
        ensures { Stage (crew_of L.geometry self.now) nothing (OnSector Read (S.meaning shelf.old) sector) (S.meaning shelf.old) (S.meaning shelf.new) (λ found. ReadAny sector (S.meaning shelf.new) found) result }
    {
        for member in 0..shelf.members() {
            if let Some(content) = self.read_at(shelf, member, sector)? {
                return Ok(Some(content));
            }
        }
        Ok(None)
    }

    // Makes a head the last one on every present member.
    pub fn spread<S: Shelf>(&self, shelf: &mut S, head: &Head) -> Result<(), Refused>
        ensures stage { let a = S.meaning shelf.old in Stage (crew_of L.geometry self.now) (λ k s x. x ≡ headed head.now a.current k s) (OnHeads a) a (S.meaning shelf.new) (λ _. Passed (crew_of L.geometry self.now) (headed head.now) a (S.meaning shelf.new)) result }
        ensures fits { Fits head.now }
    {
        self.write_all(shelf, HEAD_AT, &head.encode())?;
        self.flush_all(shelf)
    }
}
