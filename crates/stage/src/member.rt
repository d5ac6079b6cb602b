// One operation on one member, as a step of a stage. It ends the call where the power is gone or too few members are left.
ghost use Rattle.answer.specs.declared.Operation.TheVariants.{Read, Write, Flush};
ghost use Rattle.stage.specs.Cells.{Others};
ghost use Rattle.stage.specs.Arrays.{crew_of};
ghost use Rattle.stage.specs.Done.{FlushedAt, ReadAt, Weighed, WrittenAt};
ghost use Rattle.model.specs.Faults.{OnCell};
ghost use Rattle.model.specs.Ends.{Stage};
ghost use Rattle.model.specs.May.{AtCell, nothing};

use crate::array::Array;
use crate::operation;
use answer::{Fault, Operation, Refusal, Refused};
use layout::Layout;
use sector::{Sector, zeros};
use shelf::{Answer, Failure, Shelf};

impl<L: Layout> Array<L> {
    // Whether the stage goes on with the member of an operation or, where those left are enough, without it.
    fn weigh<S: Shelf>(&self, shelf: &S, answer: Answer, fault: Fault) -> Result<bool, Refused>
        ensures { Weighed (crew_of L.geometry self.now) answer fault (S.meaning shelf.now) result }
    {
        match answer {
            Ok(()) | Err(Failure::OutOfRange) => Ok(true),
            Err(Failure::Off) => Err(Refused::met(Refusal::PowerLost, fault)),
            Err(Failure::Absent) if self.enough(shelf) => Ok(false),
            Err(Failure::Absent) => Err(Refused::met(Refusal::MembersLost, fault)),
        }
    }

    // Writes a sector of a member, if it is present.
    pub(crate) fn write_at<S: Shelf>(
        &self,
        shelf: &mut S,
        member: u64,
        sector: u64,
        content: &Sector,
    ) -> Result<(), Refused>
        ensures stage { Stage (crew_of L.geometry self.now) (AtCell member sector content.now) (OnCell Write (S.meaning shelf.old) member sector) (S.meaning shelf.old) (S.meaning shelf.new) (λ _. WrittenAt member sector content.now (S.meaning shelf.new)) result }
        ensures others { Others member (S.meaning shelf.old) (S.meaning shelf.new) }
    {
        if shelf.is_present(member) {
            let answer = operation::put(shelf, member, sector, content);
            self.weigh(shelf, answer, Fault::at(Operation::Write, member, sector))?;
        }
        Ok(())
    }

    // What a member holds in a sector; None where it is not present.
    pub(crate) fn read_at<S: Shelf>(
        &self,
        shelf: &mut S,
        member: u64,
        sector: u64,
    ) -> Result<Option<Sector>, Refused>
        ensures stage { Stage (crew_of L.geometry self.now) nothing (OnCell Read (S.meaning shelf.old) member sector) (S.meaning shelf.old) (S.meaning shelf.new) (λ found. ReadAt member sector (S.meaning shelf.new) found) result }
        ensures others { Others member (S.meaning shelf.old) (S.meaning shelf.new) }
    {
        if !shelf.is_present(member) {
            return Ok(None);
        }
        let mut content = zeros();
        let answer = operation::get(shelf, member, sector, &mut content);
        let here = self.weigh(shelf, answer, Fault::at(Operation::Read, member, sector))?;
        Ok(here.then_some(content))
    }

    // Flushes a member, if it is present.
    pub(crate) fn flush_at<S: Shelf>(&self, shelf: &mut S, member: u64) -> Result<(), Refused>
        ensures stage { Stage (crew_of L.geometry self.now) nothing (OnCell Flush (S.meaning shelf.old) member 0) (S.meaning shelf.old) (S.meaning shelf.new) (λ _. FlushedAt member (S.meaning shelf.new)) result }
        ensures others { Others member (S.meaning shelf.old) (S.meaning shelf.new) }
    {
        if shelf.is_present(member) {
            let answer = operation::flush(shelf, member);
            self.weigh(shelf, answer, Fault::at(Operation::Flush, member, 0))?;
        }
        Ok(())
    }
}
