// The heads on a shelf's members, and the one that leads. Members that are found absent are judged by the caller.
ghost use Rattle.stage.specs.Cells.{Others};
ghost use Rattle.model.specs.Heads.{FoundHead, ReadHead};

use crate::operation;
use answer::{Fault, Operation, Refusal, Refused};
use head::{HEAD_AT, Head, leading};
use sector::zeros;
use shelf::{Failure, Shelf};

// The head that a member holds, if it is there and holds one.
fn read_head<S: Shelf>(shelf: &mut S, member: u64) -> Result<Option<Head>, Refused>
    ensures read { ReadHead member (S.meaning shelf.old) (S.meaning shelf.new) result }
    ensures others { Others member (S.meaning shelf.old) (S.meaning shelf.new) }
{
    if !shelf.is_present(member) {
        return Ok(None);
    }
    let mut bytes = zeros();
    match operation::get(shelf, member, HEAD_AT, &mut bytes) {
        Ok(()) => Ok(Head::decode(&bytes)),
        Err(Failure::Absent | Failure::OutOfRange) => Ok(None),
        Err(Failure::Off) => Err(Refused::met(
            Refusal::PowerLost,
            Fault::at(Operation::Read, member, HEAD_AT),
        )),
    }
}

// The head that leads: the one with the highest number, and at a tie the lowest member's.
pub fn leading_head<S: Shelf>(shelf: &mut S) -> Result<Option<Head>, Refused>
    ensures { FoundHead (S.meaning shelf.old) (S.meaning shelf.new) result }
{
    let mut found = None;
    for member in 0..shelf.members() {
        found = leading(found, read_head(shelf, member)?);
    }
    Ok(found)
}
