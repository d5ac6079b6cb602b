// The operations of a shelf by the trait's contracts alone, so that nothing above leans on how the shelf within is made.
// Each hands one call on: where the type is known, a shelf's own clauses would take the place of the trait's.
ghost use Rattle.shelf.specs.Meaning.{Flushed, Reads, Restarts, Writes};
ghost use Rattle.shelf.specs.Shown.{Shown};
ghost use Rattle.drill.specs.Ranges.{InRangeIs, MemberIs};

use sector::{SECTOR, Sector};
use shelf::image::Image;
use shelf::{Answer, Failure, Shelf};

// Refuses a read or a write out of range, by what every shelf tells of itself: the shelf within tests so again, but in its operations.
pub(crate) fn in_range<S: Shelf>(shelf: &S, member: u64, sector: u64, length: usize) -> Answer
    ensures { InRangeIs (S.Shelf.meaning shelf.now) member sector length result }
{
    if member < shelf.members() && sector < shelf.sectors() && length == SECTOR {
        Ok(())
    } else {
        Err(Failure::OutOfRange)
    }
}

// Refuses a flush of a member that the shelf has not, present or absent.
pub(crate) fn has_member<S: Shelf>(shelf: &S, member: u64) -> Answer
    ensures { MemberIs (S.Shelf.meaning shelf.now) member result }
{
    if member < shelf.members() {
        Ok(())
    } else {
        Err(Failure::OutOfRange)
    }
}

pub(crate) fn read<S: Shelf>(shelf: &mut S, member: u64, sector: u64, buffer: &mut [u8]) -> Answer
    ensures { Reads member sector buffer.old buffer.new (S.Shelf.meaning shelf.old) (S.Shelf.meaning shelf.new) result }
{
    shelf.read(member, sector, buffer)
}

pub(crate) fn write<S: Shelf>(shelf: &mut S, member: u64, sector: u64, buffer: &[u8]) -> Answer
    ensures { Writes member sector buffer.now (S.Shelf.meaning shelf.old) (S.Shelf.meaning shelf.new) result }
{
    shelf.write(member, sector, buffer)
}

pub(crate) fn flush<S: Shelf>(shelf: &mut S, member: u64) -> Answer
    ensures { Flushed member (S.Shelf.meaning shelf.old) (S.Shelf.meaning shelf.new) result }
{
    shelf.flush(member)
}

pub(crate) fn restart<S: Shelf>(shelf: &mut S) -> bool
    ensures { Restarts (S.Shelf.meaning shelf.old) (S.Shelf.meaning shelf.new) result }
{
    shelf.restart()
}

pub(crate) fn current<S: Image>(shelf: &S, member: u64, sector: u64) -> Option<Sector>
    ensures { Shown member sector (S.Shelf.meaning shelf.now) result }
{
    shelf.current(member, sector)
}
