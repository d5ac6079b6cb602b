// One operation on one member, told by its answer. Each hands one call on, and its clause says in the stages' own words what an operation does.
ghost use Rattle.stage.specs.Cells.{GotAt, PutAt, FlushedBy};

use sector::Sector;
use shelf::{Answer, Shelf};

pub(crate) fn put<S: Shelf>(shelf: &mut S, member: u64, sector: u64, content: &Sector) -> Answer
    ensures { PutAt member sector content.now (S.meaning shelf.old) (S.meaning shelf.new) result }
{
    shelf.write(member, sector, content)
}

pub(crate) fn get<S: Shelf>(shelf: &mut S, member: u64, sector: u64, content: &mut Sector) -> Answer
    ensures { GotAt member sector content.old content.new (S.meaning shelf.old) (S.meaning shelf.new) result }
{
    shelf.read(member, sector, content)
}

pub(crate) fn flush<S: Shelf>(shelf: &mut S, member: u64) -> Answer
    ensures { FlushedBy member (S.meaning shelf.old) (S.meaning shelf.new) result }
{
    shelf.flush(member)
}
