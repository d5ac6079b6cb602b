// Shelves whose current contents can be looked at without an operation.
ghost use Rattle.shelf.specs.Shown.{Shown};

use crate::Shelf;
use sector::Sector;

// A shelf whose current contents can be looked at: no power is needed, and nothing can happen.
pub trait Image: Shelf {
    // A sector's current content; None where the member or the sector is out of range.
    fn current(&self, member: u64, sector: u64) -> Option<Sector>
        ensures { Shown member sector (Self.Shelf.meaning self.now) result };
}
