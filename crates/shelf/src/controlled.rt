// Shelves on which it can be set from outside what is to happen.
ghost use Rattle.std.specs.Prelude.{◌≡◌, Result};
ghost use Rattle.answer.specs.declared.Refusal.{Refusal};

use crate::Shelf;
use answer::Refusal;

// A shelf with controls. Setting one is no operation: what the shelf means stays as it is, so a volume may lend them.
pub trait Controlled: Shelf {
    // one setting
    type Control: Drop;

    // what a setting makes of the shelf, and what it answers
    ghost sets: { Self.Control → Self → Self → Result Unit Refusal → Type 0 };

    fn control(&mut self, control: Self::Control) -> Result<(), Refusal>
        ensures state { sets control self.old self.new result }
        ensures meaning { Self.Shelf.meaning self.new ≡ Self.Shelf.meaning self.old };
}
