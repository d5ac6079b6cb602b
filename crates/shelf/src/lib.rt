// Shelves: a few members of equally many sectors, which can lose power or a member at every operation.
#![tactic(auto)]

ghost use Rattle.std.specs.Prelude.{◌≡◌, ℕ, ◌<◌, true};
ghost use Rattle.shelf.specs.Meaning.{Flushed, Meaning, Reads, Restarts, Writes};
ghost use Rattle.shelf.specs.Relation.{Allows, Remembers, Repeats};

pub mod controlled;
mod controls;
mod extent;
pub mod image;
mod images;
pub mod plain;
mod run;
pub mod trial;

pub const MOST_SECTORS: u64 = 33_554_432;

// Why an operation was not done: what it tells of the shelf afterwards.
#[derive(Clone, Copy, PartialEq, Eq, Debug)]
pub enum Failure {
    // on, and the member is gone for good
    Absent,
    // off until a restart
    Off,
    // the member, the sector or the buffer's length is out of range: nothing happened
    OutOfRange,
}

// An operation that is done leaves the shelf on and has found the member there.
pub type Answer = Result<(), Failure>;

// A shelf. What is written is current at once and durable by a flush at the latest; a restart brings out one of the two for each sector.
pub trait Shelf {
    // on or off, which members are there, and what is durable and what is current in each sector
    ghost meaning: { Self → Meaning };

    // How many members it has, present or absent.
    fn members(&self) -> u64
        ensures { result ≡ (meaning self.now).members };

    // How many sectors each member has.
    fn sectors(&self) -> u64
        ensures { result ≡ (meaning self.now).sectors };

    fn is_on(&self) -> bool
        ensures { result ≡ (meaning self.now).on };

    // Whether the member is there, as far as the operations have shown.
    fn is_present(&self, member: u64) -> bool
        ensures { result ≡ (meaning self.now).present member };

    // A done read gives the sector's current content, and any other leaves the buffer.
    fn read(&mut self, member: u64, sector: u64, buffer: &mut [u8]) -> Answer
        ensures { Reads member sector buffer.old buffer.new (meaning self.old) (meaning self.new) result };

    // A done write sets the sector's current content.
    fn write(&mut self, member: u64, sector: u64, buffer: &[u8]) -> Answer
        ensures { Writes member sector buffer.now (meaning self.old) (meaning self.new) result };

    // A done flush persists what is current on the member.
    fn flush(&mut self, member: u64) -> Answer
        ensures { Flushed member (meaning self.old) (meaning self.new) result };

    // Turns the shelf on again and says whether it is on. A yes or no: it names no member that could be absent, and nothing out of range.
    fn restart(&mut self) -> bool
        ensures { Restarts (meaning self.old) (meaning self.new) result };

    ghost inside: { (x : Self) (k : ℕ) → (meaning x).present k ≡ true → k < (meaning x).members };
}

// The rules of a shelf are closed under repetition, strong enough that nothing done is forgotten, and weak enough that an operation may be done, be cut or
// find its member gone, that any sectors may become durable meanwhile, and that a restart may bring out either content of each sector.
pub fn relation_stands()
    ensures repeated { Repeats }
    ensures remembered { Remembers }
    ensures allowed { Allows }
{}
