// A write, by way of the log.
ghost use Rattle.std.specs.Prelude.{◌+◌, ◌%◌};
ghost use Rattle.answer.specs.declared.Operation.TheVariants.{Write};
ghost use Rattle.head.specs.declared.TheConstants.{SLOTS_AT};
ghost use Rattle.model.specs.Ends.{Stage};
ghost use Rattle.model.specs.Faults.{OnSector};
ghost use Rattle.model.specs.Images.{logged};
ghost use Rattle.model.specs.May.{AtSector, EitherPlan, From, May, OneFrom, nothing};
ghost use Rattle.model.specs.Readable.{InUse};
ghost use Rattle.model.specs.Steps.{AllDurable};
ghost use Rattle.stage.specs.Arrays.{crew_of};
ghost use Rattle.stage.specs.Done.{WrittenAll};
ghost use Rattle.stage.specs.Endings.{Carries, OnMember, StageEnds, only_writes, reads_and_writes};
ghost use Rattle.stage.specs.Looks.{homes_of};
ghost use Rattle.stage.specs.Places.{AtCopies, AtPlace, CopiesFlushed, CopiesHold, EitherOf, HasHome, HomeFlushed, PlaceHolds, PlacesFlushed, RedoneBy, WritesPlaces, WritesStep, home_step};

use crate::array::Array;
use answer::Refused;
use head::{LOGGED_DATUM_AT, LOGGED_PARITY_AT};
use layout::Layout;
use layout::place::Place;
use sector::Sector;
use shelf::Shelf;

// A write of a sector: what it holds from then on, and the parity of its group, or zeros where its home has none.
#[derive(Clone, Copy)]
pub struct Entry<'a> {
    pub sector: u64,
    pub datum: &'a Sector,
    pub parity: &'a Sector,
}

impl<L: Layout> Array<L> {
    // Puts a write into the log on every present member. Nothing rests on it until a head is armed for it.
    pub fn log<S: Shelf>(&self, shelf: &mut S, entry: Entry) -> Result<(), Refused>
        ensures { Carries (crew_of L.geometry self.now) only_writes (logged entry.entry.datum.now entry.entry.parity.now) (S.meaning shelf.old) (S.meaning shelf.new) result }
    {
        self.write_all(shelf, LOGGED_DATUM_AT, entry.datum)?;
        self.write_all(shelf, LOGGED_PARITY_AT, entry.parity)?;
        self.flush_all(shelf)
    }

    // Carries a logged write out: every place of the sector's home, and durable.
    pub fn apply<S: Shelf>(&self, shelf: &mut S, entry: Entry) -> Result<(), Refused>
        ensures ends { StageEnds (crew_of L.geometry self.now) only_writes (EitherOf SLOTS_AT entry.entry.datum.now entry.entry.parity.now) (S.meaning shelf.old) (S.meaning shelf.new) result }
        ensures carries { AllDurable (S.meaning shelf.old) → HasHome L.geometry self.now entry.entry.sector → Carries (crew_of L.geometry self.now) only_writes (home_step L.geometry self.now entry.entry.sector entry.entry.datum.now entry.entry.parity.now) (S.meaning shelf.old) (S.meaning shelf.new) result }
    {
        self.write_home(shelf, entry)?;
        self.flush_home(shelf, entry.sector)
    }

    // Writes every place of a sector's home.
    fn write_home<S: Shelf>(&self, shelf: &mut S, entry: Entry) -> Result<(), Refused>
        ensures { WritesStep (crew_of L.geometry self.now) (HasHome L.geometry self.now entry.entry.sector) (EitherOf SLOTS_AT entry.entry.datum.now entry.entry.parity.now) (home_step L.geometry self.now entry.entry.sector entry.entry.datum.now entry.entry.parity.now) (S.meaning shelf.old) (S.meaning shelf.new) result }
    {
        match self.home_layout(entry.sector) {
            Some(layout) => self.write_places(shelf, layout, entry),
            None => self.write_slot(shelf, entry.sector, entry.datum),
        }
    }

    // Carries out again the write that stands in the log.
    pub fn redo<S: Shelf>(&self, shelf: &mut S, sector: u64) -> Result<(), Refused>
        ensures may { May (From SLOTS_AT) (S.meaning shelf.old) (S.meaning shelf.new) }
        ensures ends { InUse (crew_of L.geometry self.now) (L.geometry self.now.source) self.now.head.backup (S.meaning shelf.old) → StageEnds (crew_of L.geometry self.now) reads_and_writes (From SLOTS_AT) (S.meaning shelf.old) (S.meaning shelf.new) result }
        ensures carries { InUse (crew_of L.geometry self.now) (L.geometry self.now.source) self.now.head.backup (S.meaning shelf.old) → AllDurable (S.meaning shelf.old) → HasHome L.geometry self.now sector → RedoneBy L.geometry self.now sector (S.meaning shelf.old) (S.meaning shelf.new) result }
    {
        let datum = self.read_held(shelf, LOGGED_DATUM_AT)?;
        let parity = self.read_held(shelf, LOGGED_PARITY_AT)?;
        self.apply(
            shelf,
            Entry {
                sector,
                datum: &datum,
                parity: &parity,
            },
        )
    }

    // Writes a sector's backup slot on every present member.
    pub(crate) fn write_slot<S: Shelf>(
        &self,
        shelf: &mut S,
        sector: u64,
        content: &Sector,
    ) -> Result<(), Refused>
        ensures { let slot = SLOTS_AT + sector % self.now.head.backup in Stage (crew_of L.geometry self.now) (AtSector slot content.now) (OnSector Write (S.meaning shelf.old) slot) (S.meaning shelf.old) (S.meaning shelf.new) (λ _. WrittenAll slot content.now (S.meaning shelf.new)) result }
    {
        self.write_all(shelf, self.slot(sector), content)
    }

    // Writes all copies of a sector and the parity of its group.
    fn write_places<S: Shelf>(&self, shelf: &mut S, layout: &L, entry: Entry) -> Result<(), Refused>
        ensures { WritesPlaces (crew_of L.geometry self.now) (L.geometry layout.now) self.now.head.backup entry.entry.sector entry.entry.datum.now entry.entry.parity.now (S.meaning shelf.old) (S.meaning shelf.new) result }
    {
        self.write_copies(shelf, layout, entry.sector, entry.datum)?;
        match layout.group(entry.sector) {
            Some(group) => self.write_place(shelf, layout.parity(group), entry.parity),
            None => Ok(()),
        }
    }

    // Writes all copies of a sector.
    pub(crate) fn write_copies<S: Shelf>(
        &self,
        shelf: &mut S,
        layout: &L,
        sector: u64,
        datum: &Sector,
    ) -> Result<(), Refused>
        ensures { let g = L.geometry layout.now in let backup = self.now.head.backup in Stage (crew_of L.geometry self.now) (AtCopies g backup sector datum.now) (OnMember only_writes (S.meaning shelf.old)) (S.meaning shelf.old) (S.meaning shelf.new) (λ _. CopiesHold g backup sector g.copies datum.now (S.meaning shelf.new)) result }
    {
        for copy in 0..layout.copies() {
            self.write_place(shelf, layout.place(sector, copy), datum)?;
        }
        Ok(())
    }

    pub(crate) fn write_place<S: Shelf>(
        &self,
        shelf: &mut S,
        place: Place,
        content: &Sector,
    ) -> Result<(), Refused>
        ensures { let backup = self.now.head.backup in Stage (crew_of L.geometry self.now) (AtPlace backup place content.now) (OnMember only_writes (S.meaning shelf.old)) (S.meaning shelf.old) (S.meaning shelf.new) (λ _. PlaceHolds backup place content.now (S.meaning shelf.new)) result }
    {
        let (member, offset) = place;
        self.write_at(shelf, member, self.body().saturating_add(offset), content)
    }

    // Persists what a write at a sector's home has changed. All else is durable already, since the head was armed.
    fn flush_home<S: Shelf>(&self, shelf: &mut S, sector: u64) -> Result<(), Refused>
        ensures { Stage (crew_of L.geometry self.now) nothing (OnMember only_writes (S.meaning shelf.old)) (S.meaning shelf.old) (S.meaning shelf.new) (λ _. HomeFlushed (homes_of L.geometry self.now sector) (L.geometry self.now.source) (L.geometry self.now.target) sector (S.meaning shelf.new)) result }
    {
        match self.home_layout(sector) {
            Some(layout) => self.flush_places(shelf, layout, sector),
            None => self.flush_all(shelf),
        }
    }

    // Persists the members of a sector's copies and of its group's parity.
    fn flush_places<S: Shelf>(&self, shelf: &mut S, layout: &L, sector: u64) -> Result<(), Refused>
        ensures { Stage (crew_of L.geometry self.now) nothing (OnMember only_writes (S.meaning shelf.old)) (S.meaning shelf.old) (S.meaning shelf.new) (λ _. PlacesFlushed (L.geometry layout.now) sector (S.meaning shelf.new)) result }
    {
        self.flush_copies(shelf, layout, sector)?;
        match layout.group(sector) {
            Some(group) => self.flush_at(shelf, layout.parity(group).0),
            None => Ok(()),
        }
    }

    // Persists the members of a sector's copies.
    fn flush_copies<S: Shelf>(&self, shelf: &mut S, layout: &L, sector: u64) -> Result<(), Refused>
        ensures { let g = L.geometry layout.now in Stage (crew_of L.geometry self.now) nothing (OnMember only_writes (S.meaning shelf.old)) (S.meaning shelf.old) (S.meaning shelf.new) (λ _. CopiesFlushed g sector g.copies (S.meaning shelf.new)) result }
    {
        for copy in 0..layout.copies() {
            self.flush_at(shelf, layout.place(sector, copy).0)?;
        }
        Ok(())
    }
}
