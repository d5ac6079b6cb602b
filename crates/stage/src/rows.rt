// Whole rows: saved into the backup slots, placed in the target, or cleared.
ghost use Rattle.std.specs.Prelude.{◌≡◌, ℕ, ◌+◌, ◌/◌, ◌<◌, ◌≤◌, replicate, Ok, None};
ghost use Rattle.sector.specs.declared.TheConstants.{SECTOR};
ghost use Rattle.head.specs.declared.TheConstants.{SLOTS_AT};
ghost use Rattle.layout.specs.Geometry.{capacity};
ghost use Rattle.model.specs.Ends.{Stage};
ghost use Rattle.model.specs.Images.{created_over};
ghost use Rattle.model.specs.May.{From, InSlots, May, nothing};
ghost use Rattle.model.specs.Steps.{MadeAt};
ghost use Rattle.stage.specs.Arrays.{crew_of, volume_on};
ghost use Rattle.stage.specs.Endings.{Carries, HasVolume, OnMember, StageEnds, only_writes, reads_and_writes};
ghost use Rattle.stage.specs.Looks.{HomeHas, homes_of};
ghost use Rattle.stage.specs.Places.{AtPlace, PlaceHolds};
ghost use Rattle.stage.specs.Rows.{CopyOf, GroupReady, InGroup, LedBy, LooksAhead, Placeable, PlaceableRow, PlacesBy, PlacesRow, Savable, SavesBy, SavesSector};

use crate::array::Array;
use answer::Refused;
use layout::Layout;
use layout::place::{Owner, Place};
use sector::{Sector, fold, zeros};
use shelf::Shelf;
use std::ops::Range;

impl<L: Layout> Array<L> {
    // Copies sectors below the size into their backup slots, and persists them. Where there are none, nothing is done.
    pub fn save<S: Shelf>(&self, shelf: &mut S, sectors: Range<u64>) -> Result<(), Refused>
        ensures may { May (InSlots self.now.head.backup) (S.meaning shelf.old) (S.meaning shelf.new) }
        ensures ends { HasVolume L.geometry self.now (S.meaning shelf.old) → sectors.end ≤ self.now.head.size → StageEnds (crew_of L.geometry self.now) reads_and_writes (InSlots self.now.head.backup) (S.meaning shelf.old) (S.meaning shelf.new) result }
        ensures saves { HasVolume L.geometry self.now (S.meaning shelf.old) → sectors.end ≤ self.now.head.size → Savable (volume_on L.geometry self.now None) sectors.start sectors.end → sectors.start < sectors.end → SavesBy (volume_on L.geometry self.now None) sectors.start sectors.end (S.meaning shelf.old) (S.meaning shelf.new) result }
        ensures none { sectors.end ≤ sectors.start → (S.meaning shelf.new ≡ S.meaning shelf.old) × (result ≡ Ok tt) }
    {
        if sectors.is_empty() {
            return Ok(());
        }
        for sector in sectors.start..sectors.end {
            self.save_sector(shelf, sector)?;
        }
        self.flush_all(shelf)
    }

    // Copies a sector into its backup slot.
    fn save_sector<S: Shelf>(&self, shelf: &mut S, sector: u64) -> Result<(), Refused>
        ensures may { May (InSlots self.now.head.backup) (S.meaning shelf.old) (S.meaning shelf.new) }
        ensures saves { HomeHas (homes_of L.geometry self.now sector) (crew_of L.geometry self.now) (L.geometry self.now.source) (L.geometry self.now.target) self.now.head.backup sector (S.meaning shelf.old) → SavesSector (volume_on L.geometry self.now None) sector (S.meaning shelf.old) (S.meaning shelf.new) result }
    {
        let content = self.show(shelf, sector)?;
        self.write_slot(shelf, sector, &content)
    }

    // Writes all places of a target row as a fresh placement has them, and persists them.
    pub fn place_row<S: Shelf>(&self, shelf: &mut S, sectors: Range<u64>) -> Result<(), Refused>
        ensures may { May (From (SLOTS_AT + self.now.head.backup)) (S.meaning shelf.old) (S.meaning shelf.new) }
        ensures ends { HasVolume L.geometry self.now (S.meaning shelf.old) → StageEnds (crew_of L.geometry self.now) reads_and_writes (From (SLOTS_AT + self.now.head.backup)) (S.meaning shelf.old) (S.meaning shelf.new) result }
        ensures places { HasVolume L.geometry self.now (S.meaning shelf.old) → (row : ℕ) → PlaceableRow (volume_on L.geometry self.now None) row sectors.start sectors.end → PlacesRow (volume_on L.geometry self.now None) row (S.meaning shelf.old) (S.meaning shelf.new) result }
    {
        for sector in sectors.start..sectors.end {
            self.place_led(shelf, sector)?;
        }
        self.flush_all(shelf)
    }

    // Writes a sector to the target, with its group if it leads one.
    fn place_led<S: Shelf>(&self, shelf: &mut S, sector: u64) -> Result<(), Refused>
        ensures may { May (From (SLOTS_AT + self.now.head.backup)) (S.meaning shelf.old) (S.meaning shelf.new) }
        ensures places { let t = L.geometry self.now.target in HasVolume L.geometry self.now (S.meaning shelf.old) → PlacesBy (volume_on L.geometry self.now None) (Placeable (volume_on L.geometry self.now None) (sector / t.row_len)) (LedBy t sector) (S.meaning shelf.old) (S.meaning shelf.new) result }
    {
        match self.target.group(sector) {
            None => self.place_sector(shelf, sector),
            Some(group) if self.target.peer(group, 0) == sector => self.place_group(shelf, group),
            // placed with the sector that leads its group
            Some(_) => Ok(()),
        }
    }

    // Writes a sector to its copies in the target.
    fn place_sector<S: Shelf>(&self, shelf: &mut S, sector: u64) -> Result<(), Refused>
        ensures may { May (From (SLOTS_AT + self.now.head.backup)) (S.meaning shelf.old) (S.meaning shelf.new) }
        ensures places { HasVolume L.geometry self.now (S.meaning shelf.old) → PlacesBy (volume_on L.geometry self.now None) (sector < capacity (L.geometry self.now.target)) (CopyOf sector) (S.meaning shelf.old) (S.meaning shelf.new) result }
    {
        let content = self.content_ahead(shelf, sector)?;
        self.write_copies(shelf, &self.target, sector, &content)
    }

    // Writes the sectors of a group and their parity to the target.
    fn place_group<S: Shelf>(&self, shelf: &mut S, group: u64) -> Result<(), Refused>
        ensures may { May (From (SLOTS_AT + self.now.head.backup)) (S.meaning shelf.old) (S.meaning shelf.new) }
        ensures places { HasVolume L.geometry self.now (S.meaning shelf.old) → PlacesBy (volume_on L.geometry self.now None) (GroupReady (volume_on L.geometry self.now None) group) (InGroup (L.geometry self.now.target) group) (S.meaning shelf.old) (S.meaning shelf.new) result }
    {
        let mut parity = zeros();
        for index in 0..self.target.peers(group) {
            let sector = self.target.peer(group, index);
            let content = self.content_ahead(shelf, sector)?;
            fold(&mut parity, &content);
            self.write_copies(shelf, &self.target, sector, &content)?;
        }
        self.write_place(shelf, self.target.parity(group), &parity)
    }

    // What a target row is to hold of a sector: its content, and zeros from the size on.
    fn content_ahead<S: Shelf>(&self, shelf: &mut S, sector: u64) -> Result<Sector, Refused>
        ensures may { May nothing (S.meaning shelf.old) (S.meaning shelf.new) }
        ensures looks { HasVolume L.geometry self.now (S.meaning shelf.old) → LooksAhead (volume_on L.geometry self.now None) sector (S.meaning shelf.old) (S.meaning shelf.new) result }
    {
        if sector < self.head.size {
            self.show(shelf, sector)
        } else {
            Ok(zeros())
        }
    }

    // Zeroes every place of the source that has an owner, and persists it.
    pub fn clear<S: Shelf>(&self, shelf: &mut S) -> Result<(), Refused>
        ensures { Carries (crew_of L.geometry self.now) only_writes (created_over (L.geometry self.now.source) self.now.head.backup) (S.meaning shelf.old) (S.meaning shelf.new) result }
    {
        for member in 0..self.source.members() {
            self.clear_member(shelf, member)?;
        }
        self.flush_all(shelf)
    }

    fn clear_member<S: Shelf>(&self, shelf: &mut S, member: u64) -> Result<(), Refused>
        ensures { let a = S.meaning shelf.old in let f = created_over (L.geometry self.now.source) self.now.head.backup in Stage (crew_of L.geometry self.now) (λ k s x. x ≡ f a.current k s) (OnMember only_writes a) a (S.meaning shelf.new) (λ _. (s : ℕ) → MadeAt f a (S.meaning shelf.new) member s) result }
    {
        for offset in 0..self.source.depth() {
            if self.source.owner((member, offset)) == Owner::Nobody {
                continue;
            }
            self.clear_place(shelf, (member, offset))?;
        }
        Ok(())
    }

    fn clear_place<S: Shelf>(&self, shelf: &mut S, place: Place) -> Result<(), Refused>
        ensures { let backup = self.now.head.backup in Stage (crew_of L.geometry self.now) (AtPlace backup place (replicate SECTOR 0)) (OnMember only_writes (S.meaning shelf.old)) (S.meaning shelf.old) (S.meaning shelf.new) (λ _. PlaceHolds backup place (replicate SECTOR 0) (S.meaning shelf.new)) result }
    {
        self.write_place(shelf, place, &zeros())
    }
}
