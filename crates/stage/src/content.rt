// What the sectors of a volume hold, read from where they live.
ghost use Rattle.std.specs.Prelude.{◌≡◌, ◌<◌};
ghost use Rattle.answer.specs.declared.Operation.TheVariants.{Read};
ghost use Rattle.model.specs.Contents.{peer_gone, rebuilt, some};
ghost use Rattle.model.specs.Reading.{common, laid, parity_with};
ghost use Rattle.model.specs.Ends.{Stage};
ghost use Rattle.model.specs.Faults.{OnSector};
ghost use Rattle.model.specs.May.{May, nothing};
ghost use Rattle.stage.specs.Arrays.{crew_of};
ghost use Rattle.stage.specs.Cells.{Others};
ghost use Rattle.stage.specs.Looks.{FoldsOthers, FoldsPlace, HasGroup, HasSector, HomeHas, Lies, LostPeer, NoCopy, OnBody, OneSure, ReadPlace, Shows, ShowsParity, ShowsSector, Sure, homes_of};

use crate::array::Array;
use answer::{Refusal, Refused};
use layout::Layout;
use layout::place::Place;
use sector::{Sector, fold, zeros};
use shelf::Shelf;

// A layout, a group of it and a sector go through these functions as arguments: the layout is one of the array's own, and a struct would
// have to borrow it from the array beside the array. Members that are enough have every sector of a layout in force, so a look that says
// what it needs ends without a fault nowhere.
impl<L: Layout> Array<L> {
    // A sector that every member holds, while there is a member to read it from.
    pub(crate) fn read_held<S: Shelf>(&self, shelf: &mut S, sector: u64) -> Result<Sector, Refused>
        ensures may { May nothing (S.meaning shelf.old) (S.meaning shelf.new) }
        ensures shows { let a = S.meaning shelf.old in OneSure (crew_of L.geometry self.now) sector a → Shows (crew_of L.geometry self.now) (OnSector Read a sector) a (S.meaning shelf.new) (λ m. common m sector) result }
    {
        match self.read_any(shelf, sector)? {
            Some(content) => Ok(content),
            None => Err(Refusal::MembersLost.into()),
        }
    }

    // The content of a sector, read from its home.
    pub fn show<S: Shelf>(&self, shelf: &mut S, sector: u64) -> Result<Sector, Refused>
        ensures may { May nothing (S.meaning shelf.old) (S.meaning shelf.new) }
        ensures shows { let a = S.meaning shelf.old in let h = homes_of L.geometry self.now sector in HomeHas h (crew_of L.geometry self.now) (L.geometry self.now.source) (L.geometry self.now.target) self.now.head.backup sector a → ShowsSector h (crew_of L.geometry self.now) (L.geometry self.now.source) (L.geometry self.now.target) self.now.head.backup sector a (S.meaning shelf.new) result }
    {
        match self.home_layout(sector) {
            Some(layout) => self.show_in(shelf, layout, sector),
            None => self.read_held(shelf, self.slot(sector)),
        }
    }

    // The content of a sector as a layout's places give it: the lowest copy present, else what the rest of its group makes it.
    fn show_in<S: Shelf>(&self, shelf: &mut S, layout: &L, sector: u64) -> Result<Sector, Refused>
        ensures may { May nothing (S.meaning shelf.old) (S.meaning shelf.new) }
        ensures shows { let a = S.meaning shelf.old in let backup = self.now.head.backup in HasSector (crew_of L.geometry self.now) (L.geometry layout.now) backup sector a → Shows (crew_of L.geometry self.now) (OnBody Read backup a) a (S.meaning shelf.new) (λ m. laid (L.geometry layout.now) m backup sector) result }
    {
        for copy in 0..layout.copies() {
            if let Some(content) = self.read_place(shelf, layout.place(sector, copy))? {
                return Ok(content);
            }
        }
        self.rebuild(shelf, layout, sector)
    }

    // A lost sector, as its group gives it.
    fn rebuild<S: Shelf>(&self, shelf: &mut S, layout: &L, sector: u64) -> Result<Sector, Refused>
        ensures may { May nothing (S.meaning shelf.old) (S.meaning shelf.new) }
        ensures shows { let a = S.meaning shelf.old in let backup = self.now.head.backup in let g = L.geometry layout.now in NoCopy (crew_of L.geometry self.now) g backup sector a → Shows (crew_of L.geometry self.now) (OnBody Read backup a) a (S.meaning shelf.new) (λ m. rebuilt g m backup (g.group sector) sector) result }
    {
        match layout.group(sector) {
            Some(group) => self.rebuild_in(shelf, layout, group, sector),
            None => Err(Refusal::MembersLost.into()),
        }
    }

    // The exclusive-or of the sector's peers and the parity.
    fn rebuild_in<S: Shelf>(
        &self,
        shelf: &mut S,
        layout: &L,
        group: u64,
        sector: u64,
    ) -> Result<Sector, Refused>
        ensures may { May nothing (S.meaning shelf.old) (S.meaning shelf.new) }
        ensures shows { let a = S.meaning shelf.old in let backup = self.now.head.backup in let g = L.geometry layout.now in group ≡ g.group sector → NoCopy (crew_of L.geometry self.now) g backup sector a → Shows (crew_of L.geometry self.now) (OnBody Read backup a) a (S.meaning shelf.new) (λ m. rebuilt g m backup group sector) result }
    {
        match self.fold_others(shelf, layout, group, sector, zeros())? {
            Some(content) => self.fold_held(shelf, layout.parity(group), content),
            None => Err(Refusal::MembersLost.into()),
        }
    }

    // A content with all peers of a sector folded into it; None where one cannot be read.
    fn fold_others<S: Shelf>(
        &self,
        shelf: &mut S,
        layout: &L,
        group: u64,
        sector: u64,
        content: Sector,
    ) -> Result<Option<Sector>, Refused>
        ensures may { May nothing (S.meaning shelf.old) (S.meaning shelf.new) }
        ensures folds { let a = S.meaning shelf.old in let backup = self.now.head.backup in HasGroup (L.geometry layout.now) backup group a → Stage (crew_of L.geometry self.now) nothing (OnBody Read backup a) a (S.meaning shelf.new) (λ found. FoldsOthers (L.geometry layout.now) backup group sector (S.meaning shelf.new) content found) result }
    {
        let mut folded = content;
        for index in 0..layout.peers(group) {
            let peer = layout.peer(group, index);
            if peer == sector {
                continue;
            }
            let Some(read) = self.read_place(shelf, layout.place(peer, 0))? else {
                return Ok(None);
            };
            fold(&mut folded, &read);
        }
        Ok(Some(folded))
    }

    // What lies at a place; None where its member is not present.
    fn read_place<S: Shelf>(&self, shelf: &mut S, place: Place) -> Result<Option<Sector>, Refused>
        ensures stage { let a = S.meaning shelf.old in let backup = self.now.head.backup in Stage (crew_of L.geometry self.now) nothing (OnBody Read backup a) a (S.meaning shelf.new) (λ found. ReadPlace backup place (S.meaning shelf.new) found) result }
        ensures others { Others place.0 (S.meaning shelf.old) (S.meaning shelf.new) }
    {
        let (member, offset) = place;
        self.read_at(shelf, member, self.body().saturating_add(offset))
    }

    // The same, where the call cannot do without it.
    fn place_held<S: Shelf>(&self, shelf: &mut S, place: Place) -> Result<Sector, Refused>
        ensures may { May nothing (S.meaning shelf.old) (S.meaning shelf.new) }
        ensures held { let a = S.meaning shelf.old in let backup = self.now.head.backup in Sure (crew_of L.geometry self.now) place.0 a → Stage (crew_of L.geometry self.now) nothing (OnBody Read backup a) a (S.meaning shelf.new) (λ x. Lies backup place (S.meaning shelf.new) x) result }
    {
        match self.read_place(shelf, place)? {
            Some(content) => Ok(content),
            None => Err(Refusal::MembersLost.into()),
        }
    }

    // A content with what lies at a place folded into it.
    fn fold_held<S: Shelf>(
        &self,
        shelf: &mut S,
        place: Place,
        content: Sector,
    ) -> Result<Sector, Refused>
        ensures may { May nothing (S.meaning shelf.old) (S.meaning shelf.new) }
        ensures folds { let a = S.meaning shelf.old in let backup = self.now.head.backup in Sure (crew_of L.geometry self.now) place.0 a → Stage (crew_of L.geometry self.now) nothing (OnBody Read backup a) a (S.meaning shelf.new) (λ x. FoldsPlace backup place (S.meaning shelf.new) content x) result }
    {
        let mut folded = content;
        fold(&mut folded, &self.place_held(shelf, place)?);
        Ok(folded)
    }

    // The parity that a write of a sector makes of its home, or zeros where the home has none.
    pub fn parity_after<S: Shelf>(
        &self,
        shelf: &mut S,
        sector: u64,
        datum: &Sector,
    ) -> Result<Sector, Refused>
        ensures may { May nothing (S.meaning shelf.old) (S.meaning shelf.new) }
        ensures shows { let a = S.meaning shelf.old in let h = homes_of L.geometry self.now sector in HomeHas h (crew_of L.geometry self.now) (L.geometry self.now.source) (L.geometry self.now.target) self.now.head.backup sector a → ShowsParity h (crew_of L.geometry self.now) (L.geometry self.now.source) (L.geometry self.now.target) self.now.head.backup sector datum.now a (S.meaning shelf.new) result }
    {
        match self.home_layout(sector) {
            Some(layout) => self.parity_in(shelf, layout, sector, datum),
            None => Ok(zeros()),
        }
    }

    // The new parity comes from what this layout's places hold of the peers, which need not be what the peers' homes hold:
    // a source row whose first sectors have moved on keeps their old contents, and its parity has to be true to those.
    fn parity_in<S: Shelf>(
        &self,
        shelf: &mut S,
        layout: &L,
        sector: u64,
        datum: &Sector,
    ) -> Result<Sector, Refused>
        ensures may { May nothing (S.meaning shelf.old) (S.meaning shelf.new) }
        ensures shows { let a = S.meaning shelf.old in let backup = self.now.head.backup in HasSector (crew_of L.geometry self.now) (L.geometry layout.now) backup sector a → Shows (crew_of L.geometry self.now) (OnBody Read backup a) a (S.meaning shelf.new) (λ m. parity_with (L.geometry layout.now) m backup sector datum.now) result }
    {
        match layout.group(sector) {
            Some(group) => self.group_parity(shelf, layout, group, sector, datum),
            None => Ok(zeros()),
        }
    }

    // By the other peers where all are there, else by the change. A lost peer is seen before the others are read.
    fn group_parity<S: Shelf>(
        &self,
        shelf: &mut S,
        layout: &L,
        group: u64,
        sector: u64,
        datum: &Sector,
    ) -> Result<Sector, Refused>
        ensures may { May nothing (S.meaning shelf.old) (S.meaning shelf.new) }
        ensures shows { let a = S.meaning shelf.old in let backup = self.now.head.backup in let g = L.geometry layout.now in HasSector (crew_of L.geometry self.now) g backup sector a → 0 < g.groups → group ≡ g.group sector → Shows (crew_of L.geometry self.now) (OnBody Read backup a) a (S.meaning shelf.new) (λ m. parity_with g m backup sector datum.now) result }
    {
        if Self::has_lost_peer(shelf, layout, group, sector) {
            return self.parity_by_change(shelf, layout, group, sector, datum);
        }
        match self.fold_others(shelf, layout, group, sector, *datum)? {
            Some(parity) => Ok(parity),
            None => self.parity_by_change(shelf, layout, group, sector, datum),
        }
    }

    // Whether the member of another peer is known to be absent.
    fn has_lost_peer<S: Shelf>(shelf: &S, layout: &L, group: u64, sector: u64) -> bool
        ensures { let g = L.geometry layout.now in group < g.groups → result ≡ some (peer_gone g (S.meaning shelf.now) group sector) (g.peers group) }
    {
        for nth in 0..layout.peers(group) {
            let peer = layout.peer(group, nth);
            if peer != sector && !shelf.is_present(layout.place(peer, 0).0) {
                return true;
            }
        }
        false
    }

    // Where a peer is lost: the old parity with the old datum taken out and the new one put in.
    fn parity_by_change<S: Shelf>(
        &self,
        shelf: &mut S,
        layout: &L,
        group: u64,
        sector: u64,
        datum: &Sector,
    ) -> Result<Sector, Refused>
        ensures may { May nothing (S.meaning shelf.old) (S.meaning shelf.new) }
        ensures shows { let a = S.meaning shelf.old in let backup = self.now.head.backup in let g = L.geometry layout.now in LostPeer (crew_of L.geometry self.now) g backup sector a → group ≡ g.group sector → Shows (crew_of L.geometry self.now) (OnBody Read backup a) a (S.meaning shelf.new) (λ m. parity_with g m backup sector datum.now) result }
    {
        let parity = self.fold_held(shelf, layout.place(sector, 0), *datum)?;
        self.fold_held(shelf, layout.parity(group), parity)
    }
}
