// Images of a shelf's sectors in one run of bytes.
ghost use Rattle.std.specs.Prelude.{◌≡◌, ◌+◌, ◌*◌, ◌<◌, ◌≤◌, length, vec_len, IfOk};
ghost use Rattle.shelf.specs.Runs.{BlankOf, Cell, FitsRun, InLastImage, MadeOf, Pulled, sector_at, sector_put};
ghost use Rattle.shelf.specs.Trials.{Brought, BroughtOne};
ghost use Rattle.sector.specs.declared.TheConstants.{SECTOR};
ghost use Rattle.sector.specs.declared.limits.TheConstants.{MOST_MEMBERS};

use crate::controls::Controls;
use crate::extent::Extent;
use crate::{Failure, run};
use answer::Refusal;
use sector::{SECTOR, Sector};
use std::alloc::{AllocError, Global};

// what a shelf has whose numbers do not fit
const NO_SECTORS: Extent = Extent {
    members: 2,
    sectors: 0,
};

// So many images, one after the other, in a run of bytes. A const parameter has no bound of its own, so what makes them asks that there
// are one or two.
#[derive(Drop)]
pub(crate) struct Images<const COUNT: u64> {
    pub(crate) extent: Extent,
    bytes: Vec<u8>,
    ghost some: { 1 ≤ COUNT },
    ghost two: { COUNT ≤ 2 },
    ghost held: { extent.members * extent.sectors * COUNT * SECTOR ≤ vec_len bytes },
}

impl<const COUNT: u64> Images<COUNT> {
    // Whether the images of such a shelf fill a run of so many bytes.
    pub(crate) fn fits(members: u64, sectors: u64, bytes: usize) -> Result<(), Refusal>
        requires { COUNT ≤ 2 }
        ensures { FitsRun members sectors COUNT bytes result }
    {
        Extent::of(members, sectors, COUNT, bytes).map(|_| ())
    }

    // The images of such a shelf; where the run does not fit, those of 2 members without sectors.
    pub(crate) fn over(members: u64, sectors: u64, bytes: Vec<u8>) -> Images<COUNT>
        requires { (1 ≤ COUNT) × (COUNT ≤ 2) }
        ensures made { MadeOf members sectors COUNT (vec_len bytes) result.extent.members result.extent.sectors }
        ensures bytes { result.bytes ≡ bytes }
    {
        let extent = Extent::of(members, sectors, COUNT, bytes.len()).unwrap_or(NO_SECTORS);
        Images { extent, bytes }
    }

    // The images of such a shelf with zeros in every sector.
    pub(crate) fn blank(
        heap: Global,
        members: u64,
        sectors: u64,
    ) -> Result<Images<COUNT>, AllocError>
        requires { (1 ≤ COUNT) × (COUNT ≤ 2) }
        ensures { IfOk result (λ i. BlankOf members sectors COUNT i.extent.members i.extent.sectors i.bytes.items) }
    {
        let extent = Extent::within(members, sectors).unwrap_or(NO_SECTORS);
        let bytes = vec![in heap; 0u8; extent.bytes(COUNT)]?;
        Ok(Images { extent, bytes })
    }

    pub(crate) fn into_bytes(self) -> Vec<u8>
        ensures { result ≡ self.entry.bytes }
    {
        let Images { extent: _, bytes } = self;
        bytes
    }

    // Where a sector lies in the first image, if it and a buffer of this length are in range.
    pub(crate) fn cell(&self, member: u64, sector: u64, length: usize) -> Result<usize, Failure>
        ensures cell { Cell self.now.extent.members self.now.extent.sectors member sector length result }
        ensures few { self.now.extent.members ≤ MOST_MEMBERS }
    {
        self.extent.cell(member, sector, length)
    }

    // Sector `at` of the run. It and `store` ask that the sector is one of the run: it is an argument, which no field can bound.
    pub(crate) fn sector_at(&self, at: usize) -> &Sector
        requires { at * SECTOR + SECTOR ≤ vec_len self.now.bytes }
        ensures { result.now ≡ sector_at self.now.bytes.items at }
    {
        run::sector_at(&self.bytes, at)
    }

    // What stands in a sector of the last image, if it is in range.
    pub(crate) fn current(&self, member: u64, sector: u64) -> Option<Sector>
        ensures { InLastImage self.now.extent.members self.now.extent.sectors COUNT self.now.bytes.items member sector result }
    {
        let cell = self.cell(member, sector, SECTOR).ok()?;
        let last = (COUNT as usize - 1) * self.extent.image();
        Some(*self.sector_at(last + cell))
    }

    // Copies a content into sector `at` of the run.
    pub(crate) fn store(&mut self, at: usize, content: &Sector)
        requires { at * SECTOR + SECTOR ≤ vec_len self.old.bytes }
        ensures extent { self.new.extent ≡ self.old.extent }
        ensures size { vec_len self.new.bytes ≡ vec_len self.old.bytes }
        ensures content { self.new.bytes.items ≡ sector_put self.old.bytes.items at content.now }
    {
        run::store(&mut self.bytes, at, content);
    }
}

// The durable image comes first, then the current one.
impl Images<2> {
    // Persists what is current in a member's sectors.
    pub(crate) fn persist(&mut self, member: u64)
        requires { member < self.old.extent.members }
        ensures extent { self.new.extent ≡ self.old.extent }
        ensures content { let a = self.old in Pulled (a.extent.members * a.extent.sectors) (member * a.extent.sectors) (member * a.extent.sectors + a.extent.sectors) a.bytes.items self.new.bytes.items }
    {
        run::pull(&mut self.bytes, self.extent.column(member));
    }

    // Makes one content of the two of each sector of the present members.
    pub(crate) fn bring_out(&mut self, controls: &Controls)
        ensures extent { self.new.extent ≡ self.old.extent }
        ensures content { let a = self.old in Brought a.extent.members a.extent.sectors controls.now a.extent.members a.bytes.items self.new.bytes.items }
    {
        for member in 0..self.extent.members {
            self.bring_out_member(controls, member);
        }
    }

    // The same of one member, if it is present.
    fn bring_out_member(&mut self, controls: &Controls, member: u64)
        requires { member < self.old.extent.members }
        ensures extent { self.new.extent ≡ self.old.extent }
        ensures content { let a = self.old in BroughtOne a.extent.members a.extent.sectors controls.now member a.bytes.items self.new.bytes.items }
    {
        if controls.present[member as usize] {
            run::choose(&mut self.bytes, controls.choice, self.extent.column(member));
        }
    }
}
