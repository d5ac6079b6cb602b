// The trial shelf: keeps what is durable apart from what is current, and loses power and members where it is told to.
ghost use Rattle.std.specs.Prelude.{◌≡◌, ◌*◌, ◌≤◌, length, IfOk};
ghost use Rattle.shelf.specs.Fuses.{ControlsStand};
ghost use Rattle.shelf.specs.Meaning.{Flushed, Reads, Restarts, Writes};
ghost use Rattle.shelf.specs.Runs.{BlankOf, FitsRun};
ghost use Rattle.shelf.specs.Trials.{Loses, ControlSet, TrialFlushes, TrialMade, TrialReads, TrialRestarts, TrialWrites, controlled, new_controls, means, with_choice, with_fuse};
ghost use Rattle.std.proofs.Common.{rules, arith};
ghost use Rattle.sector.specs.declared.TheConstants.{SECTOR};
ghost use Rattle.sector.specs.declared.limits.TheConstants.{MOST_MEMBERS};

use crate::controlled::Controlled;
use crate::controls::Controls;
pub use crate::controls::NEVER;
use crate::image::Image;
use crate::images::Images;
use crate::{Answer, Failure, MOST_SECTORS, Shelf};
use answer::Refusal;
use sector::Sector;
use std::alloc::{AllocError, Global};
use std::marker::Model;

// When the power goes, in operations from now, and which of the sectors that are not durable survive then, by their places modulo 32.
#[derive(Clone, Copy, PartialEq, Eq, Debug)]
pub struct Cut {
    pub fuse: u32,
    pub choice: u32,
}

// One of its controls.
#[derive(Clone, Copy, PartialEq, Eq, Debug)]
pub enum Control {
    // in so many operations more the power goes
    Fuse(u32),
    // a restart takes what is current where the word has a 1, by a sector's place modulo 32
    Choice(u32),
    // both of these
    Cut(Cut),
    // the member is found absent at its next operation
    Loss(u64),
}

// The durable image and the current one, and what is to happen to them.
#[derive(Drop)]
pub struct TrialShelf {
    images: Images<2>,
    controls: Controls,
}

// Clauses see the members, the sectors of each, the run of bytes with both images, and the controls.
impl Model for TrialShelf {
    ghost use Rattle.shelf.specs.Trials.{Trial, trial_of};

    ghost Value = { Trial };

    ghost view = { λ t. trial_of t.images.extent.members t.images.extent.sectors t.images.bytes.items t.controls };
}

impl TrialShelf {
    // Whether a shelf can be made over a run of so many bytes.
    pub fn fits(members: u64, sectors: u64, bytes: usize) -> Result<(), Refusal>
        ensures { FitsRun members sectors 2 bytes result }
    {
        Images::<2>::fits(members, sectors, bytes)
    }

    // A shelf over a run of bytes, both images in it; where they do not fit, one of 2 members without sectors.
    pub fn new(members: u64, sectors: u64, bytes: Vec<u8>) -> TrialShelf
        ensures { TrialMade members sectors bytes.items result }
    {
        TrialShelf {
            images: Images::over(members, sectors, bytes),
            controls: Controls::NEW,
        }
    }

    // A shelf of zeros; where the limits are not kept, one of 2 members without sectors.
    pub fn blank(heap: Global, members: u64, sectors: u64) -> Result<TrialShelf, AllocError>
        ensures run { IfOk result (λ s. BlankOf members sectors 2 s.members s.sectors s.run) }
        ensures controls { IfOk result (λ s. s.controls ≡ new_controls) }
    {
        Ok(TrialShelf {
            images: Images::blank(heap, members, sectors)?,
            controls: Controls::NEW,
        })
    }

    // The run of bytes, both images, as the shelf left it.
    pub fn into_bytes(self) -> Vec<u8>
        ensures bytes { result.items ≡ self.run }
        ensures held { self.members * self.sectors * 2 * SECTOR ≤ length result.items }
    {
        let TrialShelf {
            images,
            controls: _,
        } = self;
        images.into_bytes()
    }

    // Sets when the power goes, and what the restart after it brings out.
    pub fn set_cut(&mut self, cut: Cut)
        ensures state { self.new ≡ controlled self.old (with_choice (with_fuse self.old.controls cut.fuse) cut.choice) }
        ensures meaning { means self.new ≡ means self.old }
    {
        self.set_fuse(cut.fuse);
        self.set_choice(cut.choice);
    }

    // Lets the power go after so many operations more.
    pub fn set_fuse(&mut self, fuse: u32)
        ensures state { self.new ≡ controlled self.old (with_fuse self.old.controls fuse) }
        ensures meaning { means self.new ≡ means self.old }
    {
        self.controls.fuse = fuse;
    }

    // Has a restart take what is current where the word has a 1, by a sector's place modulo 32.
    pub fn set_choice(&mut self, choice: u32)
        ensures state { self.new ≡ controlled self.old (with_choice self.old.controls choice) }
        ensures meaning { means self.new ≡ means self.old }
    {
        self.controls.choice = choice;
    }

    // Has the member be found absent at its next operation.
    pub fn lose(&mut self, member: u64) -> Result<(), Refusal>
        ensures state { Loses member self.old self.new result }
        ensures meaning { means self.new ≡ means self.old }
    {
        if member >= self.images.extent.members {
            return Err(Refusal::OutOfLimits);
        }
        self.controls.losing[member as usize] = true;
        Ok(())
    }

    pub fn fuse(&self) -> u32
        ensures { result ≡ self.now.controls.fuse }
    {
        self.controls.fuse
    }

    pub fn choice(&self) -> u32
        ensures { result ≡ self.now.controls.choice }
    {
        self.controls.choice
    }
}

impl Shelf for TrialShelf {
    ghost meaning = { means };

    ghost inside = { first_of (Prim.search rules, Prim.grind (arith, Self.row.coded.inj)) };

    fn members(&self) -> u64
        ensures members { result ≡ self.now.members }
        ensures few { result ≤ MOST_MEMBERS }
    {
        self.images.extent.members
    }

    fn sectors(&self) -> u64
        ensures sectors { result ≡ self.now.sectors }
        ensures short { result ≤ MOST_SECTORS }
    {
        self.images.extent.sectors
    }

    fn is_on(&self) -> bool {
        self.controls.on
    }

    fn is_present(&self, member: u64) -> bool {
        member < self.images.extent.members && self.controls.present[member as usize]
    }

    fn read(&mut self, member: u64, sector: u64, buffer: &mut [u8]) -> Answer
        ensures reads { Reads member sector buffer.old buffer.new (means self.old) (means self.new) result }
        ensures exact { TrialReads member sector buffer.old buffer.new self.old self.new result }
    {
        let at = self.images.cell(member, sector, buffer.len())?;
        self.controls.strike(member)?;
        buffer.copy_from_slice(self.images.sector_at(self.images.extent.image() + at));
        Ok(())
    }

    // At the end of the fuse the write still reaches the current image.
    fn write(&mut self, member: u64, sector: u64, buffer: &[u8]) -> Answer
        ensures writes { Writes member sector buffer.now (means self.old) (means self.new) result }
        ensures exact { TrialWrites member sector buffer.now self.old self.new result }
    {
        let at = self.images.cell(member, sector, buffer.len())?;
        let was_on = self.controls.on;
        let answer = self.controls.strike(member);
        if was_on && self.controls.present[member as usize] {
            let image = self.images.extent.image();
            self.images.store(image + at, buffer.try_into().unwrap());
        }
        answer
    }

    fn flush(&mut self, member: u64) -> Answer
        ensures flushed { Flushed member (means self.old) (means self.new) result }
        ensures exact { TrialFlushes member self.old self.new result }
    {
        if member >= self.images.extent.members {
            return Err(Failure::OutOfRange);
        }
        self.controls.strike(member)?;
        self.images.persist(member);
        Ok(())
    }

    fn restart(&mut self) -> bool
        ensures restarts { Restarts (means self.old) (means self.new) result }
        ensures exact { TrialRestarts self.old self.new result }
    {
        self.images.bring_out(&self.controls);
        self.controls.fuse = NEVER;
        self.controls.on = true;
        true
    }
}

impl Image for TrialShelf {
    fn current(&self, member: u64, sector: u64) -> Option<Sector> {
        self.images.current(member, sector)
    }
}

impl Controlled for TrialShelf {
    type Control = Control;

    ghost sets = { ControlSet };

    fn control(&mut self, control: Control) -> Result<(), Refusal> {
        match control {
            Control::Fuse(fuse) => self.set_fuse(fuse),
            Control::Choice(choice) => self.set_choice(choice),
            Control::Cut(cut) => self.set_cut(cut),
            Control::Loss(member) => return self.lose(member),
        }
        Ok(())
    }
}

// With fuse k, k operations pass and the next one is cut; and a loss shows at its member's next operation.
pub fn controls_stand()
    ensures { ControlsStand }
{}
