// The plain shelf: a run of bytes that persists each write, stays on and loses no member.
ghost use Rattle.std.specs.Prelude.{◌≡◌, ◌*◌, ◌≤◌, length, IfOk};
ghost use Rattle.shelf.specs.Meaning.{Flushed, Reads, Restarts, Writes};
ghost use Rattle.shelf.specs.Plains.{PlainFlushes, PlainMade, PlainReads, PlainRestarts, PlainWrites, Steady, plain_means};
ghost use Rattle.shelf.specs.Runs.{BlankOf, FitsRun};
ghost use Rattle.std.proofs.Common.{rules, arith};
ghost use Rattle.sector.specs.declared.TheConstants.{SECTOR};
ghost use Rattle.sector.specs.declared.limits.TheConstants.{MOST_MEMBERS};

use crate::image::Image;
use crate::images::Images;
use crate::{Answer, Failure, MOST_SECTORS, Shelf};
use answer::Refusal;
use sector::Sector;
use std::alloc::{AllocError, Global};
use std::marker::Model;

// One image of its sectors.
#[derive(Drop)]
pub struct PlainShelf {
    images: Images<1>,
}

// Clauses see the members, the sectors of each, and the run of bytes.
impl Model for PlainShelf {
    ghost use Rattle.shelf.specs.Plains.{Plain, plain_of};

    ghost Value = { Plain };

    ghost view = { λ s. plain_of s.images.extent.members s.images.extent.sectors s.images.bytes.items };
}

impl PlainShelf {
    // Whether a shelf can be made over a run of so many bytes.
    pub fn fits(members: u64, sectors: u64, bytes: usize) -> Result<(), Refusal>
        ensures { FitsRun members sectors 1 bytes result }
    {
        Images::<1>::fits(members, sectors, bytes)
    }

    // A shelf over a run of bytes; where they do not fit, one of 2 members without sectors.
    pub fn new(members: u64, sectors: u64, bytes: Vec<u8>) -> PlainShelf
        ensures { PlainMade members sectors bytes.items result }
    {
        PlainShelf {
            images: Images::over(members, sectors, bytes),
        }
    }

    // A shelf of zeros; where the limits are not kept, one of 2 members without sectors.
    pub fn blank(heap: Global, members: u64, sectors: u64) -> Result<PlainShelf, AllocError>
        ensures { IfOk result (λ s. BlankOf members sectors 1 s.members s.sectors s.run) }
    {
        Ok(PlainShelf {
            images: Images::blank(heap, members, sectors)?,
        })
    }

    // The run of bytes, as the shelf left it.
    pub fn into_bytes(self) -> Vec<u8>
        ensures bytes { result.items ≡ self.run }
        ensures held { self.members * self.sectors * SECTOR ≤ length result.items }
    {
        let PlainShelf { images } = self;
        images.into_bytes()
    }
}

impl Shelf for PlainShelf {
    ghost meaning = { plain_means };

    ghost inside = { first_of (Prim.search rules, Prim.grind (arith, Self.row.coded.inj)) };

    fn members(&self) -> u64
        ensures members { result ≡ self.now.members }
        ensures few { result ≤ MOST_MEMBERS }
    {
        self.images.extent.members
    }

    fn sectors(&self) -> u64
        ensures sectors { result ≡ self.now.sectors }
        ensures short { result ≤ MOST_SECTORS }
    {
        self.images.extent.sectors
    }

    fn is_on(&self) -> bool {
        true
    }

    fn is_present(&self, member: u64) -> bool {
        member < self.images.extent.members
    }

    fn read(&mut self, member: u64, sector: u64, buffer: &mut [u8]) -> Answer
        ensures reads { Reads member sector buffer.old buffer.new (plain_means self.old) (plain_means self.new) result }
        ensures exact { PlainReads member sector buffer.old buffer.new self.old self.new result }
        ensures steady { Steady (plain_means self.old) (plain_means self.new) }
    {
        let at = self.images.cell(member, sector, buffer.len())?;
        buffer.copy_from_slice(self.images.sector_at(at));
        Ok(())
    }

    fn write(&mut self, member: u64, sector: u64, buffer: &[u8]) -> Answer
        ensures writes { Writes member sector buffer.now (plain_means self.old) (plain_means self.new) result }
        ensures exact { PlainWrites member sector buffer.now self.old self.new result }
        ensures steady { Steady (plain_means self.old) (plain_means self.new) }
    {
        let at = self.images.cell(member, sector, buffer.len())?;
        self.images.store(at, buffer.try_into().unwrap());
        Ok(())
    }

    fn flush(&mut self, member: u64) -> Answer
        ensures flushed { Flushed member (plain_means self.old) (plain_means self.new) result }
        ensures exact { PlainFlushes member self.old self.new result }
        ensures steady { Steady (plain_means self.old) (plain_means self.new) }
    {
        if member < self.images.extent.members {
            Ok(())
        } else {
            Err(Failure::OutOfRange)
        }
    }

    // Nothing was lost, so there is nothing to bring out.
    fn restart(&mut self) -> bool
        ensures restarts { Restarts (plain_means self.old) (plain_means self.new) result }
        ensures exact { PlainRestarts self.old self.new result }
        ensures steady { Steady (plain_means self.old) (plain_means self.new) }
    {
        self.is_on()
    }
}

impl Image for PlainShelf {
    fn current(&self, member: u64, sector: u64) -> Option<Sector> {
        self.images.current(member, sector)
    }
}
