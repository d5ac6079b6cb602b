// The flat disk: what a volume is to show, kept apart from any shelf.
ghost use Rattle.std.specs.Prelude.{◌≡◌, ◌+◌, ◌^◌, ◌<◌, replicate, IfOk};
ghost use Rattle.model.specs.Contents.{padded};
ghost use Rattle.sector.specs.declared.TheConstants.{SECTOR};
ghost use Rattle.model.specs.Disks.{SameDisk, created, granted, opened, refused, released, disk_written};
ghost use Rattle.oracle.specs.Showing.{shown};

use model::phase::Phase;
use model::request::Request;
use sector::{Sector, zeros};
use std::alloc::{AllocError, Global};

// The sectors, the phase, how far a move has come, and the row in hand.
#[derive(Drop)]
pub struct Disk {
    sectors: Vec<Sector>,
    phase: Phase,
    settled: u64,
    kept: u64,
    hand: Option<u64>,
}

impl Disk {
    // The disk of a volume that was just created.
    pub fn created(heap: Global, size: usize) -> Result<Disk, AllocError>
        ensures { IfOk result (λ d. SameDisk (created size) (shown d)) }
    {
        let sectors = blank(heap, size)?;
        Ok(Disk {
            sectors,
            phase: Phase::Before,
            settled: 0,
            kept: 0,
            hand: None,
        })
    }

    pub fn size(&self) -> u64
        ensures { result ≡ (shown self.now).size }
    {
        self.sectors.len() as u64
    }

    // What a sector is to show, and zeros from the size on.
    pub fn sector(&self, index: u64) -> Sector
        ensures { result ≡ padded (shown self.now).size (shown self.now).content index }
    {
        self.sectors
            .get(index as usize)
            .copied()
            .unwrap_or_else(zeros)
    }

    pub fn phase(&self) -> Phase
        ensures { result ≡ (shown self.now).phase }
    {
        self.phase
    }

    // The target rows that are settled.
    pub fn settled(&self) -> u64
        ensures { result ≡ (shown self.now).settled }
    {
        self.settled
    }

    // The source rows that are kept.
    pub fn kept(&self) -> u64
        ensures { result ≡ (shown self.now).kept }
    {
        self.kept
    }

    // The row in hand.
    pub fn hand(&self) -> Option<u64>
        ensures { result ≡ (shown self.now).hand }
    {
        self.hand
    }

    // The same disk once more. A derived clone could not be told which heap to take.
    pub fn copied(&self, heap: Global) -> Result<Disk, AllocError>
        ensures { IfOk result (λ d. SameDisk (shown self.now) (shown d)) }
    {
        let sectors = Vec::from_slice(heap, &self.sectors)?;
        Ok(Disk {
            sectors,
            phase: self.phase,
            settled: self.settled,
            kept: self.kept,
            hand: self.hand,
        })
    }

    // What a granted call makes of the disk. A match: the requests are the data that a run is made of.
    pub fn grant(&mut self, request: &Request)
        ensures { (shown self.old).settled + 1 < 2 ^ 64 → (shown self.old).kept + 1 < 2 ^ 64 → SameDisk (granted request.now (shown self.old)) (shown self.new) }
    {
        match *request {
            Request::Read(_) => {}
            Request::Write(sector, content) => self.put(sector, content),
            Request::Begin => (self.phase, self.settled, self.kept) = (Phase::Moving, 0, 0),
            Request::Keep => self.kept = self.kept.saturating_add(1),
            Request::Copy => self.hand = Some(self.settled),
            Request::Settle(_) => {
                self.settled = self.settled.saturating_add(1);
                self.hand = None;
            }
            Request::HandBack(_) => self.hand = None,
            Request::Finish => (self.phase, self.settled, self.kept) = (Phase::After, 0, 0),
            Request::Open => {
                self.phase = reopened(self.phase);
                self.hand = None;
            }
        }
    }

    // What a refused call makes of it: a grant of the row in hand is spent all the same. A match, as in `grant`.
    pub fn refuse(&mut self, request: &Request)
        ensures { SameDisk (refused request.now (shown self.old)) (shown self.new) }
    {
        match *request {
            Request::Settle(row) | Request::HandBack(row) => self.release(row),
            _ => {}
        }
    }

    fn release(&mut self, row: u64)
        ensures { SameDisk (released row (shown self.old)) (shown self.new) }
    {
        self.hand = self.hand.filter(|held| *held != row);
    }

    fn put(&mut self, index: u64, content: Sector)
        ensures { SameDisk (disk_written index content (shown self.old)) (shown self.new) }
    {
        if let Some(held) = self.sectors.get_mut(index as usize) {
            *held = content;
        }
    }
}

// A finished move ends when the volume is opened.
fn reopened(phase: Phase) -> Phase
    ensures { result ≡ opened phase }
{
    match phase {
        Phase::After => Phase::Before,
        other => other,
    }
}

// So many sectors of zeros.
fn blank(heap: Global, size: usize) -> Result<Vec<Sector>, AllocError>
    ensures { IfOk result (λ v. v.items ≡ replicate size (replicate SECTOR 0)) }
{
    vec![in heap; zeros(); size]
}
