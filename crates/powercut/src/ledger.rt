// The flat disks that a run is held to.
use kinds::stock::Stock;
use model::request::Request;
use model::told::Told;
use oracle::candidates::Candidates;
use oracle::disk::Disk;
use shelf::image::Image;
use std::alloc::{AllocError, Global};

// The disks that the volume may show, and whether the count waits for an open: from a call that met power or members lacking on, or a refused
// open.
#[derive(Drop)]
pub struct Ledger {
    candidates: Candidates,
    waits: bool,
}

impl Ledger {
    pub fn created(heap: Global, size: usize) -> Result<Ledger, AllocError> {
        Ok(Ledger {
            candidates: Candidates::created(heap, size)?,
            waits: false,
        })
    }

    // The disk that the run goes on from.
    pub fn disk(&self) -> &Disk {
        self.candidates.first()
    }

    pub fn is_torn(&self) -> bool {
        self.waits
    }

    pub fn grant(&mut self, request: &Request) {
        self.candidates.grant(request);
    }

    pub fn refuse(&mut self, request: &Request) {
        self.candidates.refuse(request);
    }

    pub fn wait(&mut self) {
        self.waits = true;
    }

    // A call may or may not have taken effect.
    pub fn tear(&mut self, heap: Global, request: &Request) -> Result<(), AllocError> {
        self.waits = true;
        self.candidates.tear(heap, request)
    }

    // An open was granted: the run goes on from the disk that the shelf shows, and the count is taken again.
    pub fn choose<S: Image>(
        &mut self,
        shelf: &S,
        source: &Stock,
        target: &Stock,
        backup: u32,
        told: &Told,
    ) {
        self.candidates.choose(shelf, source, target, backup, told);
        self.waits = false;
    }
}
