// A volume under way, beside the flat disk that it is held to.
use crate::ledger::Ledger;
use crate::moves::{Ends, Move};
use crate::rig::{Loss, Rig, Trouble};
use crate::tally::{Finding, Tally, Wrong};
use answer::{Refusal, Refused};
use kinds::stock::Stock;
use layout::Layout;
use model::request::Request;
use model::told::Told;
use oracle::count::strays;
use oracle::fresh::misplaced;
use overlap::live_rows;
use sector::{SECTOR, Sector};
use std::alloc::{AllocError, Global};
use std::mem;
use volume::grant::Grant;
use volume::{Finished, Volume};

// what the buffer of a read holds before it
const UNREAD: Sector = [0xa5; SECTOR];

// What runs begin with: a move, what its shelf holds before, and a member that is lost at once.
#[derive(Clone, Copy)]
pub struct Stand<'a> {
    pub heap: Global,
    pub of: &'a Move,
    pub rubbish: &'a [u8],
    pub lost: Option<u64>,
}

// A run of calls. It holds a grant, which cannot be dropped, so it has to be ended.
pub struct Run<S> {
    heap: Global,
    pub of: Move,
    // those that the volume was opened with last
    pub ends: Ends,
    pub volume: Volume<S, Stock>,
    pub grant: Option<Grant>,
    pub ledger: Ledger,
    // of the latest write
    pub version: u64,
    pub trouble: Trouble,
    pub tally: Tally,
}

impl<S: Rig + Drop> Run<S> {
    // A new volume of zeros on a shelf of rubbish, which may lose a member while it is created.
    pub fn start(stand: &Stand) -> Result<Run<S>, AllocError> {
        let Stand {
            heap,
            of,
            rubbish,
            lost,
        } = *stand;
        let Ends { source, target } = of.ends;
        let bytes = Vec::from_slice(heap, rubbish)?;
        let mut shelf = S::over(heap, of.members, of.sectors(), bytes);
        if let Some(member) = lost {
            for control in shelf.arranged(heap, &Trouble::loss(Loss { at: 0, member }))? {
                let _ = shelf.control(control);
            }
        }
        let ledger = Ledger::created(heap, of.size as usize)?;
        let (volume, created) = Volume::create(shelf, source, target, of.backup, of.size);
        let mut run = Run {
            heap,
            of: *of,
            ends: of.ends,
            volume,
            grant: None,
            ledger,
            version: 0,
            trouble: Trouble::NONE,
            tally: Tally::one_run(),
        };
        if created.is_err() {
            run.find(Wrong::Stuck);
        }
        Ok(run)
    }

    // What it went through; a grant that is still held is handed back.
    pub fn end(self) -> Tally {
        let Run {
            heap: _,
            of: _,
            ends: _,
            mut volume,
            grant,
            ledger: _,
            version: _,
            trouble: _,
            mut tally,
        } = self;
        tally.losses = absent(volume.shelf());
        if let Some(grant) = grant {
            let _ = volume.hand_back(grant);
        }
        tally
    }

    // How many members are lost.
    pub fn absent(&self) -> u64 {
        absent(self.volume.shelf())
    }

    // Has this happen from the next operation on, and nothing else.
    pub fn arrange(&mut self, trouble: &Trouble) -> Result<(), AllocError> {
        for control in self.volume.shelf().arranged(self.heap, trouble)? {
            // a member that the shelf has not cannot be lost
            let _ = self.volume.control(control);
        }
        Ok(())
    }

    // Asks one call of the volume and of the flat disk, and takes the stray count.
    pub fn ask(&mut self, request: &Request) -> Result<(), AllocError> {
        self.ask_uncounted(request)?;
        self.count();
        Ok(())
    }

    // The same without the stray count.
    pub fn ask_uncounted(&mut self, request: &Request) -> Result<(), AllocError> {
        self.tally.calls = self.tally.calls.saturating_add(1);
        let is_next = self.is_next(request);
        let answer = self.call(request);
        if is_next && answer.is_err_and(|refused| !lacks(refused)) {
            self.find(Wrong::Stuck);
        }
        self.follow(request, answer)
    }

    fn call(&mut self, request: &Request) -> Result<(), Refused> {
        match request {
            Request::Read(sector) => self.read(*sector),
            Request::Write(sector, content) => self.volume.write(*sector, content),
            Request::Begin => self.volume.begin().map(|_| ()),
            Request::Keep => self.volume.keep(),
            Request::Copy => self.copy(),
            Request::Settle(_) => match self.grant.take() {
                Some(grant) => self.volume.settle(grant),
                None => Err(Refusal::WrongGrant.into()),
            },
            Request::HandBack(_) => match self.grant.take() {
                Some(grant) => self.volume.hand_back(grant),
                None => Err(Refusal::WrongGrant.into()),
            },
            Request::Finish => self.finish(),
            Request::Open => self.open(),
        }
    }

    // Reads a sector; a refused read leaves the buffer.
    fn read(&mut self, sector: u64) -> Result<(), Refused> {
        let mut buffer = UNREAD;
        let answer = self.volume.read(sector, &mut buffer);
        let due = match answer {
            Ok(()) => self.ledger.disk().sector(sector),
            Err(_) => UNREAD,
        };
        if buffer != due {
            self.find(Wrong::Read(sector));
        }
        answer
    }

    // Takes the row in hand. A grant that was held until now can only be a stale one.
    fn copy(&mut self) -> Result<(), Refused> {
        let grant = self.volume.copy()?;
        if let Some(stale) = self.grant.replace(grant) {
            let _ = self.volume.hand_back(stale);
        }
        Ok(())
    }

    // A granted finish counts every target row, and no more source rows than are live.
    fn finish(&mut self) -> Result<(), Refused> {
        let Finished { rows, kept } = self.volume.finish()?;
        let disk = self.ledger.disk();
        let live = live_rows(&self.ends.source, disk.size());
        if rows != self.ends.target.rows()
            || (rows, kept) != (disk.settled(), disk.kept())
            || kept > live
        {
            self.find(Wrong::Counts);
        }
        Ok(())
    }

    // Opens with the layouts that the head names: those of before, or after a finish the target as the source.
    fn open(&mut self) -> Result<(), Refused> {
        self.tally.opens = self.tally.opens.saturating_add(1);
        let first = self.open_with(self.ends);
        match first {
            Err(refused) if refused.refusal == Refusal::LabelsDiffer => {
                self.ends = self.ends.turned();
                self.open_with(self.ends)
            }
            _ => first,
        }
    }

    // The shelf comes out of the volume itself, for which a shut one on an empty shelf stands in meanwhile.
    fn open_with(&mut self, ends: Ends) -> Result<(), Refused> {
        let Ends { source, target } = ends;
        let empty = S::over(self.heap, 0, 0, Vec::new(self.heap));
        let (shut, _) = Volume::open(empty, source, target);
        let shelf = mem::replace(&mut self.volume, shut).into_shelf();
        let (volume, opened) = Volume::open(shelf, source, target);
        self.volume = volume;
        opened
    }

    // What a call and its answer make of the flat disk.
    fn follow(&mut self, request: &Request, answer: Result<(), Refused>) -> Result<(), AllocError> {
        match answer {
            Ok(()) => self.follow_grant(request),
            Err(_) if matches!(request, Request::Open) => self.ledger.wait(),
            Err(Refused { fault: None, .. }) => self.ledger.refuse(request),
            Err(_) => self.ledger.tear(self.heap, request)?,
        }
        if answer.is_err_and(is_cut) {
            self.tally.cuts = self.tally.cuts.saturating_add(1);
        }
        Ok(())
    }

    fn follow_grant(&mut self, request: &Request) {
        self.ledger.grant(request);
        match request {
            Request::Open => self.choose(),
            Request::Finish => self.count_misplaced(),
            _ => {}
        }
    }

    // At a granted finish every used place is as in a fresh placement.
    fn count_misplaced(&mut self) {
        let (shelf, target) = (self.volume.shelf(), &self.ends.target);
        let misplaced = misplaced(shelf, target, self.of.backup, self.ledger.disk());
        if misplaced > 0 {
            self.find(Wrong::Misplaced(misplaced));
        }
    }

    fn choose(&mut self) {
        let told = self.told();
        let Ends { source, target } = self.ends;
        let backup = self.of.backup;
        let shelf = self.volume.shelf();
        self.ledger.choose(shelf, &source, &target, backup, &told);
    }

    // What the volume tells of itself.
    fn told(&self) -> Told {
        let volume = &self.volume;
        Told {
            size: volume.size(),
            phase: volume.phase(),
            settled: volume.settled(),
            kept: volume.kept(),
            hand: volume.hand(),
        }
    }

    // Takes the stray count, where it is to be taken.
    fn count(&mut self) {
        if self.ledger.is_torn() {
            return;
        }
        let told = self.told();
        let Ends { source, target } = self.ends;
        let backup = self.of.backup;
        let shelf = self.volume.shelf();
        let disk = self.ledger.disk();
        let found = strays(shelf, &source, &target, backup, &told, disk).unwrap_or(1);
        if found > 0 {
            self.find(Wrong::Strays(found));
        }
    }

    pub fn find(&mut self, wrong: Wrong) {
        let call = self.tally.calls;
        let trouble = self.trouble;
        self.tally.find(Finding {
            call,
            trouble,
            wrong,
        });
    }
}

// How many members of a shelf are absent.
fn absent<S: Rig>(shelf: &S) -> u64 {
    (0..shelf.members())
        .filter(|member| !shelf.is_present(*member))
        .count() as u64
}

// Whether a call met the end of power.
fn is_cut(refused: Refused) -> bool {
    refused.refusal == Refusal::PowerLost && refused.fault.is_some()
}

// Whether power, members or numbers lacked.
fn lacks(refused: Refused) -> bool {
    matches!(
        refused.refusal,
        Refusal::MembersLost | Refusal::PowerLost | Refusal::NumbersSpent
    )
}
