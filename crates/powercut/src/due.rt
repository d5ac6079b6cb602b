// What a turn of a list asks, where a run has come to.
use crate::pattern::pattern;
use crate::rig::Rig;
use crate::run::Run;
use crate::turns::{Turn, Which};
use layout::Layout;
use model::phase::Phase;
use model::request::Request;
use overlap::need;
use overlap::walk::Home;
use std::alloc::AllocError;
use std::ops::Range;

// The call by which a move with no row in hand goes on.
#[derive(Clone, Copy, PartialEq, Eq)]
enum Next {
    Keep,
    Copy,
    Finish,
}

impl Next {
    fn of(request: &Request) -> Option<Next> {
        match request {
            Request::Keep => Some(Next::Keep),
            Request::Copy => Some(Next::Copy),
            Request::Finish => Some(Next::Finish),
            _ => None,
        }
    }

    fn request(self) -> Request {
        match self {
            Next::Keep => Request::Keep,
            Next::Copy => Request::Copy,
            Next::Finish => Request::Finish,
        }
    }
}

impl<S: Rig + Drop> Run<S> {
    // Takes a turn; one that has nothing to be about is passed over.
    pub fn take(&mut self, turn: Turn) -> Result<(), AllocError> {
        match self.request(turn) {
            Some(request) => self.ask(&request),
            None => Ok(()),
        }
    }

    // Takes a turn that was counted in the run without trouble.
    pub fn repeat(&mut self, turn: Turn) -> Result<(), AllocError> {
        match self.request(turn) {
            Some(request) => self.ask_uncounted(&request),
            None => Ok(()),
        }
    }

    // Whether a call is the one by which the move goes on, so that it has to be granted.
    pub fn is_next(&self, request: &Request) -> bool {
        let next = self.next();
        !self.ledger.is_torn() && next.is_some() && next == Next::of(request)
    }

    // None where the disk is not moving, or has a row in hand.
    fn next(&self) -> Option<Next> {
        let disk = self.ledger.disk();
        let (source, target) = (&self.ends.source, &self.ends.target);
        match (disk.phase(), disk.hand()) {
            (Phase::Moving, None) if disk.settled() >= target.rows() => Some(Next::Finish),
            (Phase::Moving, None) => {
                let need = need(source, target, disk.size(), disk.settled());
                Some(if need <= disk.kept() {
                    Next::Copy
                } else {
                    Next::Keep
                })
            }
            _ => None,
        }
    }

    fn request(&mut self, turn: Turn) -> Option<Request> {
        match turn {
            Turn::Write(which) => self.write(which),
            Turn::Read(which) => self.sector(which).map(Request::Read),
            Turn::Begin => Some(Request::Begin),
            Turn::Keep => Some(Request::Keep),
            Turn::Copy => self.stale().or(Some(Request::Copy)),
            Turn::Settle => self.held().map(Request::Settle),
            Turn::HandBack => self.held().map(Request::HandBack),
            Turn::Finish => Some(Request::Finish),
            Turn::Open => Some(Request::Open),
            Turn::Due => self.stale().or(self.due()),
        }
    }

    // The row of the grant that is held.
    fn held(&self) -> Option<u64> {
        self.grant.as_ref().map(|grant| grant.row())
    }

    // A grant that is held with no row in hand goes back before another is taken.
    fn stale(&self) -> Option<Request> {
        match self.ledger.disk().hand() {
            Some(_) => None,
            None => self.held().map(Request::HandBack),
        }
    }

    // The call by which the run goes on; None where the move is over, and the volume opened with the target as its source.
    pub fn due(&self) -> Option<Request> {
        match (self.ledger.disk().phase(), self.held()) {
            (Phase::Moving, Some(row)) => Some(Request::Settle(row)),
            (Phase::Moving, None) => Some(self.next().map_or(Request::Open, |next| next.request())),
            (Phase::Before, _) => (self.ends == self.of.ends).then_some(Request::Begin),
            (Phase::After | Phase::Shut(_), _) => Some(Request::Open),
        }
    }

    // A write of the next version of a sector.
    fn write(&mut self, which: Which) -> Option<Request> {
        let sector = self.sector(which)?;
        self.version = self.version.wrapping_add(1);
        Some(Request::Write(sector, pattern(sector, self.version)))
    }

    fn sector(&self, which: Which) -> Option<u64> {
        match which {
            Which::Number(sector) => Some(sector),
            Which::First(home) => {
                let Range { start, end } = self.living(home);
                (start < end).then_some(start)
            }
            Which::Last(home) => {
                let Range { start, end } = self.living(home);
                end.checked_sub(1).filter(|last| start <= *last)
            }
        }
    }

    // The sectors that live in a home.
    fn living(&self, home: Home) -> Range<u64> {
        let disk = self.ledger.disk();
        let (settled, kept) = match disk.phase() {
            Phase::Before | Phase::Shut(_) => (0, 0),
            Phase::After => (disk.size(), 0),
            Phase::Moving => (
                disk.settled().saturating_mul(self.ends.target.row_len()),
                disk.kept().saturating_mul(self.ends.source.row_len()),
            ),
        };
        let settled = settled.min(disk.size());
        let kept = kept.min(disk.size()).max(settled);
        match home {
            Home::Target => 0..settled,
            Home::Backup => settled..kept,
            Home::Source => kept..disk.size(),
        }
    }
}
