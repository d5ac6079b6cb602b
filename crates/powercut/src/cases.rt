// One run of a list of calls, with trouble in one of them and in the opens after it.
use crate::rig::{Loss, Rig, Trouble};
use crate::run::{Run, Stand};
use crate::tally::Tally;
use crate::turns::Turn;
use drill::DrillShelf;
use layout::Layout;
use model::phase::Phase;
use model::request::Request;
use std::alloc::AllocError;

// How a run goes on after its trouble.
#[derive(Clone, Copy)]
pub enum Sequel {
    // to the end of the list and of the move, and then it loses this member
    Ends(u64),
    // it loses this member at once, and no more is asked than shows it
    Loses(u64),
}

// What a run begins with, a list of calls, and what goes wrong in one of them.
#[derive(Clone, Copy)]
pub struct Case<'a> {
    pub stand: Stand<'a>,
    pub turns: &'a [Turn],
    // the troubled call
    pub at: usize,
    pub trouble: Trouble,
    // in the opens after it, one after the other
    pub opens: [Option<Trouble>; 2],
    pub sequel: Sequel,
}

// How many operations the troubled call took, and the open after it, where there was one.
#[derive(Clone, Copy, Default)]
pub struct Operations {
    pub call: u64,
    pub open: u64,
}

// more calls than any move takes here
const ENOUGH: u64 = 200;

// calls that are asked of a volume that has lost too many members
const LOST: usize = 4;

impl<'a> Case<'a> {
    // Goes through it on a shelf of this kind.
    pub fn play<S: Rig + Drop>(&self) -> Result<Tally, AllocError> {
        let mut run = Run::<S>::start(&self.stand)?;
        let played = self.go(&mut run);
        let tally = run.end();
        played?;
        Ok(tally)
    }

    // Goes through the list with no trouble.
    pub fn play_plain<S: Rig + Drop>(&self) -> Result<Tally, AllocError> {
        let mut run = Run::<S>::start(&self.stand)?;
        let played = run.go_on(self.turns).and_then(|()| run.go_to_end());
        let tally = run.end();
        played?;
        Ok(tally)
    }

    // Counts the operations of the troubled call, and of the open after it.
    pub fn operations(&self) -> Result<Operations, AllocError> {
        let mut run = Run::<DrillShelf>::start(&self.stand)?;
        let counted = self.clock(&mut run);
        let _ = run.end();
        counted
    }

    fn clock(&self, run: &mut Run<DrillShelf>) -> Result<Operations, AllocError> {
        let Some(turn) = self.go_to_trouble(run)? else {
            return Ok(Operations::default());
        };
        let before = run.volume.shelf().clock();
        run.take(turn)?;
        let after = run.volume.shelf().clock();
        self.recover(run)?;
        let opened = run.volume.shelf().clock();
        Ok(Operations {
            call: after.saturating_sub(before),
            open: opened.saturating_sub(after),
        })
    }

    // Takes the turns before the troubled one, which it answers, with its trouble arranged.
    fn go_to_trouble<S: Rig + Drop>(&self, run: &mut Run<S>) -> Result<Option<Turn>, AllocError> {
        for turn in self.turns.iter().take(self.at) {
            run.repeat(*turn)?;
        }
        run.trouble = self.trouble;
        run.arrange(&self.trouble)?;
        Ok(self.turns.get(self.at).copied())
    }

    fn go<S: Rig + Drop>(&self, run: &mut Run<S>) -> Result<(), AllocError> {
        if let Some(turn) = self.go_to_trouble(run)? {
            run.take(turn)?;
        }
        self.recover(run)?;
        let rest = self.turns.get(self.at.saturating_add(1)..).unwrap_or(&[]);
        if run.ledger.is_torn() {
            return run.go_on(rest.get(..LOST).unwrap_or(rest));
        }
        match self.sequel {
            Sequel::Ends(member) => {
                run.go_on(rest)?;
                run.go_to_end()?;
                run.lose(member)
            }
            Sequel::Loses(member) => run.lose(member),
        }
    }

    // Opens the volume, with the trouble for that, and then without any.
    fn recover<S: Rig + Drop>(&self, run: &mut Run<S>) -> Result<(), AllocError> {
        for trouble in self.opens.iter().flatten() {
            run.arrange(trouble)?;
            run.reopen()?;
        }
        run.arrange(&Trouble::NONE)?;
        run.reopen()
    }
}

impl<S: Rig + Drop> Run<S> {
    // Opens the volume, where the count waits for that.
    fn reopen(&mut self) -> Result<(), AllocError> {
        if self.ledger.is_torn() {
            self.ask(&Request::Open)?;
        }
        Ok(())
    }

    fn go_on(&mut self, turns: &[Turn]) -> Result<(), AllocError> {
        for turn in turns {
            self.take(*turn)?;
        }
        Ok(())
    }

    // To the end of the move.
    fn go_to_end(&mut self) -> Result<(), AllocError> {
        for _ in 0..ENOUGH {
            if self.due().is_none() || self.ledger.is_torn() {
                break;
            }
            self.take(Turn::Due)?;
        }
        Ok(())
    }

    // Loses a member, where the layouts in force bear that, and opens, so that it shows; then reads a sector.
    fn lose(&mut self, member: u64) -> Result<(), AllocError> {
        if self.ledger.is_torn() || !self.bears_loss() {
            return Ok(());
        }
        self.arrange(&Trouble::loss(Loss { at: 0, member }))?;
        self.ask(&Request::Open)?;
        self.ask(&Request::Read(member))
    }

    // Whether the layouts in force bear one loss more, wherever the lost members are.
    fn bears_loss(&self) -> bool {
        let lost = self.absent();
        let (source, target) = (
            self.ends.source.loss() > lost,
            self.ends.target.loss() > lost,
        );
        match self.ledger.disk().phase() {
            Phase::Before => source,
            Phase::Moving => source && target,
            Phase::After => target,
            Phase::Shut(_) => false,
        }
    }
}
