// What was gone through, and what was found.
use crate::rig::{Cut, Side, Trouble};
use std::fmt;
use std::ops::Add;

// A way in which a volume does not keep to the flat disk.
#[derive(Clone, Copy)]
pub enum Wrong {
    // the stray count
    Strays(u64),
    // a granted read gave another sector, or a refused one touched its buffer
    Read(u64),
    // places that are not those of a fresh placement, at a finish
    Misplaced(u64),
    // a finish answered other counts than the rows settled and kept
    Counts,
    // a move with everything that it needs did not grant the call that is due
    Stuck,
}

// Something that was found wrong: after which call of its run, and the trouble in that run.
#[derive(Clone, Copy)]
pub struct Finding {
    pub call: u64,
    pub trouble: Trouble,
    pub wrong: Wrong,
}

#[derive(Clone, Copy, Default)]
pub struct Tally {
    pub runs: u64,
    pub calls: u64,
    pub cuts: u64,
    pub losses: u64,
    pub opens: u64,
    pub strays: u64,
    // found wrong otherwise
    pub others: u64,
    pub first: Option<Finding>,
}

impl Tally {
    // Of a run that has only begun.
    pub fn one_run() -> Tally {
        Tally {
            runs: 1,
            ..Tally::default()
        }
    }

    pub fn is_clean(&self) -> bool {
        self.strays == 0 && self.others == 0
    }

    pub fn find(&mut self, finding: Finding) {
        match finding.wrong {
            Wrong::Strays(count) => self.strays = self.strays.saturating_add(count),
            _ => self.others = self.others.saturating_add(1),
        }
        self.first = self.first.or(Some(finding));
    }
}

impl Add for Tally {
    type Output = Tally;

    fn add(self, other: Tally) -> Tally {
        Tally {
            runs: self.runs.saturating_add(other.runs),
            calls: self.calls.saturating_add(other.calls),
            cuts: self.cuts.saturating_add(other.cuts),
            losses: self.losses.saturating_add(other.losses),
            opens: self.opens.saturating_add(other.opens),
            strays: self.strays.saturating_add(other.strays),
            others: self.others.saturating_add(other.others),
            first: self.first.or(other.first),
        }
    }
}

impl fmt::Display for Tally {
    fn fmt<W: fmt::Write>(&self, f: &mut fmt::Formatter<W>) -> fmt::Result {
        let Tally {
            runs,
            calls,
            cuts,
            losses,
            opens,
            strays,
            others,
            ..
        } = *self;
        write!(
            f,
            "{runs} runs, {calls} calls, {cuts} cuts, {losses} losses, {opens} opens: {strays} strays"
        )?;
        if others > 0 {
            write!(f, ", {others} other wrongs")?;
        }
        Ok(())
    }
}

impl fmt::Display for Wrong {
    fn fmt<W: fmt::Write>(&self, f: &mut fmt::Formatter<W>) -> fmt::Result {
        match *self {
            Wrong::Strays(count) => write!(f, "{count} strays"),
            Wrong::Read(sector) => write!(f, "a wrong read of sector {sector}"),
            Wrong::Misplaced(count) => write!(f, "{count} misplaced"),
            Wrong::Counts => f.write_str("wrong counts at finish"),
            Wrong::Stuck => f.write_str("a move that does not go on"),
        }
    }
}

impl fmt::Display for Trouble {
    fn fmt<W: fmt::Write>(&self, f: &mut fmt::Formatter<W>) -> fmt::Result {
        for loss in self.losses.iter().flatten() {
            write!(f, ", member {} lost at operation {}", loss.member, loss.at)?;
        }
        let Some(Cut { at, side, choice }) = self.cut else {
            return Ok(());
        };
        let side = match side {
            Side::Before => "before",
            Side::After => "after",
        };
        write!(f, ", power cut {side} operation {at}, choice {choice:x}")
    }
}

impl fmt::Display for Finding {
    fn fmt<W: fmt::Write>(&self, f: &mut fmt::Formatter<W>) -> fmt::Result {
        let Finding {
            call,
            trouble,
            wrong,
        } = *self;
        write!(f, "{wrong} after call {call}{trouble}")
    }
}
