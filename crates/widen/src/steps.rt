// The steps of a move, with writes into every kind of home between them.
use crate::tour::{Tour, tell};
use answer::{Refusal, Refused};
use layout::Layout;
use shelf::Shelf;
use volume::Finished;
use volume::grant::Grant;

// the ends of the settled and of the kept rows, in sectors
#[derive(Clone, Copy)]
struct Ends {
    settled: u64,
    kept: u64,
}

// a write that was tried while a row was in hand
#[derive(Clone, Copy)]
struct Probe {
    sector: u64,
    result: Result<(), Refused>,
}

impl<S: Shelf> Tour<S> {
    // Begins the move and tells the distance.
    pub fn begin(&mut self, rt: &HostRuntime) -> anyhow::Result<()> {
        match self.volume.begin() {
            Ok(distance) => println!(rt; "begin: 0, distance {distance}")?,
            Err(refused) => println!(rt; "begin: {refused}")?,
        }
        Ok(())
    }

    // Where the settled rows end, and the kept ones.
    fn ends(&self) -> Ends {
        let settled = self
            .volume
            .settled()
            .saturating_mul(self.plan.target.row_len());
        let kept = self
            .volume
            .kept()
            .saturating_mul(self.plan.source.row_len());
        let size = self.volume.size();
        Ends {
            settled: settled.min(size),
            kept: kept.min(size),
        }
    }

    // Writes a sector of a settled row, a kept one and one that is still in the source, where there are such.
    pub fn write_around(&mut self, rt: &HostRuntime) -> anyhow::Result<()> {
        let Ends { settled, kept } = self.ends();
        if let Some(last) = settled.checked_sub(1) {
            self.write(rt, last, "settled row")?;
        }
        if settled < kept {
            self.write(rt, settled, "kept")?;
        }
        let rest = settled.max(kept);
        if rest < self.volume.size() {
            self.write(rt, rest, "source")?;
        }
        Ok(())
    }

    // One step of the move: copies and settles the next row, or keeps a source row that it needs, or finishes. False once finished.
    pub fn step(&mut self, rt: &HostRuntime) -> anyhow::Result<bool> {
        match self.volume.copy() {
            Ok(grant) => {
                self.settle_row(rt, grant)?;
                Ok(true)
            }
            Err(refused) => match refused.refusal {
                Refusal::NeedNotKept => self.keep(rt),
                Refusal::AllSettled => {
                    self.finish(rt)?;
                    Ok(false)
                }
                _ => {
                    println!(rt; "copy: {refused}")?;
                    Ok(false)
                }
            },
        }
    }

    // Keeps the next source row. Whether it was kept.
    pub fn keep(&mut self, rt: &HostRuntime) -> anyhow::Result<bool> {
        let result = self.volume.keep();
        let kept = self.volume.kept();
        tell(rt, format_args!("keep, rows kept {kept}"), result)?;
        Ok(result.is_ok())
    }

    // With the row in hand, tries to write into it, and into a sector past it; then settles it.
    fn settle_row(&mut self, rt: &HostRuntime, grant: Grant) -> anyhow::Result<()> {
        let row = grant.row();
        let len = self.plan.target.row_len();
        let first = row.saturating_mul(len);
        let inside = self.probe(first);
        let past = self.probe(first.saturating_add(len));
        let result = self.volume.settle(grant);
        println!(rt; "copy: 0, row {row} in hand")?;
        self.tell_probe(rt, inside, "row in hand")?;
        self.tell_probe(rt, past, "past the row in hand")?;
        let settled = self.volume.settled();
        tell(rt, format_args!("settle, rows settled {settled}"), result)
    }

    // Tries to write a sector, if the volume has it.
    fn probe(&mut self, sector: u64) -> Option<Probe> {
        (sector < self.volume.size()).then(|| Probe {
            sector,
            result: self.attempt(sector),
        })
    }

    fn tell_probe(
        &self,
        rt: &HostRuntime,
        probe: Option<Probe>,
        place: &str,
    ) -> anyhow::Result<()> {
        let Some(Probe { sector, result }) = probe else {
            return Ok(());
        };
        self.tell_write(rt, sector, place, result)
    }

    fn finish(&mut self, rt: &HostRuntime) -> anyhow::Result<()> {
        match self.volume.finish() {
            Ok(Finished { rows, kept }) => {
                println!(rt; "finish: 0, rows settled {rows}, rows kept {kept}")?
            }
            Err(refused) => println!(rt; "finish: {refused}")?,
        }
        Ok(())
    }

    // Goes on with the move to its end, or for so many steps.
    pub fn go_on(&mut self, rt: &HostRuntime, steps: u64) -> anyhow::Result<()> {
        for _ in 0..steps {
            self.write_around(rt)?;
            if !self.step(rt)? {
                break;
            }
        }
        Ok(())
    }
}
