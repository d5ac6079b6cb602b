// The power goes in the middle of a call; then the volume is opened again, and what it shows is told.
use crate::tour::{Plan, Tour, tell};
use answer::Refused;
use anyhow::anyhow;
use layout::Layout;
use shelf::trial::{Control, Cut, TrialShelf};
use volume::Volume;

impl Tour<TrialShelf> {
    // Takes the shelf out of the volume and opens it again with the layouts that its head names.
    pub fn reopened(self, rt: &HostRuntime) -> anyhow::Result<Tour<TrialShelf>> {
        let shelf = self.volume.into_shelf();
        let (volume, result) = Volume::open(shelf, self.plan.source, self.plan.target);
        let settled = volume.settled();
        let kept = volume.kept();
        let tour = Tour { volume, ..self };
        tell(
            rt,
            format_args!("open, rows settled {settled}, rows kept {kept}"),
            result,
        )?;
        Ok(tour)
    }

    // After finish the target is the layout that the head names; the old source stands by as the next target.
    pub fn turned(self) -> Tour<TrialShelf> {
        let plan = Plan {
            source: self.plan.target,
            target: self.plan.source,
            ..self.plan
        };
        Tour { plan, ..self }
    }

    // Cuts the power in a write. The next open shows the sector as it was or as it was to be.
    pub fn cut_write(
        mut self,
        rt: &HostRuntime,
        sector: u64,
        cut: Cut,
    ) -> anyhow::Result<Tour<TrialShelf>> {
        let next = self.next_version();
        self.volume.control(Control::Cut(cut))?;
        let result = self.attempt(sector);
        tell(rt, format_args!("write {sector}, power cut"), result)?;
        let mut opened = self.reopened(rt)?;
        if opened.shows(sector, next) {
            opened.record(sector, next);
            println!(rt; "sector {sector} is as after the write")?;
        } else {
            println!(rt; "sector {sector} is as before the write")?;
        }
        opened.check(rt)?;
        Ok(opened)
    }

    // Copies the next row and hands it back. The tests have these two lines too: for them alone a crate would have to stand between.
    fn try_copy(&mut self) -> Result<(), Refused> {
        let grant = self.volume.copy()?;
        self.volume.hand_back(grant)
    }

    // Keeps source rows until the next target row may be copied.
    fn make_ready(&mut self, rt: &HostRuntime) -> anyhow::Result<()> {
        for _ in 0..self.plan.source.rows() {
            if self.try_copy().is_ok() {
                break;
            }
            self.keep(rt)?;
        }
        Ok(())
    }

    // Cuts the power in a copy. The row is not in hand after the next open.
    pub fn cut_copy(mut self, rt: &HostRuntime, cut: Cut) -> anyhow::Result<Tour<TrialShelf>> {
        self.make_ready(rt)?;
        self.volume.control(Control::Cut(cut))?;
        let result = self.try_copy();
        tell(rt, "copy, power cut", result)?;
        let mut opened = self.reopened(rt)?;
        opened.check(rt)?;
        Ok(opened)
    }

    // Cuts the power in a settle. After the next open the row is settled or it is not.
    pub fn cut_settle(mut self, rt: &HostRuntime, cut: Cut) -> anyhow::Result<Tour<TrialShelf>> {
        self.make_ready(rt)?;
        match self.volume.copy() {
            Ok(grant) => {
                let row = grant.row();
                let set = self.volume.control(Control::Cut(cut));
                let result = self.volume.settle(grant);
                set?;
                tell(rt, format_args!("settle row {row}, power cut"), result)?;
            }
            Err(refused) => println!(rt; "copy: {refused}")?,
        }
        let mut opened = self.reopened(rt)?;
        opened.check(rt)?;
        Ok(opened)
    }

    // Has a member be lost at its next operation.
    pub fn lose(&mut self, rt: &HostRuntime, member: u64) -> anyhow::Result<()> {
        self.volume
            .control(Control::Loss(member))
            .map_err(|_| anyhow!("there is no member {member}"))?;
        println!(rt; "member {member} is lost")?;
        Ok(())
    }
}
