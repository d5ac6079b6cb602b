// A volume under way, beside a record of what was written to it.
use crate::pattern::pattern;
use answer::Refused;
use kinds::stock::Stock;
use sector::zeros;
use shelf::Shelf;
use std::fmt::Display;
use std::ops::Add;
use volume::Volume;

// The sectors that were read back and compared, and those that differed.
#[derive(Clone, Copy, Default)]
pub struct Tally {
    pub compared: u64,
    pub differing: u64,
}

impl Add for Tally {
    type Output = Tally;

    fn add(self, other: Tally) -> Tally {
        Tally {
            compared: self.compared.saturating_add(other.compared),
            differing: self.differing.saturating_add(other.differing),
        }
    }
}

// what a tour is about
#[derive(Clone, Copy)]
pub struct Plan {
    pub source: Stock,
    pub target: Stock,
    pub backup: u32,
    pub size: u64,
    // whether every write is told
    pub chatty: bool,
}

#[derive(Drop)]
pub struct Tour<S> {
    pub volume: Volume<S, Stock>,
    pub plan: Plan,
    // the version that each sector has on the flat disk
    pub versions: Vec<u64>,
    // the latest version written
    pub version: u64,
    pub tally: Tally,
}

// Whether a sector is read back as this version, by the tour's own pattern. The tests have these two lines too, by another formula; for
// them alone a crate would have to stand between.
fn shows<S: Shelf>(volume: &mut Volume<S, Stock>, sector: u64, version: u64) -> bool {
    let mut content = zeros();
    volume.read(sector, &mut content).is_ok() && content == pattern(sector, version)
}

impl<S: Shelf> Tour<S> {
    // Creates the volume and fills it.
    pub fn start(rt: &HostRuntime, shelf: S, plan: Plan) -> anyhow::Result<Tour<S>>
    where
        S: Drop,
    {
        let (volume, result) = Volume::create(
            shelf,
            plan.source,
            plan.target,
            plan.backup,
            plan.size,
        );
        tell(rt, "create", result)?;
        let mut tour = Tour {
            volume,
            plan,
            versions: vec![in rt.alloc(); 0u64; plan.size as usize]?,
            version: 0,
            tally: Tally::default(),
        };
        for sector in 0..plan.size {
            tour.write(rt, sector, "new")?;
        }
        Ok(tour)
    }

    // Writes the next version of a sector and tells the answer; what was done is put on record.
    pub fn write(&mut self, rt: &HostRuntime, sector: u64, place: &str) -> anyhow::Result<()> {
        let result = self.attempt(sector);
        self.tell_write(rt, sector, place, result)
    }

    // Tells of a write, if every write is told.
    pub fn tell_write(
        &self,
        rt: &HostRuntime,
        sector: u64,
        place: &str,
        res: Result<(), Refused>,
    ) -> anyhow::Result<()> {
        if self.plan.chatty {
            tell(rt, format_args!("write {sector} ({place})"), res)?;
        }
        Ok(())
    }

    // Writes the next version of a sector.
    pub fn attempt(&mut self, sector: u64) -> Result<(), Refused> {
        let next = self.next_version();
        self.volume.write(sector, &pattern(sector, next))?;
        self.record(sector, next);
        Ok(())
    }

    // The version after the latest.
    pub fn next_version(&self) -> u64 {
        self.version.wrapping_add(1)
    }

    // Puts a version on record.
    pub fn record(&mut self, sector: u64, version: u64) {
        if let Some(on_record) = self.versions.get_mut(sector as usize) {
            *on_record = version;
            self.version = version.max(self.version);
        }
    }

    // Whether a sector is read back as this version.
    pub fn shows(&mut self, sector: u64, version: u64) -> bool {
        shows(&mut self.volume, sector, version)
    }

    // Reads every sector back and compares it with the record.
    pub fn check(&mut self, rt: &HostRuntime) -> anyhow::Result<()> {
        let volume = &mut self.volume;
        let differing = self
            .versions
            .iter()
            .enumerate()
            .filter(|&(sector, &version)| !shows(volume, sector as u64, version))
            .count() as u64;
        let compared = self.versions.len() as u64;
        self.tally = self.tally
            + Tally {
                compared,
                differing,
            };
        println!(rt; "check: {compared} sectors compared, {differing} differ")?;
        Ok(())
    }
}

// `NAME: 0`, or the number of the refusal and the fault.
pub fn tell<D: Display + Drop>(
    rt: &HostRuntime,
    name: D,
    res: Result<(), Refused>,
) -> anyhow::Result<()> {
    match res {
        Ok(()) => println!(rt; "{name}: 0")?,
        Err(refused) => println!(rt; "{name}: {refused}")?,
    }
    Ok(())
}
