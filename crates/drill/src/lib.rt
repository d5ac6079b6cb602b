// The drill shelf: a trial shelf whose power can go at every operation, restarts among them, by a schedule.
#![tactic(auto)]

ghost use Rattle.std.specs.Prelude.{◌≡◌, ◌<◌, ◌≤◌, true, false, length, Err};
ghost use Rattle.shelf.specs.Answers.{done};
ghost use Rattle.shelf.specs.Meaning.{Flushed, OperationInRange, Reads, Restarts, Writes};
ghost use Rattle.shelf.specs.Trials.{means};
ghost use Rattle.drill.specs.Drills.{Begun, Darkens, DrillRestarts, Drilled, ScheduleSet, Timed, counted, dark_after, drill_meaning, drill_of, new_drill, power_next, ticked, with_choices, with_incidents};
ghost use Rattle.drill.specs.Schedules.{losing_at, word_at};
ghost use Rattle.shelf.specs.declared.Failure.TheVariants.{Off};
ghost use Rattle.drill.specs.declared.schedule.Power.TheVariants.{GoesAfter, GoesBefore};
ghost use Rattle.sector.specs.declared.limits.TheConstants.{MOST_MEMBERS};
ghost use Rattle.shelf.specs.declared.TheConstants.{MOST_SECTORS};
ghost use Rattle.std.proofs.Common.{rules};

use answer::Refusal;
use choices::Choices;
use schedule::Power;
use sector::Sector;
use shelf::controlled::Controlled;
use shelf::image::Image;
use shelf::trial::TrialShelf;
use shelf::{Answer, Failure, Shelf};
use std::marker::Model;

mod choices;
mod schedule;
mod through;

pub use schedule::{Incident, Kind};

// One of its controls, for what is to come; the clock goes on.
#[derive(Drop)]
pub enum Control {
    // another schedule
    Incidents(Vec<Incident>),
    // other choice words, from the next restart on
    Choices(Vec<u32>),
}

// A trial shelf with a schedule of incidents over it.
#[derive(Drop)]
pub struct DrillShelf {
    inner: TrialShelf,
    // off until a restart succeeds, whatever the shelf within says
    dark: bool,
    // the number of the next operation: those in range count while the power is on, and restarts always
    clock: u64,
    // a short list in its writer's order, since the first cut that is due counts, and a map would lose the order
    incidents: Vec<Incident>,
    choices: Choices,
}

// Clauses see the state of the shelf within, whether it is dark, the clock, the schedule, the choice words, and how many of them restarts have taken.
impl Model for DrillShelf {
    ghost use Rattle.drill.specs.Drills.{Drill, drill_of};

    ghost Value = { Drill };

    ghost view = { λ d. drill_of d.inner d.dark d.clock d.incidents.items d.choices.words.items d.choices.taken };
}

impl DrillShelf {
    // A drill shelf at operation 0. Restart n takes the choice word n, or the last one where there are fewer.
    pub fn new(inner: TrialShelf, incidents: Vec<Incident>, choices: Vec<u32>) -> DrillShelf
        ensures { result ≡ new_drill inner incidents.items choices.items }
    {
        DrillShelf {
            inner,
            dark: false,
            clock: 0,
            incidents,
            choices: Choices::new(choices),
        }
    }

    // The shelf within, as the operations left it.
    pub fn into_inner(self) -> TrialShelf
        ensures { result ≡ self.inner }
    {
        let DrillShelf {
            inner,
            dark: _,
            clock: _,
            incidents: _,
            choices: _,
        } = self;
        inner
    }

    // The number of the next operation.
    pub fn clock(&self) -> u64
        ensures { result ≡ self.now.clock }
    {
        self.clock
    }

    // Sets another schedule; its numbers are those of the clock, which goes on.
    pub fn set_incidents(&mut self, incidents: Vec<Incident>)
        ensures { self.new ≡ with_incidents self.old incidents.items }
    {
        self.incidents = incidents;
    }

    // Sets other choice words, from the next restart on.
    pub fn set_choices(&mut self, choices: Vec<u32>)
        ensures { self.new ≡ with_choices self.old choices.items }
    {
        self.choices = Choices::new(choices);
    }

    // Counts an operation and lets the losses happen that are due at it. Answers what becomes of the power.
    fn strike(&mut self) -> Power
        ensures power { result ≡ power_next self.old }
        ensures inner { means self.new.inner ≡ means self.old.inner }
        ensures losing { let a = self.old in self.new.inner.controls.losing ≡ losing_at a.inner.members a.incidents a.clock a.inner.controls.losing }
        ensures dark { self.new.dark ≡ self.old.dark }
        ensures timed { Timed (ticked self.old.clock) self.old self.new }
    {
        let power = schedule::power_at(&self.incidents, self.clock);
        schedule::lose_due(&mut self.inner, &self.incidents, self.clock);
        self.clock = self.clock.saturating_add(1);
        power
    }

    // The power goes and nothing else happens, which a restart may come to as well.
    fn go_dark(&mut self)
        ensures darkens { Darkens (drill_meaning self.old) (drill_meaning self.new) }
        ensures restarts { Restarts (drill_meaning self.old) (drill_meaning self.new) false }
        ensures dark { self.new.dark ≡ true }
        ensures timed { Timed self.old.clock self.old self.new }
    {
        self.dark = true;
    }

    // Begins an operation in range: it goes on to the shelf within, or the power is off.
    fn begin(&mut self) -> Answer
        ensures begun { Begun self.old self.new result }
        ensures timed { Timed (counted self.old) self.old self.new }
        ensures dark { self.new.dark ≡ dark_after self.old }
        ensures cut { power_next self.old ≡ GoesBefore → result ≡ Err Off }
        ensures fuse { power_next self.old ≡ GoesAfter → result ≡ done → self.new.inner.controls.fuse ≡ 0 }
    {
        if self.dark || !self.inner.is_on() {
            return Err(Failure::Off);
        }
        match self.strike() {
            Power::Stays => Ok(()),
            Power::GoesBefore => {
                self.go_dark();
                Err(Failure::Off)
            }
            Power::GoesAfter => {
                self.inner.set_fuse(0);
                Ok(())
            }
        }
    }

    // Hands the shelf within the choice word of this restart.
    fn choose(&mut self)
        ensures inner { means self.new.inner ≡ means self.old.inner }
        ensures word { let a = self.old in self.new.inner.controls.choice ≡ word_at a.choices a.restarts }
        ensures rest { let a = self.old in self.new ≡ drill_of self.new.inner a.dark a.clock a.incidents a.choices (ticked a.restarts) }
    {
        let word = self.choices.next();
        self.inner.set_choice(word);
    }

    // Restarts the shelf within; where the power goes at the end, the sectors are out, and the drill shelf is dark over them.
    fn bring_out(&mut self, dark: bool) -> bool
        ensures restarts { Restarts (drill_meaning self.old) (drill_meaning self.new) result }
        ensures dark { self.new.dark ≡ dark }
        ensures timed { Timed self.old.clock self.old self.new }
    {
        let on = through::restart(&mut self.inner);
        self.dark = dark;
        on && !dark
    }
}

impl Shelf for DrillShelf {
    ghost meaning = { drill_meaning };

    ghost inside = { Prim.search rules };

    fn members(&self) -> u64
        ensures members { result ≡ (drill_meaning self.now).members }
        ensures few { result ≤ MOST_MEMBERS }
    {
        self.inner.members()
    }

    fn sectors(&self) -> u64
        ensures sectors { result ≡ (drill_meaning self.now).sectors }
        ensures short { result ≤ MOST_SECTORS }
    {
        self.inner.sectors()
    }

    fn is_on(&self) -> bool {
        !self.dark && self.inner.is_on()
    }

    fn is_present(&self, member: u64) -> bool {
        self.inner.is_present(member)
    }

    fn read(&mut self, member: u64, sector: u64, buffer: &mut [u8]) -> Answer
        ensures reads { Reads member sector buffer.old buffer.new (drill_meaning self.old) (drill_meaning self.new) result }
        ensures drilled { Drilled (OperationInRange (drill_meaning self.old) member sector (length buffer.old)) self.old self.new result }
    {
        through::in_range(&self.inner, member, sector, buffer.len())?;
        self.begin()?;
        through::read(&mut self.inner, member, sector, buffer)
    }

    fn write(&mut self, member: u64, sector: u64, buffer: &[u8]) -> Answer
        ensures writes { Writes member sector buffer.now (drill_meaning self.old) (drill_meaning self.new) result }
        ensures drilled { Drilled (OperationInRange (drill_meaning self.old) member sector (length buffer.now)) self.old self.new result }
    {
        through::in_range(&self.inner, member, sector, buffer.len())?;
        self.begin()?;
        through::write(&mut self.inner, member, sector, buffer)
    }

    fn flush(&mut self, member: u64) -> Answer
        ensures flushed { Flushed member (drill_meaning self.old) (drill_meaning self.new) result }
        ensures drilled { Drilled (member < (drill_meaning self.old).members) self.old self.new result }
    {
        through::has_member(&self.inner, member)?;
        self.begin()?;
        through::flush(&mut self.inner, member)
    }

    fn restart(&mut self) -> bool
        ensures restarts { Restarts (drill_meaning self.old) (drill_meaning self.new) result }
        ensures drilled { DrillRestarts self.old self.new }
    {
        self.choose();
        match self.strike() {
            Power::Stays => self.bring_out(false),
            Power::GoesBefore => {
                self.go_dark();
                false
            }
            Power::GoesAfter => self.bring_out(true),
        }
    }
}

impl Image for DrillShelf {
    fn current(&self, member: u64, sector: u64) -> Option<Sector> {
        through::current(&self.inner, member, sector)
    }
}

impl Controlled for DrillShelf {
    type Control = Control;

    ghost sets = { ScheduleSet };

    fn control(&mut self, control: Control) -> Result<(), Refusal> {
        match control {
            Control::Incidents(incidents) => self.set_incidents(incidents),
            Control::Choices(choices) => self.set_choices(choices),
        }
        Ok(())
    }
}
