// Schedules: what is to happen at which operation.
ghost use Rattle.std.specs.Prelude.{◌≡◌};
ghost use Rattle.shelf.specs.Trials.{means};
ghost use Rattle.drill.specs.Schedules.{cut_by, losing_at, losing_by, power_due};

use shelf::trial::TrialShelf;

// What happens at an operation.
#[derive(Clone, Copy, PartialEq, Eq, Debug)]
pub enum Kind {
    // the power goes before the operation has any effect
    CutBefore,
    // the power goes at its end: a write has reached the current contents, a restart has brought the sectors out
    CutAfter,
    // the member is found absent at its next operation, which may be this one
    Lose(u64),
}

// Something that happens at the operation with this number.
#[derive(Clone, Copy, PartialEq, Eq, Debug)]
pub struct Incident {
    pub at: u64,
    pub kind: Kind,
}

// What becomes of the power at one operation. Three words and no `Option` of two: the definitions of the schedule, which public clauses
// name, have them.
#[derive(Clone, Copy, PartialEq, Eq, Debug)]
pub enum Power {
    Stays,
    GoesBefore,
    GoesAfter,
}

impl Incident {
    // What becomes of the power at an operation, if this is a cut that is due then.
    fn cut(self, clock: u64) -> Option<Power>
        ensures { result ≡ cut_by self clock }
    {
        if self.at != clock {
            return None;
        }
        match self.kind {
            Kind::CutBefore => Some(Power::GoesBefore),
            Kind::CutAfter => Some(Power::GoesAfter),
            Kind::Lose(_) => None,
        }
    }
}

// What becomes of the power at an operation: the first cut that is due decides.
pub(crate) fn power_at(incidents: &[Incident], clock: u64) -> Power
    ensures { result ≡ power_due incidents.now clock }
{
    incidents
        .iter()
        .find_map(|incident| incident.cut(clock))
        .unwrap_or(Power::Stays)
}

// Has the shelf lose the member of an incident, where it is a loss and due.
fn lose_one(shelf: &mut TrialShelf, incident: Incident, clock: u64)
    ensures meaning { means shelf.new ≡ means shelf.old }
    ensures losing { let a = shelf.old in shelf.new.controls.losing ≡ losing_by a.members incident clock a.controls.losing }
{
    if incident.at == clock {
        if let Kind::Lose(member) = incident.kind {
            // a shelf without that member has nothing to lose
            let _ = shelf.lose(member);
        }
    }
}

// Has the shelf lose the members that are due at an operation.
pub(crate) fn lose_due(shelf: &mut TrialShelf, incidents: &[Incident], clock: u64)
    ensures meaning { means shelf.new ≡ means shelf.old }
    ensures losing { let a = shelf.old in shelf.new.controls.losing ≡ losing_at a.members incidents.now clock a.controls.losing }
{
    for incident in incidents {
        lose_one(shelf, *incident, clock);
    }
}
