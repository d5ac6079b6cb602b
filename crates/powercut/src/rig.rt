// What can go wrong with a shelf, and the shelves that it is tried with.
use drill::{DrillShelf, Incident, Kind};
use shelf::controlled::Controlled;
use shelf::image::Image;
use shelf::trial::{self, NEVER, TrialShelf};
use std::alloc::{AllocError, Global};

// the side of an operation on which the power goes
#[derive(Clone, Copy)]
pub enum Side {
    Before,
    After,
}

// The power goes at an operation, counted from the next one on, and the restart after it takes this choice word.
#[derive(Clone, Copy)]
pub struct Cut {
    pub at: u64,
    pub side: Side,
    pub choice: u32,
}

// A member is lost at an operation, counted from the next one on, or where that is on another member, at its first one after.
#[derive(Clone, Copy)]
pub struct Loss {
    pub at: u64,
    pub member: u64,
}

// What goes wrong during a call.
#[derive(Clone, Copy)]
pub struct Trouble {
    pub losses: [Option<Loss>; 2],
    pub cut: Option<Cut>,
}

impl Trouble {
    pub const NONE: Trouble = Trouble {
        losses: [None, None],
        cut: None,
    };

    pub fn cut(cut: Cut) -> Trouble {
        Trouble::NONE.and_cut(cut)
    }

    pub fn loss(loss: Loss) -> Trouble {
        Trouble {
            losses: [Some(loss), None],
            cut: None,
        }
    }

    pub fn losses(first: Loss, second: Loss) -> Trouble {
        Trouble {
            losses: [Some(first), Some(second)],
            cut: None,
        }
    }

    // The same with a cut.
    pub fn and_cut(self, cut: Cut) -> Trouble {
        Trouble {
            cut: Some(cut),
            ..self
        }
    }
}

// A shelf that trouble can be arranged for, as far as it can: a trial shelf cuts at the end of an operation alone, and loses a member at its
// next one.
pub trait Rig: Image + Controlled {
    // Over a run of bytes, durable contents and current ones.
    fn over(heap: Global, members: u64, sectors: u64, bytes: Vec<u8>) -> Self;

    // The controls that have this happen from the next operation on, and nothing else.
    fn arranged(&self, heap: Global, trouble: &Trouble) -> Result<Vec<Self::Control>, AllocError>;
}

impl Rig for TrialShelf {
    fn over(_heap: Global, members: u64, sectors: u64, bytes: Vec<u8>) -> TrialShelf {
        TrialShelf::new(members, sectors, bytes)
    }

    fn arranged(&self, heap: Global, trouble: &Trouble) -> Result<Vec<trial::Control>, AllocError> {
        let mut controls = Vec::new(heap);
        for loss in trouble.losses.iter().flatten() {
            controls.push(trial::Control::Loss(loss.member))?;
        }
        controls.push(match trouble.cut {
            Some(cut) => trial::Control::Cut(trial::Cut {
                fuse: u32::try_from(cut.at).unwrap_or(NEVER),
                choice: cut.choice,
            }),
            None => trial::Control::Fuse(NEVER),
        })?;
        Ok(controls)
    }
}

impl Rig for DrillShelf {
    fn over(heap: Global, members: u64, sectors: u64, bytes: Vec<u8>) -> DrillShelf {
        DrillShelf::new(
            TrialShelf::new(members, sectors, bytes),
            Vec::new(heap),
            Vec::new(heap),
        )
    }

    fn arranged(&self, heap: Global, trouble: &Trouble) -> Result<Vec<drill::Control>, AllocError> {
        let now = self.clock();
        let mut controls = Vec::new(heap);
        let mut incidents = Vec::new(heap);
        for loss in trouble.losses.iter().flatten() {
            incidents.push(Incident {
                at: now.saturating_add(loss.at),
                kind: Kind::Lose(loss.member),
            })?;
        }
        if let Some(cut) = trouble.cut {
            incidents.push(Incident {
                at: now.saturating_add(cut.at),
                kind: match cut.side {
                    Side::Before => Kind::CutBefore,
                    Side::After => Kind::CutAfter,
                },
            })?;
            controls.push(drill::Control::Choices(vec![in heap; cut.choice]?))?;
        }
        controls.push(drill::Control::Incidents(incidents))?;
        Ok(controls)
    }
}
