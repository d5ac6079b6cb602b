// The controls of a trial shelf: when the power goes, which members are lost, and what a restart brings out.
ghost use Rattle.std.specs.Prelude.{◌≡◌, ◌<◌, false};
ghost use Rattle.shelf.specs.Trials.{answer_after, struck};
ghost use Rattle.sector.specs.declared.limits.TheConstants.{MOST_MEMBERS};

use crate::{Answer, Failure};

// a fuse that never goes; a number, since a fuse is set from outside as one of 32 bits, and the documents give this one its meaning
pub const NEVER: u32 = 4_294_967_295;

#[derive(Clone, Copy)]
pub struct Controls {
    pub on: bool,
    // operations that are left until the power goes
    pub fuse: u32,
    // for each sector, by its place modulo 32, whether a restart brings out what is current
    pub choice: u32,
    // two sets of members rather than pairs: they are read apart, and together in one operation alone
    pub present: [bool; 16],
    // members that will be found absent at their next operation
    pub losing: [bool; 16],
}

impl Controls {
    // Those of a new shelf: it is on, with every member, and nothing is set to happen.
    pub const NEW: Controls = Controls {
        on: true,
        fuse: NEVER,
        choice: 0,
        present: [true; 16],
        losing: [false; 16],
    };

    // One operation on a member: while the shelf is on, a loss shows and the fuse burns. Answers how the shelf is afterwards.
    pub(crate) fn strike(&mut self, member: u64) -> Answer
        requires { member < MOST_MEMBERS }
        ensures after { self.new ≡ struck self.old member }
        ensures answer { result ≡ answer_after self.new member }
    {
        if !self.on {
            return Err(Failure::Off);
        }
        if self.losing[member as usize] {
            self.present[member as usize] = false;
        }
        if self.fuse == 0 {
            self.on = false;
            return Err(Failure::Off);
        }
        if self.fuse < NEVER {
            self.fuse -= 1;
        }
        if self.present[member as usize] {
            Ok(())
        } else {
            Err(Failure::Absent)
        }
    }
}
