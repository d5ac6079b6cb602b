// The extent of a shelf, and where its sectors lie in an image.
ghost use Rattle.std.specs.Prelude.{◌≡◌, ◌+◌, ◌*◌, ◌<◌, ◌≤◌, MatchOption, MatchResult};
ghost use Rattle.answer.specs.declared.Refusal.TheVariants.{OutOfLimits};
ghost use Rattle.shelf.specs.Runs.{Cell, RunOf, Within};
ghost use Rattle.sector.specs.declared.limits.TheConstants.{MOST_MEMBERS};
ghost use Rattle.shelf.specs.declared.TheConstants.{MOST_SECTORS};
ghost use Rattle.sector.specs.declared.TheConstants.{SECTOR};

use crate::{Failure, MOST_SECTORS};
use answer::Refusal;
use sector::SECTOR;
use sector::limits::{FEWEST_MEMBERS, MOST_MEMBERS};

// The members of a shelf and the sectors of each, within the limits. In an image the sectors of member 0 come first, then those of member 1, and so on.
#[derive(Clone, Copy)]
pub(crate) struct Extent {
    pub(crate) members: u64,
    pub(crate) sectors: u64,
    ghost few: { members ≤ MOST_MEMBERS },
    ghost short: { sectors ≤ MOST_SECTORS },
}

impl Extent {
    // The extent of so many members with so many sectors, if the limits allow it. An `if`, since a closure would have to say
    // the test again in a clause of its own.
    pub(crate) fn within(members: u64, sectors: u64) -> Option<Extent>
        ensures { MatchOption result (Within members sectors → ⊥) (λ e. Within members sectors × (e.members ≡ members) × (e.sectors ≡ sectors)) }
    {
        if (FEWEST_MEMBERS..=MOST_MEMBERS).contains(&members)
            && (1..=MOST_SECTORS).contains(&sectors)
        {
            Some(Extent { members, sectors })
        } else {
            None
        }
    }

    // The same, if a run of so many bytes has just so many images of it. It asks, as `bytes` does, that they are at most two: where they are made
    // their number is a const parameter, which has no bound of its own.
    pub(crate) fn of(
        members: u64,
        sectors: u64,
        images: u64,
        bytes: usize,
    ) -> Result<Extent, Refusal>
        requires { images ≤ 2 }
        ensures { MatchResult result (λ e. RunOf members sectors images bytes × (e.members ≡ members) × (e.sectors ≡ sectors)) (λ e. (e ≡ OutOfLimits) × (RunOf members sectors images bytes → ⊥)) }
    {
        Extent::within(members, sectors)
            .filter(|extent| extent.bytes(images) == bytes)
            .ok_or(Refusal::OutOfLimits)
    }

    // The bytes of so many images.
    pub(crate) fn bytes(self, images: u64) -> usize
        requires { images ≤ 2 }
        ensures { result ≡ self.members * self.sectors * images * SECTOR }
    {
        self.image() * images as usize * SECTOR
    }

    // The sectors of one image.
    pub(crate) fn image(self) -> usize
        ensures { result ≡ self.members * self.sectors }
    {
        (self.members * self.sectors) as usize
    }

    // A member's sectors. It asks that this is one, as what goes over a column does: the number is an argument, which the callers have tested or
    // counted.
    pub(crate) fn column(self, member: u64) -> Column
        requires { member < self.members }
        ensures image { result.image ≡ self.members * self.sectors }
        ensures start { result.start ≡ member * self.sectors }
        ensures end { result.end ≡ member * self.sectors + self.sectors }
    {
        let start = (member * self.sectors) as usize;
        Column {
            image: self.image(),
            start,
            end: start + self.sectors as usize,
        }
    }

    // Where a sector lies in an image, if it and a buffer of this length are in range.
    pub(crate) fn cell(self, member: u64, sector: u64, length: usize) -> Result<usize, Failure>
        ensures { Cell self.members self.sectors member sector length result }
    {
        if member < self.members && sector < self.sectors && length == SECTOR {
            Ok((member * self.sectors + sector) as usize)
        } else {
            Err(Failure::OutOfRange)
        }
    }
}

// The sectors of a member, from `start` up to `end` in the first of two images; in the second each lies `image` sectors further on.
#[derive(Clone, Copy)]
pub(crate) struct Column {
    pub(crate) image: usize,
    pub(crate) start: usize,
    pub(crate) end: usize,
    ghost ordered: { start ≤ end },
    ghost apart: { end ≤ image },
}
