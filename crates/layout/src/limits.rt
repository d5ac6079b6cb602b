// The limits of the stock kinds, on plain numbers.
ghost use Rattle.std.specs.Prelude.{◌≡◌};
ghost use Rattle.layout.specs.Labels.{copies_apart, whole_chunks};

use crate::{FEWEST_COPIES, MOST_CHUNK, MOST_COPIES, MOST_DEPTH};
use sector::limits::{FEWEST_MEMBERS, MOST_MEMBERS};

// Whether a stock layout can have so many members with so many used sectors each, in whole chunks.
pub fn has_whole_chunks(members: u64, chunk: u64, depth: u64) -> bool
    ensures { result ≡ whole_chunks members chunk depth }
{
    ((FEWEST_MEMBERS..=MOST_MEMBERS).contains(&members) && (1..=MOST_CHUNK).contains(&chunk))
        && ((1..=MOST_DEPTH).contains(&depth) && depth % chunk == 0)
}

// Whether so many copies of a sector can lie on different members.
pub fn bears_copies(members: u64, copies: u64) -> bool
    ensures { result ≡ copies_apart members copies }
{
    (FEWEST_COPIES..=MOST_COPIES).contains(&copies) && copies <= members
}
