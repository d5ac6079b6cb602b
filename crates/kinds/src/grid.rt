// The grid under every stock layout: a column of chunks for each member.
ghost use Rattle.std.specs.Prelude.{◌≡◌, ◌*◌, ◌/◌, ◌%◌, ◌<◌, ◌≤◌, Decides, MatchOption, true, false};
ghost use Rattle.layout.specs.Labels.{whole_chunks};
ghost use Rattle.kinds.specs.Chunked.{in_cell, in_chunk};
ghost use Rattle.kinds.specs.Grids.{CellNumber, Used};
ghost use Rattle.kinds.specs.Labels.{labelled};
ghost use Rattle.kinds.specs.Limits.{Measured};
ghost use Rattle.layout.specs.declared.TheConstants.{MOST_CHUNK, MOST_DEPTH};
ghost use Rattle.sector.specs.declared.limits.TheConstants.{FEWEST_MEMBERS, MOST_MEMBERS};

use layout::kind::Kind;
use layout::label::Label;
use layout::limits::has_whole_chunks;
use layout::place::Place;
use layout::{MOST_CAPACITY, MOST_CHUNK, MOST_DEPTH};

// The answer for a sector, a copy or a group out of range.
// A place and no None, since every layout answers with a place for all numbers, and who asks in range has no case to tell apart.
pub(crate) const NOWHERE: Place = (0, 0);

// The members are the columns, and the chunks of a member its rows; so the depth is chunk × chunks.
#[derive(Clone, Copy, PartialEq, Eq, Debug)]
pub struct Grid {
    pub(crate) members: u64,
    pub(crate) chunk: u64,
    pub(crate) chunks: u64,
    ghost wide: { (FEWEST_MEMBERS ≤ members) × (members ≤ MOST_MEMBERS) },
    ghost thick: { (1 ≤ chunk) × (chunk ≤ MOST_CHUNK) },
    ghost high: { (1 ≤ chunks) × (chunks ≤ MOST_DEPTH) },
    ghost deep: { chunk * chunks ≤ MOST_DEPTH },
}

impl Grid {
    // None where a number is out of limits; the depth is a positive multiple of the chunk.
    pub(crate) fn new(members: u64, chunk: u64, depth: u64) -> Option<Grid>
        ensures { MatchOption result (whole_chunks members chunk depth ≡ false) (λ g. (whole_chunks members chunk depth ≡ true) × Measured g.members g.chunk g.chunks members chunk depth) }
    {
        if !has_whole_chunks(members, chunk, depth) {
            return None;
        }
        Some(Grid {
            members,
            chunk,
            chunks: depth / chunk,
        })
    }

    // The label of a layout of a kind over the grid.
    pub(crate) fn label(&self, kind: Kind, copies: u8) -> Label
        ensures { result ≡ labelled kind copies self.now.members self.now.chunk self.now.chunks }
    {
        Label::stock(
            kind,
            self.members as u8,
            copies,
            self.chunk as u32,
            self.depth(),
        )
    }

    // The used sectors of a member.
    pub(crate) fn depth(&self) -> u64
        ensures value { result ≡ self.now.chunk * self.now.chunks }
        ensures bound { (1 ≤ result) × (result ≤ MOST_DEPTH) }
    {
        self.chunk * self.chunks
    }

    // The chunks of all members.
    pub(crate) fn cells(&self) -> u64
        ensures value { result ≡ self.now.chunks * self.now.members }
        ensures bound { (self.now.members ≤ result) × (result ≤ MOST_CAPACITY) }
    {
        self.chunks * self.members
    }

    // Whether a cell is on a member and in a row.
    pub(crate) fn holds(&self, cell: Place) -> bool
        ensures { Decides result (Used self.now.members self.now.chunks cell) }
    {
        cell.0 < self.members && cell.1 < self.chunks
    }

    // The number of a cell, as the cells go round the members; None beyond the grid.
    pub(crate) fn number(&self, cell: Place) -> Option<u64>
        ensures { CellNumber self.now.members self.now.chunks cell result }
    {
        self.holds(cell).then(|| cell.1 * self.members + cell.0)
    }

    // The cell of a number.
    pub(crate) fn deal(&self, number: u64) -> Place
        requires { number < self.now.chunks * self.now.members }
        ensures { result ≡ (number % self.now.members, number / self.now.members) }
    {
        (number % self.members, number / self.members)
    }

    // The place of a sector whose chunk lies in a cell.
    pub(crate) fn place(&self, cell: Place, sector: u64) -> Place
        requires { cell.1 < self.now.chunks }
        ensures { result ≡ in_cell self.now.chunk cell sector }
    {
        (cell.0, self.offset(cell.1, sector))
    }

    // The offset of a sector whose chunk lies in a row.
    pub(crate) fn offset(&self, row: u64, sector: u64) -> u64
        requires { row < self.now.chunks }
        ensures { result ≡ in_chunk self.now.chunk row (sector % self.now.chunk) }
    {
        row * self.chunk + sector % self.chunk
    }

    // The sector of a chunk at an offset.
    pub(crate) fn sector(&self, number: u64, offset: u64) -> u64
        requires { number < self.now.chunks * self.now.members }
        ensures value { result ≡ in_chunk self.now.chunk number (offset % self.now.chunk) }
        ensures bound { result < MOST_CAPACITY }
    {
        number * self.chunk + offset % self.chunk
    }
}
