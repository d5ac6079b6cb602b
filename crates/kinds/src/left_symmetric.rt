// Left-symmetric parity: in each row of chunks one member has the parity, which moves one member to the left from row to row;
// the data begin on the member after it.
ghost use Rattle.std.specs.Prelude.{◌≡◌, ◌-◌, ◌*◌, ◌<◌, ◌≤◌, MatchOption, true, false};
ghost use Rattle.layout.specs.declared.kind.Kind.TheVariants as kind;
ghost use Rattle.layout.specs.Labels.{stock_in_limits, stock_label};
ghost use Rattle.kinds.specs.Cells.{left_cells, parity_on};
ghost use Rattle.kinds.specs.Laws.{left_cellular, left_named};

use crate::cells::Cells;
use crate::grid::Grid;
use crate::spread::Spread;
use layout::kind::Kind;
use layout::place::{Owner, Place};
use layout::{FEWEST_WITH_PARITY, Layout};

#[derive(Clone, Copy, PartialEq, Eq, Debug)]
pub struct LeftSymmetricCells {
    grid: Grid,
    ghost three: { 3 ≤ grid.members },
}

pub type LeftSymmetric = Spread<LeftSymmetricCells>;

impl LeftSymmetric {
    // None where a number is out of limits.
    pub fn new(members: u64, chunk: u64, depth: u64) -> Option<LeftSymmetric>
        ensures { MatchOption result (stock_in_limits (stock_label kind.LeftSymmetric members 1 chunk depth) ≡ false) (λ l. (stock_in_limits (stock_label kind.LeftSymmetric members 1 chunk depth) ≡ true) × (⟦<LeftSymmetric as Layout>⟧.named l ≡ stock_label kind.LeftSymmetric members 1 chunk depth)) }
    {
        let grid = Grid::new(members, chunk, depth)?;
        if members < FEWEST_WITH_PARITY {
            return None;
        }
        Some(Spread {
            cells: LeftSymmetricCells { grid },
        })
    }
}

impl LeftSymmetricCells {
    // The member with the parity of a row of chunks.
    fn parity_member(&self, row: u64) -> u64
        ensures value { result ≡ parity_on self.now.grid.members row }
        ensures bound { result < self.now.grid.members }
    {
        self.grid.members - 1 - row % self.grid.members
    }
}

impl Cells for LeftSymmetricCells {
    ghost KIND = { kind.LeftSymmetric };

    const KIND: Kind = Kind::LeftSymmetric;

    ghost over = { λ x. x.grid };

    ghost cells = { λ x. left_cells x.grid.members x.grid.chunks };

    ghost lawful = { λ x. left_cellular x.grid x.three };

    ghost named = { λ x. left_named x.grid };

    fn grid(&self) -> Grid {
        self.grid
    }

    fn copies(&self) -> u64 {
        1
    }

    fn columns(&self) -> u64 {
        self.grid.members - 1
    }

    fn rows(&self) -> u64 {
        self.grid.chunks
    }

    fn place(&self, number: u64, _copy: u64) -> Place {
        let data = self.columns();
        let row = number / data;
        let member = (self.parity_member(row) + 1 + number % data) % self.grid.members;
        (member, row)
    }

    fn parity(&self, row: u64) -> Option<u64> {
        Some(self.parity_member(row))
    }

    fn owner(&self, cell: Place) -> Owner {
        if !self.grid.holds(cell) {
            return Owner::Nobody;
        }
        let (member, row) = cell;
        let parity = self.parity_member(row);
        if member == parity {
            return Owner::Parity { group: row };
        }
        let index = (member + self.grid.members - parity - 1) % self.grid.members;
        Owner::Datum {
            sector: row * self.columns() + index,
            copy: 0,
        }
    }
}
