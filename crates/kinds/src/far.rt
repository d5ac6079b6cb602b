// Far copies: each member is cut into a zone for each copy, and each zone is striped, turned by one member more than the one before.
ghost use Rattle.std.specs.Prelude.{◌≡◌, ◌-◌, ◌*◌, ◌/◌, ◌<◌, ◌≤◌, None, MatchOption, true, false};
ghost use Rattle.layout.specs.declared.kind.Kind.TheVariants as kind;
ghost use Rattle.layout.specs.Labels.{stock_in_limits, stock_label};
ghost use Rattle.kinds.specs.Cells.{far_cells};
ghost use Rattle.kinds.specs.Laws.{far_cellular, far_named};

use crate::cells::Cells;
use crate::grid::Grid;
use crate::spread::Spread;
use layout::Layout;
use layout::kind::Kind;
use layout::limits::bears_copies;
use layout::place::{Owner, Place};

#[derive(Clone, Copy, PartialEq, Eq, Debug)]
pub struct FarCells {
    grid: Grid,
    copies: u64,
    ghost apart: { copies ≤ grid.members },
    ghost few: { (2 ≤ copies) × (copies ≤ 4) },
    ghost zoned: { copies ≤ grid.chunks },
}

pub type Far = Spread<FarCells>;

impl Far {
    // None where a number is out of limits; each zone has at least one chunk of each member.
    pub fn new(members: u64, copies: u64, chunk: u64, depth: u64) -> Option<Far>
        ensures { MatchOption result (stock_in_limits (stock_label kind.Far members copies chunk depth) ≡ false) (λ l. (stock_in_limits (stock_label kind.Far members copies chunk depth) ≡ true) × (⟦<Far as Layout>⟧.named l ≡ stock_label kind.Far members copies chunk depth)) }
    {
        let grid = Grid::new(members, chunk, depth)?;
        // An `if`, so that its test is known where the cells are made.
        if bears_copies(members, copies) && copies <= grid.chunks {
            Some(Spread {
                cells: FarCells { grid, copies },
            })
        } else {
            None
        }
    }
}

impl FarCells {
    // The rows of chunks in a zone.
    fn zone(&self) -> u64
        ensures value { result ≡ self.now.grid.chunks / self.now.copies }
        ensures bound { (1 ≤ result) × ((result ≤ self.now.grid.chunks) × (self.now.copies * result ≤ self.now.grid.chunks)) }
    {
        self.grid.chunks / self.copies
    }
}

impl Cells for FarCells {
    ghost KIND = { kind.Far };

    const KIND: Kind = Kind::Far;

    ghost over = { λ x. x.grid };

    ghost cells = { λ x. far_cells x.grid.members x.grid.chunks x.copies };

    ghost lawful = { λ x. far_cellular x.grid x.copies x.few.0 x.apart x.zoned };

    ghost named = { λ x. far_named x.grid x.copies };

    fn grid(&self) -> Grid {
        self.grid
    }

    fn copies(&self) -> u64 {
        self.copies
    }

    fn columns(&self) -> u64 {
        self.grid.members
    }

    fn rows(&self) -> u64 {
        self.zone()
    }

    fn place(&self, number: u64, copy: u64) -> Place {
        let members = self.grid.members;
        (
            (number + copy) % members,
            copy * self.zone() + number / members,
        )
    }

    fn parity(&self, _row: u64) -> Option<u64> {
        None
    }

    fn owner(&self, cell: Place) -> Owner {
        let zone = self.zone();
        let copy = cell.1 / zone;
        if !self.grid.holds(cell) || copy >= self.copies {
            return Owner::Nobody;
        }
        let members = self.grid.members;
        Owner::Datum {
            sector: cell.1 % zone * members + (cell.0 + members - copy) % members,
            copy,
        }
    }
}
