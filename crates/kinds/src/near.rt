// Near copies: the copies of a chunk lie in cells next to one another, as the cells go round the members.
ghost use Rattle.std.specs.Prelude.{◌≡◌, ◌-◌, ◌<◌, ◌≤◌, None, MatchOption, true, false};
ghost use Rattle.layout.specs.declared.kind.Kind.TheVariants as kind;
ghost use Rattle.layout.specs.Labels.{stock_in_limits, stock_label};
ghost use Rattle.kinds.specs.Cells.{near_cells};
ghost use Rattle.kinds.specs.Laws.{near_cellular, near_named};

use crate::cells::Cells;
use crate::grid::Grid;
use crate::spread::Spread;
use layout::Layout;
use layout::kind::Kind;
use layout::limits::bears_copies;
use layout::place::{Owner, Place};

#[derive(Clone, Copy, PartialEq, Eq, Debug)]
pub struct NearCells {
    grid: Grid,
    copies: u64,
    ghost apart: { copies ≤ grid.members },
    ghost few: { (2 ≤ copies) × (copies ≤ 4) },
}

pub type Near = Spread<NearCells>;

impl Near {
    // None where a number is out of limits.
    pub fn new(members: u64, copies: u64, chunk: u64, depth: u64) -> Option<Near>
        ensures { MatchOption result (stock_in_limits (stock_label kind.Near members copies chunk depth) ≡ false) (λ l. (stock_in_limits (stock_label kind.Near members copies chunk depth) ≡ true) × (⟦<Near as Layout>⟧.named l ≡ stock_label kind.Near members copies chunk depth)) }
    {
        let grid = Grid::new(members, chunk, depth)?;
        // An `if`, so that its test is known where the cells are made.
        if bears_copies(members, copies) {
            Some(Spread {
                cells: NearCells { grid, copies },
            })
        } else {
            None
        }
    }
}

impl Cells for NearCells {
    ghost KIND = { kind.Near };

    const KIND: Kind = Kind::Near;

    ghost over = { λ x. x.grid };

    ghost cells = { λ x. near_cells x.grid.members x.grid.chunks x.copies };

    ghost lawful = { λ x. near_cellular x.grid x.copies x.few.0 x.apart };

    ghost named = { λ x. near_named x.grid x.copies };

    fn grid(&self) -> Grid {
        self.grid
    }

    fn copies(&self) -> u64 {
        self.copies
    }

    fn columns(&self) -> u64 {
        1
    }

    // The cells of the last copies may be fewer than a chunk needs, and then lie idle.
    fn rows(&self) -> u64 {
        self.grid.cells() / self.copies
    }

    fn place(&self, number: u64, copy: u64) -> Place {
        self.grid.deal(number * self.copies + copy)
    }

    fn parity(&self, _row: u64) -> Option<u64> {
        None
    }

    fn owner(&self, cell: Place) -> Owner {
        self.grid
            .number(cell)
            .filter(|number| number / self.copies < self.rows())
            .map_or(
                Owner::Nobody,
                |number| Owner::Datum {
                    sector: number / self.copies,
                    copy: number % self.copies,
                },
            )
    }
}
