// Striped: the chunks go round the members, with one copy of each.
ghost use Rattle.std.specs.Prelude.{◌≡◌, ◌<◌, None, MatchOption, true, false};
ghost use Rattle.layout.specs.declared.kind.Kind.TheVariants as kind;
ghost use Rattle.layout.specs.Labels.{stock_in_limits, stock_label};
ghost use Rattle.kinds.specs.Cells.{striped_cells};
ghost use Rattle.kinds.specs.Laws.{striped_cellular, striped_named};

use crate::cells::Cells;
use crate::grid::Grid;
use crate::spread::Spread;
use layout::Layout;
use layout::kind::Kind;
use layout::place::{Owner, Place};

#[derive(Clone, Copy, PartialEq, Eq, Debug)]
pub struct StripedCells {
    grid: Grid,
}

pub type Striped = Spread<StripedCells>;

impl Striped {
    // None where a number is out of limits.
    pub fn new(members: u64, chunk: u64, depth: u64) -> Option<Striped>
        ensures { MatchOption result (stock_in_limits (stock_label kind.Striped members 1 chunk depth) ≡ false) (λ l. (stock_in_limits (stock_label kind.Striped members 1 chunk depth) ≡ true) × (⟦<Striped as Layout>⟧.named l ≡ stock_label kind.Striped members 1 chunk depth)) }
    {
        let grid = Grid::new(members, chunk, depth)?;
        Some(Spread {
            cells: StripedCells { grid },
        })
    }
}

impl Cells for StripedCells {
    ghost KIND = { kind.Striped };

    const KIND: Kind = Kind::Striped;

    ghost over = { λ x. x.grid };

    ghost cells = { λ x. striped_cells x.grid.members x.grid.chunks };

    ghost lawful = { λ x. striped_cellular x.grid };

    ghost named = { λ x. striped_named x.grid };

    fn grid(&self) -> Grid {
        self.grid
    }

    fn copies(&self) -> u64 {
        1
    }

    fn columns(&self) -> u64 {
        self.grid.members
    }

    fn rows(&self) -> u64 {
        self.grid.chunks
    }

    fn place(&self, number: u64, _copy: u64) -> Place {
        self.grid.deal(number)
    }

    fn parity(&self, _row: u64) -> Option<u64> {
        None
    }

    fn owner(&self, cell: Place) -> Owner {
        self.grid
            .number(cell)
            .map_or(Owner::Nobody, |sector| Owner::Datum { sector, copy: 0 })
    }
}
