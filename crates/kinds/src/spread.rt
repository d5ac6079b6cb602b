// Cells spread over chunks: what a kind says of a chunk holds for each of its sectors.
ghost use Rattle.kinds.specs.Cellular.{GroupParity, grid_label};
ghost use Rattle.kinds.specs.Chunked.{chunked};
ghost use Rattle.kinds.specs.Laws.{one_name, spread_lawful};

use crate::cells::Cells;
use crate::grid::NOWHERE;
use layout::Layout;
use layout::label::Label;
use layout::place::{Owner, Place};

#[derive(Clone, Copy, PartialEq, Eq, Debug)]
pub struct Spread<C> {
    pub(crate) cells: C,
}

impl<C: Cells> Layout for Spread<C> {
    ghost geometry = { λ s. chunked (C.over s.cells).chunk (C.cells s.cells) };

    ghost named = { λ s. grid_label C.KIND (C.cells s.cells).copies (C.over s.cells) };

    ghost lawful = { λ s. spread_lawful (C.over s.cells) (C.cells s.cells) (C.lawful s.cells) };

    ghost one = { λ x y e. one_name _ _ _ _ (C.named x.cells) (C.named y.cells) e };

    fn label(&self) -> Label {
        self.cells.grid().label(C::KIND, self.cells.copies() as u8)
    }

    fn members(&self) -> u64 {
        self.cells.grid().members
    }

    fn depth(&self) -> u64 {
        self.cells.grid().depth()
    }

    fn copies(&self) -> u64 {
        self.cells.copies()
    }

    // Parity bears one absent member, and copies all but one.
    fn loss(&self) -> u64 {
        self.cells.parity(0).map_or(self.cells.copies() - 1, |_| 1)
    }

    fn row_len(&self) -> u64 {
        self.cells.grid().chunk * self.cells.columns()
    }

    fn rows(&self) -> u64 {
        self.cells.rows()
    }

    fn capacity(&self) -> u64 {
        self.cells.rows() * self.row_len()
    }

    fn place(&self, sector: u64, copy: u64) -> Place {
        if sector >= self.capacity() || copy >= self.cells.copies() {
            return NOWHERE;
        }
        let grid = self.cells.grid();
        grid.place(self.cells.place(sector / grid.chunk, copy), sector)
    }

    // The group has the number of the offset that its peers and its parity share.
    fn group(&self, sector: u64) -> Option<u64> {
        if sector >= self.capacity() {
            return None;
        }
        let row = sector / self.row_len();
        self.cells.parity(row)?;
        Some(self.cells.grid().offset(row, sector))
    }

    fn peers(&self, group: u64) -> u64 {
        self.parity_member(group)
            .map_or(0, |_| self.cells.columns())
    }

    fn peer(&self, group: u64, index: u64) -> u64 {
        if index >= self.peers(group) {
            return 0;
        }
        let grid = self.cells.grid();
        grid.sector(group / grid.chunk * self.cells.columns() + index, group)
    }

    fn parity(&self, group: u64) -> Place {
        self.parity_member(group)
            .map_or(NOWHERE, |member| (member, group))
    }

    fn owner(&self, place: Place) -> Owner {
        let grid = self.cells.grid();
        match self.cells.owner((place.0, place.1 / grid.chunk)) {
            Owner::Datum { sector, copy } => Owner::Datum {
                sector: grid.sector(sector, place.1),
                copy,
            },
            Owner::Parity { .. } => Owner::Parity { group: place.1 },
            Owner::Nobody => Owner::Nobody,
        }
    }
}

impl<C: Cells> Spread<C> {
    // The member with the parity of a group, None where there is no such group.
    fn parity_member(&self, group: u64) -> Option<u64>
        ensures { GroupParity (C.over self.now.cells) (C.cells self.now.cells) group result }
    {
        let grid = self.cells.grid();
        if group >= grid.depth() {
            return None;
        }
        self.cells.parity(group / grid.chunk)
    }
}
