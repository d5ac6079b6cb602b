// What tells the stock kinds from one another: where each puts its chunks, as if a chunk were one sector.
ghost use Rattle.std.specs.Prelude.{◌≡◌, ◌<◌};
ghost use Rattle.layout.specs.Geometry.{Geometry, capacity};
ghost use Rattle.layout.specs.declared.kind.Kind.{Kind};
ghost use Rattle.kinds.specs.Cellular.{Cellular, ParityAt, grid_label};
ghost use Rattle.kinds.specs.Chunked.{chunked};
ghost use Rattle.kinds.specs.Named.{geometry_named};
ghost use Rattle.kinds.specs.declared.grid.Grid.{Grid};

use crate::grid::Grid;
use layout::kind::Kind;
use layout::place::{Owner, Place};

// The cells of a grid lie in rows; a place among them is a member and a row.
pub trait Cells {
    ghost KIND: { Kind };

    const KIND: Kind;

    // The grid under the cells, and what lies in which: by a kind's private fields, as a definition elsewhere would only read the same ones.
    ghost over: { Self → Grid };

    ghost cells: { Self → Geometry };

    fn grid(&self) -> Grid
        ensures { result ≡ over self.now };

    // The copies of a chunk.
    fn copies(&self) -> u64
        ensures { result ≡ (cells self.now).copies };

    // The chunks of data in a row.
    fn columns(&self) -> u64
        ensures { result ≡ (cells self.now).row_len };

    // The rows of data.
    fn rows(&self) -> u64
        ensures { result ≡ (cells self.now).rows };

    // Where a copy of a chunk lies.
    fn place(&self, number: u64, copy: u64) -> Place
        requires { (number < capacity (cells self.now)) × (copy < (cells self.now).copies) }
        ensures { result ≡ (cells self.now).datum number copy };

    // The member with the parity of a row, where the kind has parity.
    fn parity(&self, row: u64) -> Option<u64>
        ensures { ParityAt (cells self.now) row result };

    // What lies in a cell.
    fn owner(&self, cell: Place) -> Owner
        ensures { result ≡ (cells self.now).owner cell };

    ghost lawful: { (x : Self) → Cellular (over x) (cells x) };

    // The label says all that there is to say of the layout.
    ghost named: { (x : Self) → chunked (over x).chunk (cells x) ≡ geometry_named (grid_label KIND (cells x).copies (over x)) };
}
