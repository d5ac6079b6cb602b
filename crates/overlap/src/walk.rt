// How far a move has come, in plain numbers: which rows are settled, which are kept, and where a sector therefore lives.
ghost use Rattle.std.specs.Prelude.{◌≡◌, ◌+◌, ◌-◌, ◌*◌, ◌^◌, ◌<◌, ◌≤◌, min, nat_lt, Decides};
ghost use Rattle.overlap.specs.Homes.{KeepSpan, home_of, window_of};

use layout::Layout;
use std::ops::Range;

// the place of which the content of a sector is read and to which it is written
#[derive(Clone, Copy, PartialEq, Eq, Debug)]
pub enum Home {
    Source,
    Target,
    Backup,
}

// A move from rows of one length to rows of another. Rows are settled, and kept, from the first one up.
#[derive(Clone, Copy, PartialEq, Eq, Debug)]
pub struct Walk {
    // the sectors of a source row and of a target row
    pub source_len: u64,
    pub target_len: u64,
    // the target rows that are settled and the source rows that are kept
    pub settled: u64,
    pub kept: u64,
    // the volume's sectors
    pub size: u64,
    // the backup slots
    pub backup: u64,
    ghost rows: { (1 ≤ source_len) × (1 ≤ target_len) },
}

impl Walk {
    // How far a move from one layout to another has come.
    pub fn of<Old: Layout, New: Layout>(
        source: &Old,
        target: &New,
        settled: u64,
        kept: u64,
        size: u64,
        backup: u64,
    ) -> Walk
        ensures source_len { result.source_len ≡ (Old.Layout.geometry source.now).row_len }
        ensures target_len { result.target_len ≡ (New.Layout.geometry target.now).row_len }
        ensures settled { result.settled ≡ settled }
        ensures kept { result.kept ≡ kept }
        ensures size { result.size ≡ size }
        ensures backup { result.backup ≡ backup }
    {
        Walk {
            source_len: source.row_len(),
            target_len: target.row_len(),
            settled,
            kept,
            size,
            backup,
        }
    }

    // Where a sector lives.
    pub fn home(&self, sector: u64) -> Home
        ensures { result ≡ home_of self.now.source_len self.now.target_len self.now.settled self.now.kept sector }
    {
        if self.is_settled(sector) {
            Home::Target
        } else if self.is_kept(sector) {
            Home::Backup
        } else {
            Home::Source
        }
    }

    // Whether a sector lies in the settled target rows; by its row, since their end may be no number of 64 bits.
    #[tactic(auto, using(crate::proofs::Homes::row_below))]
    fn is_settled(&self, sector: u64) -> bool
        ensures { result ≡ nat_lt sector (self.now.settled * self.now.target_len) }
    {
        sector / self.target_len < self.settled
    }

    // Whether a sector lies in the kept source rows.
    #[tactic(auto, using(crate::proofs::Homes::row_below))]
    fn is_kept(&self, sector: u64) -> bool
        ensures { result ≡ nat_lt sector (self.now.kept * self.now.source_len) }
    {
        sector / self.source_len < self.kept
    }

    // Whether every live source row is kept.
    pub fn all_kept(&self) -> bool
        ensures { Decides result (self.now.size ≤ self.now.kept * self.now.source_len) }
    {
        self.kept.saturating_mul(self.source_len) >= self.size
    }

    // Whether no more source rows are kept than are live.
    pub fn keeps_live(&self) -> bool
        ensures { Decides result (self.now.kept * self.now.source_len < self.now.size + self.now.source_len) }
    {
        self.kept == 0 || (self.kept - 1).saturating_mul(self.source_len) < self.size
    }

    // How many sectors stand in backup slots once so many source rows are kept.
    pub fn window(&self, kept: u64) -> u64
        ensures { result ≡ window_of self.now.source_len self.now.target_len self.now.settled self.now.size kept }
    {
        let end = kept.saturating_mul(self.source_len).min(self.size);
        end.saturating_sub(self.settled_end())
    }

    // The sectors of the next source row that are to be kept: those below the size that lie in no settled row.
    pub fn next_kept(&self) -> Range<u64>
        ensures { KeepSpan self.now.source_len self.now.target_len self.now.settled self.now.kept self.now.size result.start result.end }
    {
        let first = self.kept.saturating_mul(self.source_len);
        let end = self.kept.saturating_add(1).saturating_mul(self.source_len);
        first.max(self.settled_end())..end.min(self.size)
    }

    // How many sectors stand in backup slots once the next source row is kept. Not `window` of one more: there is none more than the
    // greatest number, and the row's own end is exact there too.
    pub fn next_window(&self) -> u64
        ensures { result ≡ window_of self.now.source_len self.now.target_len self.now.settled self.now.size (self.now.kept + 1) }
    {
        self.next_kept().end.saturating_sub(self.settled_end())
    }

    // The sectors of a target row.
    pub fn target_row(&self, row: u64) -> Range<u64>
        ensures { (row + 1) * self.now.target_len < 2 ^ 64 → (result.start ≡ row * self.now.target_len) × (result.end ≡ (row + 1) * self.now.target_len) }
    {
        row.saturating_mul(self.target_len)..row.saturating_add(1).saturating_mul(self.target_len)
    }

    // The end of the settled rows.
    fn settled_end(&self) -> u64
        ensures { result ≡ min (self.now.settled * self.now.target_len) (2 ^ 64 - 1) }
    {
        self.settled.saturating_mul(self.target_len)
    }
}
