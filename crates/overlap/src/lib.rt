// How far a move's target overlaps its source: which source rows have to be kept before a target row may be written.
#![tactic(auto)]

ghost use Rattle.std.specs.Prelude.{◌≡◌, ℕ, ◌+◌, ◌-◌, ◌*◌, ◌/◌, ◌<◌, ◌≤◌};
ghost use Rattle.layout.specs.Geometry.{capacity};
ghost use Rattle.overlap.specs.Homes.{window_of};
ghost use Rattle.overlap.specs.Needs.{distance_of, need_by_led, most, need_of, need_by_place, reach_of, need_by_row, need_by_sector};
ghost use Rattle.overlap.specs.Rows.{Highest, LiveRows, NeedIsHighest, NeedIsLive, OneHighest};

pub mod walk;

use layout::place::{Owner, Place};
use layout::{Layout, led_group};
use std::ops::Range;
use walk::Walk;

// How many source rows are live, that is, have their first sector below the size.
pub fn live_rows<L: Layout>(source: &L, size: u64) -> u64
    ensures rows { LiveRows (L.Layout.geometry source.now) size result }
    ensures bound { result ≤ size }
{
    size.div_ceil(source.row_len())
}

// The layouts and the size go through these functions as arguments: the public ones are asked so, and a struct of the three would be made
// anew in each.

// The need of a target row: one more than the highest live source row that shares a place with it, parity places too, or 0.
// So it is at most the number of live rows.
pub fn need<Old: Layout, New: Layout>(source: &Old, target: &New, size: u64, row: u64) -> u64
    ensures value { result ≡ need_of (Old.Layout.geometry source.now) (New.Layout.geometry target.now) size row }
    ensures highest { Highest (Old.Layout.geometry source.now) (New.Layout.geometry target.now) size row result }
    ensures live { (k : ℕ) → LiveRows (Old.Layout.geometry source.now) size k → result ≤ k }
{
    if row >= target.rows() {
        return 0;
    }
    let len = target.row_len();
    let first = row * len;
    greatest(first..first + len, |sector| {
        sector_need(source, target, size, sector)
    })
}

// What the need is, for every two lawful layouts: the one number that is one more than the highest live source row that shares a place
// with the target row, or 0 where none does.
#[tactic(auto, using(crate::proofs::Sharing::highest, crate::proofs::Sharing::one_highest, crate::proofs::Sharing::live_need))]
pub fn need_is_highest()
    ensures highest { NeedIsHighest }
    ensures one { OneHighest }
    ensures live { NeedIsLive }
{}

// The reach of a target row: the greatest need of the rows up to it. It never falls from row to row.
pub fn reach<Old: Layout, New: Layout>(source: &Old, target: &New, size: u64, row: u64) -> u64
    ensures value { result ≡ reach_of (Old.Layout.geometry source.now) (New.Layout.geometry target.now) size row }
    ensures rises { (k : ℕ) → row ≤ k → result ≤ reach_of (Old.Layout.geometry source.now) (New.Layout.geometry target.now) size k }
{
    greatest(0..row.saturating_add(1).min(target.rows()), |at| {
        need(source, target, size, at)
    })
}

// The overlap distance: the most sectors that have to be kept at once, over all target rows of the move.
// So many slots are enough for the next source row whenever the next target row still needs it.
pub fn distance<Old: Layout, New: Layout>(source: &Old, target: &New, size: u64) -> u64
    ensures value { result ≡ distance_of (Old.Layout.geometry source.now) (New.Layout.geometry target.now) size }
    ensures enough { (p q : ℕ) → q < need_of (Old.Layout.geometry source.now) (New.Layout.geometry target.now) size p → window_of (Old.Layout.geometry source.now).row_len (New.Layout.geometry target.now).row_len p size (q + 1) ≤ result }
{
    let mut reach: u64 = 0;
    let mut most: u64 = 0;
    // The reach is carried on from row to row: asked anew, it would take all the rows before again.
    for row in 0..target.rows() {
        reach = reach.max(need(source, target, size, row));
        let walk = Walk::of(source, target, row, reach, size, 0);
        most = most.max(walk.window(reach));
    }
    most
}

// What one target sector needs: its copies, and the parity of its group where it leads one.
fn sector_need<Old: Layout, New: Layout>(source: &Old, target: &New, size: u64, sector: u64) -> u64
    ensures { sector < capacity (New.Layout.geometry target.now) → result ≡ need_by_sector (Old.Layout.geometry source.now) (New.Layout.geometry target.now) size sector }
{
    greatest(0..target.copies(), |copy| {
        place_need(source, size, target.place(sector, copy))
    })
    .max(parity_need(source, target, size, sector))
}

// What the parity of the group needs that a target sector leads, or 0.
fn parity_need<Old: Layout, New: Layout>(source: &Old, target: &New, size: u64, sector: u64) -> u64
    ensures { sector < capacity (New.Layout.geometry target.now) → result ≡ need_by_led (Old.Layout.geometry source.now) (New.Layout.geometry target.now) size sector }
{
    led_group(target, sector).map_or(0, |group| {
        place_need(source, size, target.parity(group))
    })
}

// The greatest of what `ask` answers in a range, or 0. A loop, since `map` and `max` took six times as long in `distance`.
fn greatest<F: Fn(u64) -> u64>(range: Range<u64>, ask: F) -> u64
    requires { F.IsAlwaysCallable ask }
    ensures { (h : ℕ → ℕ) → ((i y : ℕ) → i < range.end - range.start → F.post ask (range.start + i) y → y ≡ h i) → result ≡ most h (range.end - range.start) }
{
    let mut most: u64 = 0;
    for number in range.start..range.end {
        most = most.max(ask(number));
    }
    most
}

// One more than the live source row that has this place, or 0.
fn place_need<Old: Layout>(source: &Old, size: u64, place: Place) -> u64
    ensures { result ≡ need_by_place (Old.Layout.geometry source.now) size place }
{
    match source.owner(place) {
        Owner::Datum { sector, .. } => row_need(source, size, sector),
        Owner::Parity { group } => row_need(source, size, source.peer(group, 0)),
        Owner::Nobody => 0,
    }
}

// One more than the row of a source sector, if it is live, else 0.
fn row_need<Old: Layout>(source: &Old, size: u64, sector: u64) -> u64
    requires { sector < capacity (Old.Layout.geometry source.now) }
    ensures { result ≡ need_by_row (Old.Layout.geometry source.now) size (sector / (Old.Layout.geometry source.now).row_len) }
{
    let len = source.row_len();
    let row = sector / len;
    if row * len < size { row + 1 } else { 0 }
}
