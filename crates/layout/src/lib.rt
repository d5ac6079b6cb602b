// Layouts: where the sectors of a volume lie on the members of a shelf.
#![tactic(auto)]

ghost use Rattle.std.specs.Prelude.{◌≡◌, ◌<◌};
ghost use Rattle.layout.specs.Geometry.{Geometry, GroupAt, LedAt, Only, capacity as room};
ghost use Rattle.layout.specs.Labels.{true_label};
ghost use Rattle.layout.specs.Lawful.{Lawful};
ghost use Rattle.layout.specs.declared.label.Label.{Label};

pub mod kind;
pub mod label;
pub mod limits;
pub mod place;

use label::Label;
use place::{Owner, Place};

pub const MOST_DEPTH: u64 = 16_777_216;

pub const MOST_CAPACITY: u64 = 268_435_456;

// the longest chunk of a stock kind, in sectors
pub const MOST_CHUNK: u64 = 2_048;

// the members of a stock kind with parity, and the copies of a stock kind with more than one
pub const FEWEST_WITH_PARITY: u64 = 3;

pub const FEWEST_COPIES: u64 = 2;

pub const MOST_COPIES: u64 = 4;

// A layout: every sector below the capacity has a place for each of its copies; with parity, every sector is in one group, and the
// group has a place for the exclusive-or of its peers. A customer's own layout implements this trait and has a label of kind 128 to 255.
//
// Every answer is defined: a place that is asked for a sector, copy or group out of range is (0, 0), a group None, a count 0.
// The numbers stand for none since each layout gives the same answer there, the laws speak of arguments in range alone, and callers ask in range.
pub trait Layout {
    // what it places where, and the name that a head has for it
    ghost geometry: { Self → Geometry };

    ghost named: { Self → Label };

    // The label by which a head names the layout.
    fn label(&self) -> Label
        ensures { result ≡ named self.now };

    // n, the members that it lies on: 0 to n - 1.
    fn members(&self) -> u64
        ensures { result ≡ (geometry self.now).members };

    // d, the used sectors of each member.
    fn depth(&self) -> u64
        ensures { result ≡ (geometry self.now).depth };

    // f, the copies of each sector.
    fn copies(&self) -> u64
        ensures { result ≡ (geometry self.now).copies };

    // t, how many of its members may be absent with every sector still to be had.
    fn loss(&self) -> u64
        ensures { result ≡ (geometry self.now).loss };

    // L, the sectors of a row; row r has those from r × L on.
    fn row_len(&self) -> u64
        ensures { result ≡ (geometry self.now).row_len };

    // R, the number of rows.
    fn rows(&self) -> u64
        ensures { result ≡ (geometry self.now).rows };

    // N = R × L, the sectors in all.
    fn capacity(&self) -> u64
        ensures { result ≡ room (geometry self.now) };

    // Where a copy of a sector lies.
    fn place(&self, sector: u64, copy: u64) -> Place
        ensures { Only result ((sector < room (geometry self.now)) × (copy < (geometry self.now).copies)) ((geometry self.now).datum sector copy) (0, 0) };

    // The group of a sector, where the layout has parity.
    fn group(&self, sector: u64) -> Option<u64>
        ensures { GroupAt (geometry self.now) sector result };

    // How many sectors a group has.
    fn peers(&self, group: u64) -> u64
        ensures { Only result (group < (geometry self.now).groups) ((geometry self.now).peers group) 0 };

    // A sector of a group, counted from 0 in rising order.
    fn peer(&self, group: u64, index: u64) -> u64
        ensures { Only result ((group < (geometry self.now).groups) × (index < (geometry self.now).peers group)) ((geometry self.now).peer group index) 0 };

    // Where the parity of a group lies.
    fn parity(&self, group: u64) -> Place
        ensures { Only result (group < (geometry self.now).groups) ((geometry self.now).parity group) (0, 0) };

    // What lies at a place.
    fn owner(&self, place: Place) -> Owner
        ensures { result ≡ (geometry self.now).owner place };

    ghost lawful: { (x : Self) → Lawful (geometry x) };

    // A label names one layout.
    ghost one: { (x y : Self) → named x ≡ named y → geometry x ≡ geometry y };
}

// The group whose first peer is this sector: each group of a row is led by one sector of the row.
pub fn led_group<L: Layout>(layout: &L, sector: u64) -> Option<u64>
    ensures { LedAt (L.Layout.geometry layout.now) sector result }
{
    layout
        .group(sector)
        .filter(|&group| layout.peer(group, 0) == sector)
}

// Whether the layout's label is within the limits of its kind and has the layout's own members, copies and depth.
#[tactic(auto, unfolding(crate::specs::Labels::true_label))]
pub fn has_true_label<L: Layout>(layout: &L) -> bool
    ensures { result ≡ true_label (L.Layout.named layout.now) (L.Layout.geometry layout.now) }
{
    let label = layout.label();
    (label.is_in_limits() && u64::from(label.members) == layout.members())
        && (u64::from(label.copies) == layout.copies() && label.depth == layout.depth())
}
