// Places that differ from a fresh placement.
ghost use Rattle.std.specs.Prelude.{◌≡◌, ◌<◌, ◌≤◌, false};
ghost use Rattle.model.specs.Crew.{count};
ghost use Rattle.model.specs.Contents.{gathered, padded};
ghost use Rattle.oracle.specs.Showing.{shown};
ghost use Rattle.oracle.specs.Looks.{FreshAt};
ghost use Rattle.model.specs.Strays.{is_misplaced, misplaced_count};

use crate::disk::Disk;
use crate::first::count_below;
use crate::look::View;
use layout::place::{Owner, Place};
use layout::{Layout, MOST_DEPTH};
use sector::{Sector, fold, zeros};
use shelf::Shelf;
use shelf::image::Image;

// What a fresh placement has at a place; None where nothing is placed.
fn fresh_at<S: Image, L: Layout>(view: &View<S, L>, disk: &Disk, place: Place) -> Option<Sector>
    ensures { FreshAt (L.Layout.geometry view.now.layout.now) (shown disk.now) ((L.Layout.geometry view.now.layout.now).owner place) result }
{
    match view.layout.owner(place) {
        Owner::Datum { sector, .. } => Some(disk.sector(sector)),
        Owner::Parity { group } => Some(fresh_parity(view.layout, disk, group)),
        Owner::Nobody => None,
    }
}

// The parity of a group, from the disk.
fn fresh_parity<L: Layout>(layout: &L, disk: &Disk, group: u64) -> Sector
    requires { group < (L.Layout.geometry layout.now).groups }
    ensures { result ≡ gathered (λ b. false) (λ b. padded (shown disk.now).size (shown disk.now).content ((L.Layout.geometry layout.now).peer group b)) ((L.Layout.geometry layout.now).peers group) }
{
    let mut parity = zeros();
    for index in 0..layout.peers(group) {
        fold(&mut parity, &disk.sector(layout.peer(group, index)));
    }
    parity
}

// Whether a used place is there and differs.
fn is_misplaced<S: Image, L: Layout>(view: &View<S, L>, disk: &Disk, place: Place) -> bool
    ensures { result ≡ is_misplaced (L.Layout.geometry view.now.layout.now) (S.Shelf.meaning view.now.shelf.now) view.now.backup (shown disk.now) place.0 place.1 }
{
    // A match: a closure would ask its place to be shallow again, which is known from the answer.
    match fresh_at(view, disk, place) {
        Some(content) => view.place_differs(place, &content),
        None => false,
    }
}

// The places of a member that differ.
fn misplaced_on<S: Image, L: Layout>(view: &View<S, L>, disk: &Disk, member: u64) -> u64
    ensures count { result ≡ count (is_misplaced (L.Layout.geometry view.now.layout.now) (S.Shelf.meaning view.now.shelf.now) view.now.backup (shown disk.now) member) (L.Layout.geometry view.now.layout.now).depth }
    ensures bound { result ≤ MOST_DEPTH }
{
    count_below(view.layout.depth(), |offset| {
        is_misplaced(view, disk, (member, offset))
    })
}

// How many used places that are there differ from a fresh placement of the disk.
pub fn misplaced<S: Image, L: Layout>(shelf: &S, layout: &L, backup: u32, disk: &Disk) -> u64
    ensures { result ≡ misplaced_count (L.Layout.geometry layout.now) (S.Shelf.meaning shelf.now) backup (shown disk.now) }
{
    let view = View {
        shelf,
        layout,
        backup,
    };
    (0..layout.members())
        .map(|member| misplaced_on(&view, disk, member))
        .sum()
}
