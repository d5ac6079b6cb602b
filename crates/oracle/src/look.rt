// What a shelf shows of a volume's sectors, looked at without an operation. Where the body and the slots lie is said here anew, and not
// taken from the stages, which are judged by it.
ghost use Rattle.std.specs.Prelude.{◌≡◌, ◌<◌, ◌≤◌, cond, nat_eq, MatchOption};
ghost use Rattle.std.specs.Int.NonZero.{non_zero_u32_get};
ghost use Rattle.std.specs.Str.{bytes_eq};
ghost use Rattle.sector.specs.Folds.{folded};
ghost use Rattle.layout.specs.Geometry.{capacity};
ghost use Rattle.model.specs.Contents.{at, differs, group_gone, group_shows_other, held, held_other, layout_shows_other, on_shelf, rebuilt, slot_shows_other};
ghost use Rattle.oracle.specs.Looks.{NoGroup, Seen};

use crate::first::some_below;
use head::SLOTS_AT;
use layout::place::Place;
use layout::{Layout, MOST_DEPTH};
use sector::{Sector, fold, zeros};
use shelf::Shelf;
use shelf::image::Image;
use std::num::NonZeroU32;

// What a member holds in a sector; None past its end.
fn held_at<S: Image>(shelf: &S, at: Place) -> Option<Sector>
    ensures { Seen (S.Shelf.meaning shelf.now) at.0 at.1 result }
{
    shelf.current(at.0, at.1)
}

// Whether a member is there and holds another content in a sector.
fn holds_other<S: Image>(shelf: &S, at: Place, content: &Sector) -> bool
    ensures { result ≡ held_other (S.Shelf.meaning shelf.now) content.now at.0 at.1 }
{
    // A match: with a closure in `is_none_or` the proof did not close, as what it answers was not read off its body.
    shelf.is_present(at.0)
        && match held_at(shelf, at) {
            Some(held) => !is_equal(&held, content),
            None => true,
        }
}

// `==`, by the test that the definitions of both callers make.
fn is_equal(one: &Sector, other: &Sector) -> bool
    ensures { result ≡ bytes_eq one.now other.now }
{
    *one == *other
}

// Folds what a member holds in a sector into a content.
fn fold_held<S: Image>(shelf: &S, at: Place, content: &mut Sector)
    ensures { content.new ≡ folded content.old (held (S.Shelf.meaning shelf.now) at.0 at.1) }
{
    if let Some(held) = held_at(shelf, at) {
        fold(content, &held);
    }
}

// Whether the backup slot of a sector shows another content than this one.
pub(crate) fn backup_differs<S: Image>(
    shelf: &S,
    backup: NonZeroU32,
    content: &Sector,
    sector: u64,
) -> bool
    ensures { result ≡ slot_shows_other (S.Shelf.meaning shelf.now) (non_zero_u32_get backup) content.now sector }
{
    let members = shelf.members();
    let slot = SLOTS_AT + sector % u64::from(backup.get());
    if some_below(members, |member| shelf.is_present(member)) {
        some_below(members, |member| {
            holds_other(shelf, (member, slot), content)
        })
    } else {
        true
    }
}

// A shelf looked at as a layout has it, after so many backup slots.
#[derive(Drop)]
pub(crate) struct View<'a, S, L> {
    pub(crate) shelf: &'a S,
    pub(crate) layout: &'a L,
    pub(crate) backup: u32,
}

impl<'a, S: Image, L: Layout> View<'a, S, L> {
    // Where on the shelf a place of the layout lies: the body begins after the backup slots.
    fn on_shelf(&self, place: Place) -> Place
        requires { place.1 ≤ MOST_DEPTH }
        ensures { result ≡ on_shelf self.now.backup place }
    {
        let body = SLOTS_AT + u64::from(self.backup);
        (place.0, body + place.1)
    }

    // Where on the shelf a copy of a sector lies.
    fn copy(&self, sector: u64, copy: u64) -> Place
        ensures { sector < capacity (L.Layout.geometry self.now.layout.now) → copy < (L.Layout.geometry self.now.layout.now).copies → result ≡ on_shelf self.now.backup ((L.Layout.geometry self.now.layout.now).datum sector copy) }
    {
        self.on_shelf(self.layout.place(sector, copy))
    }

    // Whether a place that is there holds another content.
    pub(crate) fn place_differs(&self, place: Place, content: &Sector) -> bool
        requires { place.1 ≤ MOST_DEPTH }
        ensures { result ≡ differs (S.Shelf.meaning self.now.shelf.now) self.now.backup content.now place }
    {
        holds_other(self.shelf, self.on_shelf(place), content)
    }

    // The group of a sector, if there is one.
    fn group(&self, sector: u64) -> Option<Group<'a, S, L>>
        ensures { MatchOption result (NoGroup (L.Layout.geometry self.now.layout.now) sector) (λ g. (g.view ≡ self.now) × (g.number ≡ (L.Layout.geometry self.now.layout.now).group sector)) }
    {
        let number = self.layout.group(sector)?;
        Some(Group {
            view: View { ..*self },
            number,
        })
    }

    // Whether the group of a sector gives another content, or none.
    fn group_differs(&self, content: &Sector, sector: u64) -> bool
        requires { sector < capacity (L.Layout.geometry self.now.layout.now) }
        ensures { result ≡ group_shows_other (L.Layout.geometry self.now.layout.now) (S.Shelf.meaning self.now.shelf.now) self.now.backup content.now sector }
    {
        self.group(sector).is_none_or(|group| group.is_gone(sector)
            || !is_equal(&group.rebuilt(sector), content))
    }

    // Whether a layout's places show another content than this one.
    pub(crate) fn differs(&self, content: &Sector, sector: u64) -> bool
        ensures { result ≡ layout_shows_other (L.Layout.geometry self.now.layout.now) (S.Shelf.meaning self.now.shelf.now) self.now.backup content.now sector }
    {
        if sector >= self.layout.capacity() {
            return true;
        }
        let copies = self.layout.copies();
        if some_below(copies, |copy| {
            self.shelf.is_present(self.layout.place(sector, copy).0)
        }) {
            some_below(copies, |copy| {
                holds_other(self.shelf, self.copy(sector, copy), content)
            })
        } else {
            self.group_differs(content, sector)
        }
    }
}

// A group of the layout, by its number.
#[derive(Drop)]
pub(crate) struct Group<'a, S, L: Layout> {
    view: View<'a, S, L>,
    number: u64,
    ghost inside: { number < (L.Layout.geometry view.layout.now).groups },
}

impl<S: Image, L: Layout> Group<'_, S, L> {
    // Whether the group cannot give a sector: another peer is gone, or the parity.
    fn is_gone(&self, sector: u64) -> bool
        ensures { result ≡ group_gone (L.Layout.geometry self.now.view.layout.now) (S.Shelf.meaning self.now.view.shelf.now) self.now.number sector }
    {
        let View { shelf, layout, .. } = self.view;
        some_below(layout.peers(self.number), |index| {
            let peer = layout.peer(self.number, index);
            peer != sector && !shelf.is_present(layout.place(peer, 0).0)
        }) || !shelf.is_present(layout.parity(self.number).0)
    }

    // What the rest of the group makes a sector: its other peers and its parity, folded.
    fn rebuilt(&self, sector: u64) -> Sector
        ensures { result ≡ rebuilt (L.Layout.geometry self.now.view.layout.now) (S.Shelf.meaning self.now.view.shelf.now) self.now.view.backup self.now.number sector }
    {
        let view = &self.view;
        let mut content = zeros();
        for index in 0..view.layout.peers(self.number) {
            self.fold_peer(sector, index, &mut content);
        }
        let parity = view.on_shelf(view.layout.parity(self.number));
        fold_held(view.shelf, parity, &mut content);
        content
    }

    // Folds a peer into a content, unless it is the sector itself.
    fn fold_peer(&self, sector: u64, index: u64, content: &mut Sector)
        requires { index < (L.Layout.geometry self.now.view.layout.now).peers self.now.number }
        ensures { content.new ≡ cond (nat_eq ((L.Layout.geometry self.now.view.layout.now).peer self.now.number index) sector) content.old (folded content.old (at (S.Shelf.meaning self.now.view.shelf.now) self.now.view.backup ((L.Layout.geometry self.now.view.layout.now).datum ((L.Layout.geometry self.now.view.layout.now).peer self.now.number index) 0))) }
    {
        let peer = self.view.layout.peer(self.number, index);
        if peer != sector {
            fold_held(self.view.shelf, self.view.copy(peer, 0), content);
        }
    }
}
