// The counts by which a volume is held to the flat disk.
ghost use Rattle.std.specs.Prelude.{◌≡◌, ◌≤◌, MatchOption};
ghost use Rattle.std.specs.Int.NonZero.{non_zero_u32_get};
ghost use Rattle.model.specs.Contents.{home_shows_other, home_in};
ghost use Rattle.model.specs.Disks.{filled};
ghost use Rattle.oracle.specs.Showing.{shown};
ghost use Rattle.model.specs.Strays.{is_stray, same_phase, same_told, stray_below, stray_count};

use crate::disk::Disk;
use crate::first::count_below;
use crate::look::{self, View};
use layout::Layout;
use model::phase::Phase;
use model::told::Told;
use overlap::walk::{Home, Walk};
use sector::Sector;
use shelf::Shelf;
use shelf::image::Image;
use std::num::NonZeroU32;

// A shelf with the two layouts of a volume, after so many backup slots.
#[derive(Drop)]
struct Laid<'a, S, L> {
    shelf: &'a S,
    source: &'a L,
    target: &'a L,
    backup: NonZeroU32,
}

impl<'a, S: Image, L: Layout> Laid<'a, S, L> {
    // The shelf as one of the layouts has it.
    fn view(&self, layout: &'a L) -> View<'a, S, L>
        ensures shelf { result.shelf.now ≡ self.now.shelf.now }
        ensures layout { result.layout.now ≡ layout.now }
        ensures backup { result.backup ≡ non_zero_u32_get self.now.backup }
    {
        View {
            shelf: self.shelf,
            layout,
            backup: self.backup.get(),
        }
    }

    // Where a sector of the disk lives: by the disk, and not by the array's own answer, which is judged by it.
    fn home(&self, disk: &Disk, sector: u64) -> Home
        ensures { result ≡ home_in disk.now.phase (L.Layout.geometry self.now.source.now) (L.Layout.geometry self.now.target.now) disk.now.settled disk.now.kept sector }
    {
        match disk.phase() {
            Phase::Before | Phase::Shut(_) => Home::Source,
            Phase::After => Home::Target,
            Phase::Moving => {
                let (settled, kept) = (disk.settled(), disk.kept());
                Walk::of(self.source, self.target, settled, kept, disk.size(), 1).home(sector)
            }
        }
    }

    // Whether the shelf shows another content than this at a sector's home.
    fn home_differs(&self, home: Home, content: &Sector, sector: u64) -> bool
        ensures { result ≡ home_shows_other home (L.Layout.geometry self.now.source.now) (L.Layout.geometry self.now.target.now) (S.Shelf.meaning self.now.shelf.now) (non_zero_u32_get self.now.backup) content.now sector }
    {
        match home {
            Home::Source => self.view(self.source).differs(content, sector),
            Home::Target => self.view(self.target).differs(content, sector),
            Home::Backup => look::backup_differs(self.shelf, self.backup, content, sector),
        }
    }

    // Whether a sector is not shown as the disk has it; from its size on the disk has zeros.
    fn is_stray(&self, disk: &Disk, sector: u64) -> bool
        ensures { result ≡ is_stray (L.Layout.geometry self.now.source.now) (L.Layout.geometry self.now.target.now) (S.Shelf.meaning self.now.shelf.now) (non_zero_u32_get self.now.backup) (filled (shown disk.now)) sector }
    {
        let home = self.home(disk, sector);
        self.home_differs(home, &disk.sector(sector), sector)
    }

    // How many sectors are not shown as the disk has them.
    fn stray_sectors(&self, disk: &Disk) -> u64
        ensures value { result ≡ stray_below (L.Layout.geometry self.now.source.now) (L.Layout.geometry self.now.target.now) (S.Shelf.meaning self.now.shelf.now) (non_zero_u32_get self.now.backup) (shown disk.now) (shown disk.now).size }
        ensures bound { result ≤ (shown disk.now).size }
    {
        count_below(disk.size(), |sector| self.is_stray(disk, sector))
    }
}

// Not the derived equality: a shut volume shows no phase, so two of them show no same one.
fn is_same_phase(one: Phase, other: Phase) -> bool
    ensures { result ≡ same_phase one other }
{
    match (one, other) {
        (Phase::Before, Phase::Before)
        | (Phase::Moving, Phase::Moving)
        | (Phase::After, Phase::After) => true,
        _ => false,
    }
}

// Whether a volume tells of itself what the disk has. Field by field, for the phase's sake.
fn tells_same(told: &Told, disk: &Disk) -> bool
    ensures { result ≡ same_told told.now (shown disk.now) }
{
    (told.size == disk.size() && is_same_phase(told.phase, disk.phase()))
        && (told.settled == disk.settled()
            && (told.kept == disk.kept() && told.hand == disk.hand()))
}

// The stray count: the sectors that the shelf shows otherwise than the disk, and one more if the volume tells otherwise.
// There is none without backup slots.
pub fn strays<S: Image, L: Layout>(
    shelf: &S,
    source: &L,
    target: &L,
    backup: u32,
    told: &Told,
    disk: &Disk,
) -> Option<u64>
    ensures { MatchOption result (backup ≡ 0) (λ n. n ≡ stray_count (L.Layout.geometry source.now) (L.Layout.geometry target.now) (S.Shelf.meaning shelf.now) backup told.now (shown disk.now)) }
{
    let laid = Laid {
        shelf,
        source,
        target,
        backup: NonZeroU32::new(backup)?,
    };
    let sectors = laid.stray_sectors(disk);
    Some(sectors + u64::from(!tells_same(told, disk)))
}
