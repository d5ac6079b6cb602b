// Sectors in a run of bytes. That a sector lies in the run is asked of each caller: a run that is written is a slice, which has no field to carry it.
ghost use Rattle.std.specs.Prelude.{◌≡◌, ◌+◌, ◌*◌, ◌≤◌, length, if◌then◌else◌};
ghost use Rattle.shelf.specs.Runs.{Chosen, RunHasSector, Pulled, chosen_bit, sector_at, sector_put};
ghost use Rattle.sector.specs.declared.TheConstants.{SECTOR};

use crate::extent::Column;
use sector::{SECTOR, Sector};

// Sector `at` of the run.
pub(crate) fn sector_at(run: &[u8], at: usize) -> &Sector
    requires { RunHasSector run.now at }
    ensures { result.now ≡ sector_at run.now at }
{
    run[at * SECTOR..].first_chunk().unwrap()
}

// Copies a content into sector `at` of the run.
pub(crate) fn store(run: &mut [u8], at: usize, content: &Sector)
    requires { RunHasSector run.old at }
    ensures { run.new ≡ sector_put run.old at content.now }
{
    let from = at * SECTOR;
    run[from..from + SECTOR].copy_from_slice(content);
}

// Copies one sector of the run over another.
fn copy(run: &mut [u8], from: usize, to: usize)
    requires from { RunHasSector run.old from }
    requires to { RunHasSector run.old to }
    ensures { run.new ≡ sector_put run.old to (sector_at run.old from) }
{
    let content = *sector_at(run, from);
    store(run, to, &content);
}

// Copies the sectors of a column from the second image into the first.
pub(crate) fn pull(run: &mut [u8], column: Column)
    requires { (column.image + column.end) * SECTOR ≤ length run.old }
    ensures { Pulled column.image column.start column.end run.old run.new }
{
    for at in column.start..column.end {
        copy(run, column.image + at, at);
    }
}

// Whether the choice word takes what is current in a sector.
fn takes_current(choice: u32, at: usize) -> bool
    ensures { result ≡ chosen_bit choice at }
{
    choice >> (at % 32) as u32 & 1 == 1
}

// Makes a sector and the one `image` sectors further on one, by the choice word.
fn choose_one(run: &mut [u8], choice: u32, image: usize, at: usize)
    requires here { RunHasSector run.old at }
    requires there { RunHasSector run.old (image + at) }
    ensures { run.new ≡ (if chosen_bit choice at then sector_put run.old at (sector_at run.old (image + at)) else sector_put run.old (image + at) (sector_at run.old at)) }
{
    if takes_current(choice, at) {
        copy(run, image + at, at);
    } else {
        copy(run, at, image + at);
    }
}

// Makes each of the sectors of a column one with the one in the other image.
pub(crate) fn choose(run: &mut [u8], choice: u32, column: Column)
    requires { (column.image + column.end) * SECTOR ≤ length run.old }
    ensures { Chosen choice column.image column.start column.end run.old run.new }
{
    for at in column.start..column.end {
        choose_one(run, choice, column.image, at);
    }
}
