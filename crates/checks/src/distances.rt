// How far moves overlap, where a sector lives half-way, and whole moves.
use crate::setup::{Ends, far, near, parity, striped, walk_on, wider, wrong};
use answer::{Refusal, Refused};
use kinds::stock::Stock;
use layout::Layout;
use overlap::walk::{Home, Walk};
use overlap::{distance, need, reach};
use shelf::plain::PlainShelf;
use std::process::Abort;
use std::test::Fail;
use volume::{Finished, Volume};

// parity on 3 members, chunk 1 to 2
fn coarser() -> Result<Ends, Refusal> {
    Ends::new(parity(3, 1, 4), parity(3, 2, 4))
}

// stripes, 3 members to 2
fn fewer() -> Result<Ends, Refusal> {
    Ends::new(striped(3, 1, 6), striped(2, 1, 6))
}

// near copies on 4 members to far copies on 3
fn mirrored() -> Result<Ends, Refusal> {
    Ends::new(near(4, 2, 2, 8), far(3, 2, 1, 12))
}

// near copies on 3 members to parity, of which only the parity lies on source row 1
fn to_parity() -> Result<Ends, Refusal> {
    Ends::new(near(3, 2, 1, 2), parity(3, 1, 1))
}

// The distance of a move of so many sectors; and of these target rows the need and the reach.
fn overlap(rt: &impl Abort, ends: Ends, size: u64, due: u64, rows: &[(u64, u64, u64)]) {
    let Ends { source, target } = ends;
    assert_eq!(rt; distance(&source, &target, size), due);
    for &(row, needed, reached) in rows {
        assert_eq!(rt;
            (
                row,
                need(&source, &target, size, row),
                reach(&source, &target, size, row),
            ),
            (row, needed, reached)
        );
    }
}

#[test]
fn overlaps(rt: HostRuntime) -> Result<(), Fail> {
    overlap(&rt, wider(8)?, 16, 2, &[(0, 1, 1)]);
    overlap(&rt, wider(8)?, 0, 0, &[(0, 0, 0)]);
    overlap(&rt, coarser()?, 8, 4, &[(0, 2, 2)]);
    overlap(&rt, coarser()?, 0, 0, &[(0, 0, 0)]);
    // of the first row alone the distance would be 1 row of 3 sectors, not 6
    let rows = [
        (0, 1, 1),
        (1, 2, 2),
        (2, 3, 3),
        (3, 4, 4),
        (4, 0, 4),
        (5, 0, 4),
        (6, 0, 4),
    ];
    overlap(&rt, fewer()?, 12, 6, &rows);
    overlap(&rt, fewer()?, 0, 0, &[(0, 0, 0)]);
    overlap(&rt, to_parity()?, 2, 2, &[(0, 2, 2)]);
    overlap(&rt, to_parity()?, 1, 1, &[(0, 1, 1)]);
    Ok(())
}

// Parity, 3 members to 4, with 1 row settled and 2 kept.
#[test]
fn homes(rt: HostRuntime) {
    let walk = Walk {
        source_len: 2,
        target_len: 3,
        settled: 1,
        kept: 2,
        size: 16,
        backup: 2,
    };
    assert_eq!(rt;
        [walk.home(2), walk.home(3), walk.home(4), walk.home(15)],
        [Home::Target, Home::Backup, Home::Source, Home::Source]
    );
}

// what a whole move tells, and how many sectors are wrong at its end and once it is opened anew
#[derive(Clone, Copy, PartialEq, Eq, Debug)]
struct Moved {
    distance: u64,
    counts: Finished,
    ended_wrong: usize,
    opened_wrong: usize,
}

impl Moved {
    // Makes a whole move.
    fn of(ends: Ends, mut volume: Volume<PlainShelf, Stock>) -> Result<Moved, Refused> {
        let distance = volume.begin()?;
        walk_on(&mut volume, ends.target.rows())?;
        let counts = volume.finish()?;
        let ended_wrong = wrong(&mut volume);
        let (mut opened, _) = ends.turned().open(volume.into_shelf());
        Ok(Moved {
            distance,
            counts,
            ended_wrong,
            opened_wrong: wrong(&mut opened),
        })
    }
}

// A move that goes well.
fn due(distance: u64, rows: u64, kept: u64) -> Result<Moved, Refusal> {
    Ok(Moved {
        distance,
        counts: Finished { rows, kept },
        ended_wrong: 0,
        opened_wrong: 0,
    })
}

// With as many slots as the distance, and with one less.
#[test]
fn whole_moves(rt: HostRuntime) -> Result<(), Fail> {
    for (ends, backup, size, due) in [
        (wider(8)?, 2, 16, due(2, 8, 8)),
        (wider(8)?.turned(), 7, 16, due(7, 8, 6)),
        (coarser()?, 4, 8, due(4, 2, 4)),
        (coarser()?, 3, 8, Err(Refusal::DistanceAboveBackup)),
        (fewer()?, 6, 12, due(6, 6, 4)),
        (fewer()?, 5, 12, Err(Refusal::DistanceAboveBackup)),
        (mirrored()?, 16, 16, due(16, 6, 8)),
    ] {
        let volume = ends.filled(PlainShelf::blank(rt.alloc(), 4, 31)?, backup, size)?;
        let moved = Moved::of(ends, volume).map_err(|refused| refused.refusal);
        assert_eq!(rt; moved, due);
    }
    Ok(())
}
