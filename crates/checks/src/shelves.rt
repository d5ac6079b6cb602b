// The shelves themselves: the fuse, the choice word, losses and ranges.
use crate::setup::{Ends, answered, lies_at, pattern, striped};
use answer::Refusal;
use sector::{SECTOR, zeros};
use shelf::plain::PlainShelf;
use shelf::trial::{Cut, NEVER, TrialShelf};
use shelf::{Answer, Failure, Shelf};
use std::alloc::Global;
use std::test::Fail;

// Writes a version of sector 0 anywhere on a shelf.
fn put<S: Shelf>(shelf: &mut S, member: u64, sector: u64, version: u64) -> Answer {
    shelf.write(member, sector, &pattern(0, version))
}

// Whether a sector of a shelf is read as this version of sector 0.
fn holds<S: Shelf>(shelf: &mut S, member: u64, sector: u64, version: u64) -> bool {
    let mut content = zeros();
    shelf.read(member, sector, &mut content) == Ok(()) && content == pattern(0, version)
}

// Whether a read, a write and a flush all answer this, and the read leaves its buffer.
fn all_answer<S: Shelf>(shelf: &mut S, member: u64, sector: u64, due: Answer) -> bool {
    let old = pattern(0, 9);
    let mut content = old;
    shelf.read(member, sector, &mut content) == due
        && content == old
        && shelf.write(member, sector, &content) == due
        && shelf.flush(member) == due
}

// A fuse of 1 lets one write pass. The next is cut, and has reached the current image all the same; then nothing changes.
#[test]
fn fuse_cuts(rt: HostRuntime) -> Result<(), Fail> {
    let mut shelf = TrialShelf::blank(rt.alloc(), 2, 2)?;
    shelf.set_fuse(1);
    let answered = put(&mut shelf, 0, 0, 1) == Ok(())
        && put(&mut shelf, 0, 1, 2) == Err(Failure::Off);
    let off = answered && !shelf.is_on() && all_answer(&mut shelf, 0, 0, Err(Failure::Off));
    let run = shelf.into_bytes();
    // the durable image, then the current one
    assert!(rt;
        off && lies_at(&run, 0, 0)
            && lies_at(&run, 1, 0)
            && lies_at(&run, 4, 1)
            && lies_at(&run, 5, 2)
    );
    Ok(())
}

// With 20 sectors to a member, sectors 12 and 13 of member 1 have the bits of sectors 0 and 1 of member 0.
// Tells whether each comes out of a restart as it was written; what was flushed before is not at stake.
fn chosen(heap: Global, choice: u32) -> Result<[bool; 4], Fail> {
    let mut shelf = TrialShelf::blank(heap, 2, 20)?;
    put(&mut shelf, 0, 0, 1)?;
    shelf.flush(0)?;
    put(&mut shelf, 0, 1, 2)?;
    put(&mut shelf, 1, 12, 3)?;
    put(&mut shelf, 1, 13, 4)?;
    shelf.set_choice(choice);
    shelf.restart();
    Ok([
        holds(&mut shelf, 0, 0, 1),
        holds(&mut shelf, 0, 1, 2),
        holds(&mut shelf, 1, 12, 3),
        holds(&mut shelf, 1, 13, 4),
    ])
}

#[test]
fn choice_by_bit(rt: HostRuntime) -> Result<(), Fail> {
    for (choice, due) in [
        (0, [true, false, false, false]),
        (1, [true, false, true, false]),
        (2, [true, true, false, true]),
        (0xffff_ffff, [true, true, true, true]),
    ] {
        assert_eq!(rt; chosen(rt.alloc(), choice)?, due);
    }
    Ok(())
}

// A loss shows at the member's next operation, and the member stays as it was.
#[test]
fn losses_show(rt: HostRuntime) -> Result<(), Fail> {
    let mut shelf = TrialShelf::blank(rt.alloc(), 3, 2)?;
    put(&mut shelf, 1, 0, 1)?;
    let lost = shelf.lose(1).is_ok() && shelf.lose(3).is_err();
    let early = holds(&mut shelf, 0, 0, 0) && shelf.is_present(1);
    let late = all_answer(&mut shelf, 1, 0, Err(Failure::Absent))
        && !shelf.is_present(1)
        && shelf.is_present(2);
    shelf.restart();
    let run = shelf.into_bytes();
    // neither durable nor taken back
    assert_eq!(rt;
        [lost, early, late, lies_at(&run, 2, 0), lies_at(&run, 8, 1)],
        [true; 5]
    );
    Ok(())
}

// Whether all operations out of range are refused, on a shelf of 2 members with 3 sectors.
fn refuses_ranges<S: Shelf>(shelf: &mut S) -> bool {
    let out = Err(Failure::OutOfRange);
    let mut short = [7u8; SECTOR - 1];
    shelf.read(0, 0, &mut short) == out
        && shelf.write(0, 0, &short) == out
        && all_answer(shelf, 2, 0, out)
        && all_answer(shelf, u64::MAX, 0, out)
        && put(shelf, 0, 3, 1) == out
        && !holds(shelf, 0, 3, 0)
        && put(shelf, 1, u64::MAX, 1) == out
        && !holds(shelf, 1, u64::MAX, 0)
}

// What is out of range burns no fuse and changes nothing.
#[test]
fn ranges(rt: HostRuntime) -> Result<(), Fail> {
    let mut shelf = TrialShelf::blank(rt.alloc(), 2, 3)?;
    shelf.set_fuse(0);
    assert!(rt; refuses_ranges(&mut shelf) && shelf.is_on());
    let run = shelf.into_bytes();
    for at in 0..12usize {
        assert!(rt; lies_at(&run, at, 0));
    }
    Ok(())
}

// The members and sectors of a shelf and the bytes of its run, and whether they fit.
const SIZES: [(u64, u64, usize, Result<(), Refusal>); 11] = [
    (2, 1, 1024, Ok(())),
    (16, 1, 8192, Ok(())),
    (2, 33_554_432, 34_359_738_368, Ok(())),
    (2, 1, 1023, Err(Refusal::OutOfLimits)),
    (2, 1, 1025, Err(Refusal::OutOfLimits)),
    (2, 1, 0, Err(Refusal::OutOfLimits)),
    (1, 2, 1024, Err(Refusal::OutOfLimits)),
    (17, 1, 8704, Err(Refusal::OutOfLimits)),
    (2, 0, 0, Err(Refusal::OutOfLimits)),
    (2, 33_554_433, 34_359_739_392, Err(Refusal::OutOfLimits)),
    (u64::MAX, u64::MAX, 512, Err(Refusal::OutOfLimits)),
];

// Whether a run of so many bytes fits both shelves, in two images for the trial shelf.
#[test]
fn sizes(rt: HostRuntime) {
    for (members, sectors, count, due) in SIZES {
        assert_eq!(rt; PlainShelf::fits(members, sectors, count), due);
        assert_eq!(rt;
            TrialShelf::fits(members, sectors, count.saturating_mul(2)),
            due
        );
    }
}

// The shelf that is made all the same has 2 members without sectors; create and open refuse it.
#[test]
fn misfits(rt: HostRuntime) -> Result<(), Fail> {
    let ends = Ends::still(striped(2, 1, 1))?;
    for (members, sectors) in [(1, 2), (17, 1), (2, 33_554_433), (2, 0), (3, 1)] {
        let shelf = TrialShelf::new(
            members,
            sectors,
            TrialShelf::blank(rt.alloc(), 2, 1)?.into_bytes(),
        );
        assert_eq!(rt; (shelf.members(), shelf.sectors()), (2, 0));
        let (shut, created) = ends.create(shelf, 1, 0);
        let (_, opened) = ends.open(shut.into_shelf());
        assert_eq!(rt;
            [answered(created), answered(opened)],
            [Err(Refusal::OutOfLimits), Err(Refusal::NoHead)]
        );
    }
    Ok(())
}

// A shelf that is made of zeros has what was asked for; out of limits it has 2 members without sectors.
#[test]
fn blank_shelves(rt: HostRuntime) -> Result<(), Fail> {
    for (members, sectors, due) in [
        (2, 1, (2, 1)),
        (3, 2, (3, 2)),
        (1, 2, (2, 0)),
        (2, 0, (2, 0)),
    ] {
        let plain = PlainShelf::blank(rt.alloc(), members, sectors)?;
        assert_eq!(rt; (plain.members(), plain.sectors()), due);
        assert!(rt; plain.into_bytes().iter().all(|byte| *byte == 0));
        let trial = TrialShelf::blank(rt.alloc(), members, sectors)?;
        assert_eq!(rt; (trial.members(), trial.sectors()), due);
        assert_eq!(rt; (trial.fuse(), trial.choice()), (NEVER, 0));
        assert!(rt; trial.into_bytes().iter().all(|byte| *byte == 0));
    }
    Ok(())
}

// The sectors of a shelf of 2 members with 2 sectors, by the versions that are written there: each in its place of the run.
const PLACED: [(u64, u64, u64); 4] = [(0, 0, 1), (0, 1, 2), (1, 0, 3), (1, 1, 4)];

// A write to the plain shelf is durable at once: it is read, outlasts a restart, and lies in its place of the run. A shelf over
// that run has the same sectors.
#[test]
fn plain_keeps(rt: HostRuntime) -> Result<(), Fail> {
    let mut shelf = PlainShelf::blank(rt.alloc(), 2, 2)?;
    for (member, sector, version) in PLACED {
        put(&mut shelf, member, sector, version)?;
    }
    assert!(rt; shelf.flush(0) == Ok(()) && shelf.restart() && shelf.is_on());
    let run = shelf.into_bytes();
    for (at, (_, _, version)) in PLACED.iter().copied().enumerate() {
        assert!(rt; lies_at(&run, at, version));
    }
    let mut again = PlainShelf::new(2, 2, run);
    for (member, sector, version) in PLACED {
        assert!(rt; again.is_present(member) && holds(&mut again, member, sector, version));
    }
    assert!(rt; refuses_ranges(&mut PlainShelf::blank(rt.alloc(), 2, 3)?));
    Ok(())
}

// Each operation in range counts the fuse down, also one on an absent member. A fuse of never stays; a restart sets it to never and
// leaves the choice word.
#[test]
fn fuse_counts(rt: HostRuntime) -> Result<(), Fail> {
    let mut shelf = TrialShelf::blank(rt.alloc(), 2, 2)?;
    put(&mut shelf, 0, 0, 1)?;
    assert_eq!(rt; shelf.fuse(), NEVER);
    shelf.set_cut(Cut { fuse: 9, choice: 5 });
    shelf.lose(1)?;
    assert!(rt; holds(&mut shelf, 0, 0, 1) && shelf.flush(0) == Ok(()));
    assert!(rt; all_answer(&mut shelf, 1, 0, Err(Failure::Absent)));
    assert_eq!(rt; (shelf.fuse(), shelf.choice()), (4, 5));
    shelf.restart();
    assert_eq!(rt; (shelf.fuse(), shelf.choice()), (NEVER, 5));
    // a fuse one below never is one like others
    shelf.set_fuse(NEVER - 1);
    assert!(rt; shelf.flush(0) == Ok(()));
    assert_eq!(rt; shelf.fuse(), NEVER - 2);
    Ok(())
}

// What is cut: a flush settles nothing, a read leaves its buffer, and a loss at the same operation is there all the same.
#[test]
fn cut_operations(rt: HostRuntime) -> Result<(), Fail> {
    let mut shelf = TrialShelf::blank(rt.alloc(), 2, 1)?;
    put(&mut shelf, 0, 0, 1)?;
    shelf.set_fuse(0);
    assert!(rt; shelf.flush(0) == Err(Failure::Off) && shelf.restart());
    assert!(rt; holds(&mut shelf, 0, 0, 0));
    let old = pattern(0, 9);
    let mut content = old;
    shelf.set_fuse(0);
    assert!(rt; shelf.read(0, 0, &mut content) == Err(Failure::Off) && content == old);
    shelf.restart();
    shelf.set_fuse(0);
    shelf.lose(1)?;
    // an absent member takes nothing, and no restart brings it back
    assert!(rt; put(&mut shelf, 1, 0, 2) == Err(Failure::Off) && !shelf.is_present(1));
    assert!(rt; shelf.restart() && !shelf.is_present(1) && shelf.is_present(0));
    let run = shelf.into_bytes();
    assert!(rt; (0..4usize).all(|at| lies_at(&run, at, 0)));
    Ok(())
}
