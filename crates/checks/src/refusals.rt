// Which call is refused with which refusal, and which of two goes first.
use crate::setup::{
    Answer, Ends, answered, parity, pattern, plain_move, put, stray_grant, striped, try_copy,
    walk_on, wider, wrong, wrong_beside,
};
use answer::{Operation, Refusal};
use kinds::stock::Stock;
use layout::label::Label;
use overlap::distance;
use sector::SECTOR;
use shelf::Shelf;
use shelf::plain::PlainShelf;
use shelf::trial::{NEVER, TrialShelf};
use std::alloc::Global;
use std::test::Fail;
use volume::Volume;

// The refusals and the operations by their numbers.
#[test]
fn numbers(rt: HostRuntime) {
    for (refusal, number) in [
        (Refusal::BufferLength, 1),
        (Refusal::PastEnd, 2),
        (Refusal::WrongPhase, 3),
        (Refusal::RowInHand, 4),
        (Refusal::NeedNotKept, 5),
        (Refusal::BackupFull, 6),
        (Refusal::AllKept, 7),
        (Refusal::RowsLeft, 8),
        (Refusal::AllSettled, 9),
        (Refusal::DistanceAboveBackup, 10),
        (Refusal::OutOfLimits, 11),
        (Refusal::NoHead, 12),
        (Refusal::LabelsDiffer, 13),
        (Refusal::HeadMisfit, 14),
        (Refusal::MembersLost, 15),
        (Refusal::PowerLost, 16),
        (Refusal::NumbersSpent, 17),
        (Refusal::WrongGrant, 18),
    ] {
        assert_eq!(rt; refusal.number(), number);
    }
    for (operation, number) in [
        (Operation::Restart, 0),
        (Operation::Read, 1),
        (Operation::Write, 2),
        (Operation::Flush, 3),
    ] {
        assert_eq!(rt; operation.number(), number);
    }
}

// What each step of a move answers, the settle of a stray grant and the hand back of one.
#[derive(Clone, Copy, PartialEq, Eq, Debug)]
pub struct Answers {
    pub begin: Answer,
    pub keep: Answer,
    pub copy: Answer,
    pub finish: Answer,
    pub settle: Answer,
    pub hand_back: Answer,
}

impl Answers {
    // The same from all; but a grant that is handed back is judged by the hand alone.
    pub fn all(refusal: Refusal) -> Answers {
        Answers {
            begin: Err(refusal),
            keep: Err(refusal),
            copy: Err(refusal),
            finish: Err(refusal),
            settle: Err(refusal),
            hand_back: Err(Refusal::WrongGrant),
        }
    }

    pub fn of<S: Shelf>(heap: Global, volume: &mut Volume<S, Stock>) -> Result<Answers, Fail> {
        let stray = stray_grant(heap)?;
        let settle = answered(volume.settle(stray));
        let stray = stray_grant(heap)?;
        let hand_back = answered(volume.hand_back(stray));
        Ok(Answers {
            begin: answered(volume.begin()),
            keep: answered(volume.keep()),
            copy: answered(try_copy(volume)),
            finish: answered(volume.finish()),
            settle,
            hand_back,
        })
    }
}

// What reads and writes of a sector answer, with a buffer that is too short and with a whole one.
#[derive(Clone, Copy, PartialEq, Eq, Debug)]
pub struct Accesses {
    pub short_read: Answer,
    pub read: Answer,
    pub short_write: Answer,
    pub write: Answer,
}

impl Accesses {
    pub fn all(refusal: Refusal) -> Accesses {
        Accesses {
            short_read: Err(refusal),
            read: Err(refusal),
            short_write: Err(refusal),
            write: Err(refusal),
        }
    }

    // A read that is refused leaves its buffer.
    pub fn of<S: Shelf>(volume: &mut Volume<S, Stock>, sector: u64) -> Result<Accesses, Fail> {
        let old = pattern(9, 9);
        let mut whole = old;
        let mut short = [7u8; SECTOR - 1];
        let short_read = answered(volume.read(sector, &mut short));
        let read = answered(volume.read(sector, &mut whole));
        if short != [7; SECTOR - 1] || (read.is_err() && whole != old) {
            return Err(Fail::new("a refused read touched its buffer"));
        }
        Ok(Accesses {
            short_read,
            read,
            short_write: answered(volume.write(sector, &short)),
            write: answered(volume.write(sector, &old)),
        })
    }
}

// of a sector that the volume has not
const PAST: Accesses = Accesses {
    short_read: Err(Refusal::BufferLength),
    read: Err(Refusal::PastEnd),
    short_write: Err(Refusal::BufferLength),
    write: Err(Refusal::PastEnd),
};

#[test]
fn buffers_and_ends(rt: HostRuntime) -> Result<(), Fail> {
    let mut volume = plain_move(rt.alloc())?;
    assert_eq!(rt; Accesses::of(&mut volume, 16)?, PAST);
    assert_eq!(rt; Accesses::of(&mut volume, u64::MAX)?, PAST);
    assert_eq!(rt;
        Accesses::of(&mut volume, 0)?,
        Accesses {
            short_read: Err(Refusal::BufferLength),
            read: Ok(()),
            short_write: Err(Refusal::BufferLength),
            write: Ok(()),
        }
    );
    assert_eq!(rt; answered(volume.write(0, &[])), Err(Refusal::BufferLength));
    // the last write of sector 0 was one of another sector's content
    assert_eq!(rt; wrong_beside(&mut volume, 0, 9), 1);
    Ok(())
}

// Calls that are refused leave every byte of the shelf.
#[test]
fn refused_calls_leave_all(rt: HostRuntime) -> Result<(), Fail> {
    let ends = wider(8)?;
    let run = plain_move(rt.alloc())?.into_shelf().into_bytes();
    let copy = run.clone()?;
    let other = Ends {
        target: Stock::from_label(&parity(3, 2, 4))?,
        ..ends
    };
    let (mut volume, _) = other.open(PlainShelf::new(4, 15, run));
    assert_eq!(rt; Accesses::of(&mut volume, 16)?, PAST);
    assert_eq!(rt;
        Answers::of(rt.alloc(), &mut volume)?,
        Answers {
            begin: Err(Refusal::OutOfLimits),
            ..Answers::all(Refusal::WrongPhase)
        }
    );
    let (shut, created) = ends.create(volume.into_shelf(), 5, 16);
    let (shut, opened) = ends.turned().open(shut.into_shelf());
    assert!(rt; shut.into_shelf().into_bytes() == copy);
    assert_eq!(rt;
        [answered(created), answered(opened)],
        [Err(Refusal::OutOfLimits), Err(Refusal::LabelsDiffer)]
    );
    Ok(())
}

// With the next row in hand: what writes into that row and past it answer, a copy, a keep, a settle of a stray grant, and one
// of the row's own.
#[derive(Clone, Copy, PartialEq, Eq, Debug)]
pub struct InHand {
    pub inside: Answer,
    pub outside: Answer,
    pub copy: Answer,
    pub keep: Answer,
    pub stray: Answer,
    pub own: Answer,
}

impl InHand {
    pub fn of<S: Shelf>(
        heap: Global,
        volume: &mut Volume<S, Stock>,
        inside: u64,
        outside: u64,
    ) -> Result<InHand, Fail> {
        let stray = stray_grant(heap)?;
        match volume.copy() {
            Ok(grant) => Ok(InHand {
                inside: answered(put(volume, inside, 1)),
                outside: answered(put(volume, outside, 1)),
                copy: answered(try_copy(volume)),
                keep: answered(volume.keep()),
                stray: answered(volume.settle(stray)),
                own: answered(volume.settle(grant)),
            }),
            Err(refused) => {
                let _ = volume.hand_back(stray);
                Err(refused.into())
            }
        }
    }
}

// What they answer where all is well.
pub const WHILE_HELD: InHand = InHand {
    inside: Err(Refusal::RowInHand),
    outside: Ok(()),
    copy: Err(Refusal::RowInHand),
    keep: Ok(()),
    stray: Err(Refusal::WrongGrant),
    own: Ok(()),
};

// A second begin, a copy before its row is kept, a finish before the last row, and more kept than there are slots.
#[test]
fn first_steps(rt: HostRuntime) -> Result<(), Fail> {
    let mut volume = plain_move(rt.alloc())?;
    volume.begin()?;
    assert_eq!(rt; answered(volume.begin()), Err(Refusal::WrongPhase));
    assert_eq!(rt; answered(try_copy(&mut volume)), Err(Refusal::NeedNotKept));
    assert_eq!(rt; answered(volume.finish()), Err(Refusal::RowsLeft));
    volume.keep()?;
    volume.keep()?;
    assert_eq!(rt; answered(volume.keep()), Err(Refusal::BackupFull));
    try_copy(&mut volume)?;
    Ok(())
}

// Row 1 has sectors 3 to 5.
#[test]
fn row_in_hand(rt: HostRuntime) -> Result<(), Fail> {
    let mut volume = plain_move(rt.alloc())?;
    volume.begin()?;
    walk_on(&mut volume, 1)?;
    volume.keep()?;
    assert_eq!(rt; InHand::of(rt.alloc(), &mut volume, 5, 6)?, WHILE_HELD);
    assert_eq!(rt; (volume.settled(), wrong(&mut volume)), (2, 0));
    Ok(())
}

// Row 5 has sector 15, the last, and two beyond it, which are refused for that. After row 7 all is kept and settled,
// and after a finish no step is left.
#[test]
fn last_steps(rt: HostRuntime) -> Result<(), Fail> {
    let mut volume = plain_move(rt.alloc())?;
    volume.begin()?;
    walk_on(&mut volume, 5)?;
    volume.keep()?;
    assert_eq!(rt;
        InHand::of(rt.alloc(), &mut volume, 15, 16)?,
        InHand {
            outside: Err(Refusal::PastEnd),
            ..WHILE_HELD
        }
    );
    walk_on(&mut volume, 8)?;
    assert_eq!(rt; volume.settled(), 8);
    assert_eq!(rt; answered(try_copy(&mut volume)), Err(Refusal::AllSettled));
    assert_eq!(rt; answered(volume.keep()), Err(Refusal::AllKept));
    volume.finish()?;
    assert_eq!(rt; wrong(&mut volume), 0);
    assert_eq!(rt;
        Answers::of(rt.alloc(), &mut volume)?,
        Answers::all(Refusal::WrongPhase)
    );
    Ok(())
}

// A volume is opened again while row 1 is in hand: the hand is empty then, and a settle of the old grant is refused.
#[test]
fn stale_grant(rt: HostRuntime) -> Result<(), Fail> {
    let mut volume = plain_move(rt.alloc())?;
    volume.begin()?;
    walk_on(&mut volume, 1)?;
    volume.keep()?;
    let ends = wider(8)?;
    let grant = volume.copy()?;
    let row = volume.hand();
    let (mut opened, _) = ends.open(volume.into_shelf());
    let hand = opened.hand();
    let late = answered(opened.settle(grant));
    assert_eq!(rt; (row, hand), (Some(1), None));
    assert_eq!(rt; late, Err(Refusal::WrongGrant));
    Ok(())
}

// What begin answers on a shelf of 3 members with 10 sectors, 3 slots, and a volume of 8 sectors; and the distance.
fn begun(heap: Global, target: Label) -> Result<(Answer, u64), Fail> {
    let ends = Ends::new(parity(3, 1, 4), target)?;
    let (mut volume, _) = ends.create(PlainShelf::blank(heap, 3, 10)?, 3, 8);
    Ok((
        answered(volume.begin()),
        distance(&ends.source, &ends.target, 8),
    ))
}

// Targets that begin refuses; where the distance is above the slots too, the limits go first.
#[test]
fn begin_refused(rt: HostRuntime) -> Result<(), Fail> {
    for (target, answer, distance) in [
        (parity(3, 1, 4), Ok(()), 2),
        (parity(3, 2, 4), Err(Refusal::DistanceAboveBackup), 4),
        (parity(3, 2, 6), Err(Refusal::OutOfLimits), 4),
        (parity(4, 1, 4), Err(Refusal::OutOfLimits), 2),
        (striped(2, 1, 3), Err(Refusal::OutOfLimits), 2),
    ] {
        assert_eq!(rt; begun(rt.alloc(), target)?, (answer, distance));
    }
    Ok(())
}

// A shelf of 3 members, of which so many are found absent, and the power lost too where the fuse is that short.
fn worn(heap: Global, lost: u64, fuse: u32) -> Result<TrialShelf, Fail> {
    let mut shelf = TrialShelf::blank(heap, 3, 9)?;
    shelf.set_fuse(fuse);
    for member in 0..lost {
        shelf.lose(member)?;
        // found absent, or the power gone
        let _ = shelf.flush(member);
    }
    // the power gone, where the fuse is that short
    let _ = shelf.flush(2);
    shelf.set_fuse(NEVER);
    Ok(shelf)
}

// a volume that is to be created on such a shelf, by a source of parity with chunk 1
#[derive(Clone, Copy)]
struct Creation {
    members: u8,
    depth: u64,
    backup: u32,
    size: u64,
    lost: u64,
    fuse: u32,
    due: Answer,
}

const CREATED: Creation = Creation {
    members: 3,
    depth: 4,
    backup: 2,
    size: 8,
    lost: 0,
    fuse: 9,
    due: Ok(()),
};

const OUT: Creation = Creation {
    due: Err(Refusal::OutOfLimits),
    ..CREATED
};

const CREATIONS: [Creation; 13] = [
    CREATED,
    Creation { backup: 0, ..OUT },
    Creation {
        backup: 4097,
        ..OUT
    },
    Creation {
        backup: u32::MAX,
        ..OUT
    },
    Creation { backup: 3, ..OUT },
    Creation { size: 9, ..OUT },
    Creation {
        size: u64::MAX,
        ..OUT
    },
    Creation { members: 4, ..OUT },
    Creation { depth: 5, ..OUT },
    Creation { lost: 1, ..CREATED },
    Creation {
        lost: 2,
        due: Err(Refusal::MembersLost),
        ..CREATED
    },
    // limits go before power, and power before members
    Creation {
        lost: 2,
        fuse: 2,
        due: Err(Refusal::PowerLost),
        ..CREATED
    },
    Creation {
        backup: 0,
        lost: 2,
        fuse: 2,
        ..OUT
    },
];

#[test]
fn create_refused(rt: HostRuntime) -> Result<(), Fail> {
    for creation in CREATIONS {
        let ends = Ends::still(parity(creation.members, 1, creation.depth))?;
        let shelf = worn(rt.alloc(), creation.lost, creation.fuse)?;
        let (_, created) = ends.create(shelf, creation.backup, creation.size);
        assert_eq!(rt; answered(created), creation.due);
    }
    Ok(())
}

// A shut volume's calls answer that this is no phase for them, before all else; its shelf can be opened.
#[test]
fn shut_volume(rt: HostRuntime) -> Result<(), Fail> {
    let ends = wider(8)?;
    let (mut shut, created) = ends.create(plain_move(rt.alloc())?.into_shelf(), 0, 16);
    assert_eq!(rt; answered(created), Err(Refusal::OutOfLimits));
    assert_eq!(rt;
        Accesses::of(&mut shut, 99)?,
        Accesses::all(Refusal::WrongPhase)
    );
    assert_eq!(rt;
        Answers::of(rt.alloc(), &mut shut)?,
        Answers::all(Refusal::WrongPhase)
    );
    let (mut volume, opened) = ends.open(shut.into_shelf());
    opened?;
    assert_eq!(rt; wrong(&mut volume), 0);
    Ok(())
}

// Shut for want of power they answer that it is lost.
#[test]
fn shut_without_power(rt: HostRuntime) -> Result<(), Fail> {
    let ends = wider(4)?;
    let (mut shut, created) = ends.create(worn(rt.alloc(), 0, 0)?, 2, 8);
    assert_eq!(rt; answered(created), Err(Refusal::PowerLost));
    assert_eq!(rt;
        Accesses::of(&mut shut, 0)?,
        Accesses::all(Refusal::PowerLost)
    );
    assert_eq!(rt;
        Answers::of(rt.alloc(), &mut shut)?,
        Answers::all(Refusal::PowerLost)
    );
    let (_, opened) = ends.open(shut.into_shelf());
    assert_eq!(rt; answered(opened), Err(Refusal::NoHead));
    Ok(())
}
