// Members that are lost: what can still be read and written, and what one loss too many gives.
use crate::refusals::{Accesses, Answers};
use crate::setup::{
    Answer, Ends, answered, far, lose, near, parity, pattern, put, shows, striped, trial_move,
    walk_on, wrong, wrong_beside,
};
use answer::{Fault, Operation, Refusal, Refused};
use kinds::stock::Stock;
use layout::Layout;
use layout::label::Label;
use shelf::Shelf;
use shelf::trial::{Control, NEVER, TrialShelf};
use std::alloc::Global;
use std::test::Fail;
use volume::Volume;

// How many sectors are wrong while every sector in turn is rewritten, and written back again.
fn rewritten(volume: &mut Volume<TrialShelf, Stock>) -> Result<usize, Refused> {
    let mut count: usize = 0;
    for sector in 0..volume.size() {
        put(volume, sector, 2)?;
        count = count.saturating_add(wrong_beside(volume, sector, 2));
        put(volume, sector, 1)?;
    }
    Ok(count)
}

// what is seen of a layout that has lost as many members as it bears, and then one more
#[derive(Clone, Copy, PartialEq, Eq, Debug)]
struct Survival {
    // wrong sectors as they were, and once they are rewritten
    wrong: usize,
    rewritten: usize,
    // a write that meets one more loss, and a read after it
    write: Answer,
    read: Answer,
}

// Loses as many members as a layout bears, from one on, and reads and rewrites every sector; then loses one more.
fn survives(heap: Global, label: Label, first: u64) -> Result<Survival, Fail> {
    let ends = Ends::still(label)?;
    let members = ends.source.members();
    let mut volume = ends.filled(TrialShelf::blank(heap, members, 12)?, 1, 6)?;
    let last = first.saturating_add(ends.source.loss());
    let one_more = last % members;
    for next in first..last {
        lose(&mut volume, next % members)?;
    }
    let before = wrong(&mut volume);
    let rewritten = rewritten(&mut volume)?;
    lose(&mut volume, one_more)?;
    Ok(Survival {
        wrong: before,
        rewritten,
        write: answered(put(&mut volume, 0, 2)),
        read: Accesses::of(&mut volume, 0)?.read,
    })
}

#[test]
fn losses_borne(rt: HostRuntime) -> Result<(), Fail> {
    for label in [
        striped(2, 1, 3),
        parity(3, 1, 4),
        parity(5, 2, 4),
        near(3, 2, 1, 4),
        near(4, 3, 2, 6),
        near(5, 4, 1, 5),
        far(3, 2, 1, 4),
        far(4, 4, 1, 8),
    ] {
        for first in 0..u64::from(label.members) {
            assert_eq!(rt;
                survives(rt.alloc(), label, first)?,
                Survival {
                    wrong: 0,
                    rewritten: 0,
                    write: Err(Refusal::MembersLost),
                    read: Err(Refusal::MembersLost),
                }
            );
        }
    }
    Ok(())
}

// Parity, 3 members to 4, 1 row settled and 1 kept: source row 1 still has an old sector 2 beside sector 3, and its parity
// has to go with that one. Both are shown with a member lost, and all others.
#[test]
fn stale_peers(rt: HostRuntime) -> Result<(), Fail> {
    for lost in 0..4u64 {
        let mut volume = trial_move(rt.alloc())?;
        volume.begin()?;
        walk_on(&mut volume, 1)?;
        put(&mut volume, 2, 2)?;
        put(&mut volume, 3, 2)?;
        lose(&mut volume, lost)?;
        assert!(rt; shows(&mut volume, 3, 2) && shows(&mut volume, 2, 2));
        put(&mut volume, 2, 1)?;
        assert_eq!(rt; wrong_beside(&mut volume, 3, 2), 0);
    }
    Ok(())
}

// Too many members absent in a move, alone and with the power gone at the operation that shows it: lost members go before the phase, and
// lost power before both. The write finds sector 1's member absent, which parity bears, and then that of sector 0 itself.
#[test]
fn lost_in_a_move(rt: HostRuntime) -> Result<(), Fail> {
    for (fuse, due) in [(NEVER, Refusal::MembersLost), (1, Refusal::PowerLost)] {
        let mut volume = trial_move(rt.alloc())?;
        volume.begin()?;
        lose(&mut volume, 0)?;
        lose(&mut volume, 1)?;
        volume.control(Control::Fuse(fuse))?;
        let met = Fault {
            operation: Operation::Read,
            member: 0,
            sector: 7,
            row: None,
        };
        assert_eq!(rt;
            volume.write(0, &pattern(0, 2)),
            Err(Refused::met(due, met))
        );
        assert!(rt; !volume.shelf().is_present(0) && !volume.shelf().is_present(1));
        let answers = Answers::of(rt.alloc(), &mut volume)?;
        assert_eq!(rt; answers, Answers::all(due));
    }
    Ok(())
}

// Stripes bear no loss, so that begin is refused before it starts; the source goes on.
#[test]
fn target_bears_less(rt: HostRuntime) -> Result<(), Fail> {
    let ends = Ends::new(parity(3, 1, 4), striped(3, 1, 4))?;
    let mut volume = ends.filled(TrialShelf::blank(rt.alloc(), 3, 16)?, 8, 8)?;
    lose(&mut volume, 2)?;
    put(&mut volume, 0, 1)?;
    assert_eq!(rt; answered(volume.begin()), Err(Refusal::MembersLost));
    assert_eq!(rt; wrong(&mut volume), 0);
    Ok(())
}
