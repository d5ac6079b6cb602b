// Heads that no run of calls has left: labels and numbers that do not fit, and the last checkpoint numbers.
use crate::refusals::{InHand, WHILE_HELD};
use crate::setup::{Answer, Draft, Ends, answered, parity, put, put_heads, try_copy, wider};
use answer::Refusal;
use head::{MOST_NUMBER, Progress};
use kinds::stock::Stock;
use layout::Layout;
use shelf::plain::PlainShelf;
use shelf::trial::TrialShelf;
use std::alloc::Global;
use std::test::Fail;
use volume::Volume;

// How far a move has come, by its settled and its kept rows; no move without them.
type Rows = Option<(u64, u64)>;

fn progress(target: Stock, rows: Rows) -> Progress {
    match rows {
        Some((settled, kept)) => Progress::Moving {
            target: target.label(),
            settled,
            kept,
        },
        None => Progress::Idle,
    }
}

// What open is given in place of the layouts that the head names: an enum, since the cases are constants and a layout is made when
// they run.
#[derive(Clone, Copy, PartialEq, Eq, Debug)]
enum Given {
    Both,
    OtherSource,
    OtherTarget,
}

// a head on a shelf of 4 members with 15 sectors, and what it is opened with
#[derive(Clone, Copy, PartialEq, Eq, Debug)]
struct Case {
    given: Given,
    rows: Rows,
    size: u64,
    backup: u32,
    armed: Option<u64>,
}

// What an open answers for it.
fn judged(heap: Global, case: Case) -> Result<Answer, Fail> {
    let ends = wider(8)?;
    let other = Stock::from_label(&parity(3, 2, 8))?;
    let draft = Draft {
        number: 7,
        source: ends.source.label(),
        progress: progress(ends.target, case.rows),
        size: case.size,
        backup: case.backup,
        armed: case.armed,
    };
    let mut shelf = PlainShelf::blank(heap, 4, 15)?;
    put_heads(&mut shelf, &draft.head()?)?;
    let given = match case.given {
        Given::Both => ends,
        Given::OtherSource => Ends {
            source: other,
            ..ends
        },
        Given::OtherTarget => Ends {
            target: other,
            ..ends
        },
    };
    let (_, opened) = given.open(shelf);
    Ok(answered(opened))
}

const IDLE: Case = Case {
    given: Given::Both,
    rows: None,
    size: 16,
    backup: 4,
    armed: None,
};

// every row settled and kept
const DONE: Case = Case {
    rows: Some((8, 8)),
    ..IDLE
};

const FITTING: [Case; 6] = [
    IDLE,
    Case {
        given: Given::OtherTarget,
        ..IDLE
    },
    Case {
        armed: Some(15),
        ..IDLE
    },
    DONE,
    Case {
        rows: Some((0, 2)),
        ..IDLE
    },
    Case { size: 15, ..DONE },
];

const OTHERS: [Case; 3] = [
    Case {
        given: Given::OtherSource,
        ..IDLE
    },
    Case {
        given: Given::OtherTarget,
        rows: Some((0, 0)),
        ..IDLE
    },
    // other labels go before numbers that do not fit
    Case {
        given: Given::OtherSource,
        size: 17,
        ..IDLE
    },
];

const MISFITS: [Case; 10] = [
    Case { size: 17, ..IDLE },
    Case {
        size: u64::MAX,
        ..IDLE
    },
    Case { backup: 5, ..IDLE },
    Case {
        armed: Some(16),
        ..IDLE
    },
    Case {
        rows: Some((9, 8)),
        ..IDLE
    },
    Case {
        rows: Some((u64::MAX, 8)),
        ..IDLE
    },
    Case {
        rows: Some((8, 9)),
        ..IDLE
    },
    Case {
        rows: Some((0, u64::MAX)),
        ..IDLE
    },
    Case {
        rows: Some((0, 3)),
        ..IDLE
    },
    Case { size: 14, ..DONE },
];

#[test]
fn heads_that_do_not_fit(rt: HostRuntime) -> Result<(), Fail> {
    for case in FITTING {
        assert_eq!(rt; (case, judged(rt.alloc(), case)?), (case, Ok(())));
    }
    for case in OTHERS {
        assert_eq!(rt;
            (case, judged(rt.alloc(), case)?),
            (case, Err(Refusal::LabelsDiffer))
        );
    }
    for case in MISFITS {
        assert_eq!(rt;
            (case, judged(rt.alloc(), case)?),
            (case, Err(Refusal::HeadMisfit))
        );
    }
    Ok(())
}

// A layout of 4 members does not fit a shelf of 3, whatever is lost; and lost members go before spent numbers.
#[test]
fn open_order(rt: HostRuntime) -> Result<(), Fail> {
    for (members, size, lost, due) in [
        (4, 8, 2, Refusal::HeadMisfit),
        (3, 9, 2, Refusal::HeadMisfit),
        (3, 8, 2, Refusal::MembersLost),
        (3, 8, 1, Refusal::NumbersSpent),
    ] {
        let ends = Ends::still(parity(members, 1, 4))?;
        let draft = Draft {
            number: MOST_NUMBER,
            source: ends.source.label(),
            progress: Progress::Idle,
            size,
            backup: 2,
            armed: Some(0),
        };
        let mut shelf = TrialShelf::blank(rt.alloc(), 3, 9)?;
        put_heads(&mut shelf, &draft.head()?)?;
        for member in 0..lost {
            shelf.lose(member)?;
        }
        let (_, opened) = ends.open(shelf);
        assert_eq!(rt; answered(opened), Err(due));
    }
    Ok(())
}

// The move from 3 members to 4 of 16 sectors with 4 slots, with so many checkpoint numbers left.
fn aged(heap: Global, left: u64, rows: Rows) -> Result<Volume<PlainShelf, Stock>, Fail> {
    let ends = wider(8)?;
    let draft = Draft {
        number: MOST_NUMBER.saturating_sub(left),
        source: ends.source.label(),
        progress: progress(ends.target, rows),
        size: 16,
        backup: 4,
        armed: None,
    };
    let mut shelf = PlainShelf::blank(heap, 4, 15)?;
    put_heads(&mut shelf, &draft.head()?)?;
    let (volume, opened) = ends.open(shelf);
    opened?;
    Ok(volume)
}

// what is asked of it then, one after the other
#[derive(Clone, Copy, PartialEq, Eq, Debug)]
struct Asked {
    write: Answer,
    begin: Answer,
    keep: Answer,
    copy: Answer,
    finish: Answer,
}

impl Asked {
    fn of(heap: Global, left: u64, rows: Rows) -> Result<Asked, Fail> {
        let mut volume = aged(heap, left, rows)?;
        Ok(Asked {
            write: answered(put(&mut volume, 0, 1)),
            begin: answered(volume.begin()),
            keep: answered(volume.keep()),
            copy: answered(try_copy(&mut volume)),
            finish: answered(volume.finish()),
        })
    }
}

const SPENT: Answer = Err(Refusal::NumbersSpent);

// where begin was the last that was granted
const BEGUN: Asked = Asked {
    write: Ok(()),
    begin: Ok(()),
    keep: SPENT,
    copy: Err(Refusal::NeedNotKept),
    finish: Err(Refusal::RowsLeft),
};

// where no number is left for a begin
const UNBEGUN: Asked = Asked {
    write: Ok(()),
    begin: SPENT,
    keep: Err(Refusal::WrongPhase),
    copy: Err(Refusal::WrongPhase),
    finish: Err(Refusal::WrongPhase),
};

// in a move of which every row is settled and kept
const ENDED: Asked = Asked {
    write: SPENT,
    begin: Err(Refusal::WrongPhase),
    keep: Err(Refusal::AllKept),
    copy: Err(Refusal::AllSettled),
    finish: SPENT,
};

const KEPT: Asked = Asked {
    write: SPENT,
    begin: Err(Refusal::WrongPhase),
    keep: Err(Refusal::BackupFull),
    copy: Ok(()),
    finish: Err(Refusal::RowsLeft),
};

// A write takes two numbers, and a begin, a keep and a finish one. What else is in the way goes first.
#[test]
fn last_numbers(rt: HostRuntime) -> Result<(), Fail> {
    for (left, rows, due) in [
        (3, None, BEGUN),
        (2, None, UNBEGUN),
        (
            1,
            None,
            Asked {
                write: SPENT,
                ..BEGUN
            },
        ),
        (
            0,
            None,
            Asked {
                write: SPENT,
                ..UNBEGUN
            },
        ),
        (0, Some((8, 8)), ENDED),
        (
            1,
            Some((8, 8)),
            Asked {
                finish: Ok(()),
                ..ENDED
            },
        ),
        (0, Some((0, 2)), KEPT),
    ] {
        assert_eq!(rt; Asked::of(rt.alloc(), left, rows)?, due);
    }
    Ok(())
}

// With row 1 in hand and no number left: a settle empties the hand all the same.
#[test]
fn spent_settle(rt: HostRuntime) -> Result<(), Fail> {
    let mut volume = aged(rt.alloc(), 0, Some((1, 2)))?;
    assert_eq!(rt;
        InHand::of(rt.alloc(), &mut volume, 3, 6)?,
        InHand {
            outside: SPENT,
            keep: SPENT,
            own: SPENT,
            ..WHILE_HELD
        }
    );
    assert_eq!(rt; (volume.hand(), volume.settled()), (None, 1));
    try_copy(&mut volume)?;
    Ok(())
}
