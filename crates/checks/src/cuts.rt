// The power goes at each operation of a call in turn; what the next open shows is the volume from before the call or after it.
use crate::setup::{
    Ends, answered, far, lose, near, parity, put, settle_next, shows, striped, walk_on, wider,
    wrong_beside,
};
use answer::{Fault, Operation, Refusal, Refused};
use kinds::stock::Stock;
use layout::Layout;
use shelf::trial::{Control, Cut, TrialShelf};
use std::alloc::Global;
use std::process::Abort;
use std::test::Fail;
use volume::Volume;

type Disk = Volume<TrialShelf, Stock>;

const CHOICES: [u32; 3] = [0, 0xffff_ffff, 0x5555_5555];

// more operations than any call takes here
const ENOUGH: u32 = 200;

// what a cut write leaves: whether it was granted, whether the next open shows it, and how many sectors are wrong
#[derive(Clone, Copy)]
struct Torn {
    granted: bool,
    is_new: bool,
    wrong: usize,
}

// Cuts a write of sector 1 and opens again. The wrong sectors are counted before a member is lost and after, where the layout
// bears that.
fn cut_write(heap: Global, ends: Ends, cut: Cut) -> Result<Torn, Fail> {
    let mut volume = ends.filled(TrialShelf::blank(heap, 3, 6)?, 1, 2)?;
    volume.control(Control::Cut(cut))?;
    let granted = put(&mut volume, 1, 2).is_ok();
    let (mut opened, _) = ends.open(volume.into_shelf());
    let is_new = shows(&mut opened, 1, 2);
    let version = if is_new { 2 } else { 1 };
    let mut wrong = wrong_beside(&mut opened, 1, version);
    if ends.source.loss() > 0 {
        lose(&mut opened, u64::from(cut.fuse % 3))?;
        wrong = wrong.saturating_add(wrong_beside(&mut opened, 1, version));
    }
    Ok(Torn {
        granted,
        is_new,
        wrong,
    })
}

// Cuts the write everywhere. Whether no sector is wrong, some cut shows the old content, and all from some cut on, and before the
// write is granted, the new one.
fn bears_cuts(heap: Global, ends: Ends, choice: u32) -> Result<bool, Fail> {
    let mut first_new = None;
    for fuse in 0..ENOUGH {
        let torn = cut_write(heap, ends, Cut { fuse, choice })?;
        if torn.wrong > 0 || (first_new.is_some() && !torn.is_new) {
            return Ok(false);
        }
        if torn.is_new {
            first_new = first_new.or(Some(fuse));
        }
        if torn.granted {
            return Ok(first_new.is_some_and(|first| 0 < first && first < fuse));
        }
    }
    Ok(false)
}

#[test]
fn torn_writes(rt: HostRuntime) -> Result<(), Fail> {
    for label in [
        striped(3, 1, 2),
        parity(3, 1, 2),
        near(3, 2, 1, 2),
        far(3, 2, 1, 2),
    ] {
        let ends = Ends::still(label)?;
        for choice in CHOICES {
            assert!(rt; bears_cuts(rt.alloc(), ends, choice)?);
        }
    }
    Ok(())
}

// The move from 3 members to 4 of 8 sectors with 4 slots, with so many rows settled, one row more kept where there is one, and
// sector 3 in version 2. Where there is none, the keep is refused for that.
fn under_way(heap: Global, ends: Ends, rows: u64) -> Result<Disk, Fail> {
    let mut volume = ends.filled(TrialShelf::blank(heap, 4, 11)?, 4, 8)?;
    volume.begin()?;
    walk_on(&mut volume, rows)?;
    if volume.kept() < ends.source.rows() {
        volume.keep()?;
    } else if answered(volume.keep()) != Err(Refusal::AllKept) {
        return Err(Fail::new("kept a row that is not there"));
    }
    put(&mut volume, 3, 2)?;
    Ok(volume)
}

// The steps that are cut. A settle is of a row that was copied before.
fn rewrite(volume: &mut Disk) -> Result<(), Refused> {
    put(volume, 3, 3)
}

fn keep(volume: &mut Disk) -> Result<(), Refused> {
    volume.keep()
}

fn settle(volume: &mut Disk) -> Result<(), Refused> {
    settle_next(volume)
}

fn finish(volume: &mut Disk) -> Result<(), Refused> {
    volume.finish().map(|_| ())
}

// Opens with the layouts of the move, or, where it is finished, with the target as the source.
fn reopened(volume: Disk, ends: Ends) -> Disk {
    let (opened, result) = ends.open(volume.into_shelf());
    if answered(result) != Err(Refusal::LabelsDiffer) {
        return opened;
    }
    let (turned, _) = ends.turned().open(opened.into_shelf());
    turned
}

// what a cut step leaves: whether it was granted, and what is shown then
#[derive(Clone, Copy)]
struct Stepped {
    granted: bool,
    shown: Shown,
}

// what the open after a cut shows, and how many sectors are wrong from there to the end of the move
#[derive(Clone, Copy, PartialEq, Eq, Debug)]
struct Shown {
    settled: u64,
    kept: u64,
    // of sector 3
    version: u64,
    wrong: usize,
}

// With no sector wrong.
fn all_well(settled: u64, kept: u64, version: u64) -> Shown {
    Shown {
        settled,
        kept,
        version,
        wrong: 0,
    }
}

// Loses a member and goes on to the end of the move, with sector 3 in this version. Answers how many sectors are wrong, before and
// then, and the rows settled where the move does not end.
fn gone_on(volume: &mut Disk, version: u64, member: u64) -> Result<usize, Fail> {
    let before = wrong_beside(volume, 3, version);
    lose(volume, member)?;
    if volume.kept() > 0 {
        walk_on(volume, 4)?;
        volume.finish()?;
    }
    Ok(
        before
            .saturating_add(volume.settled() as usize)
            .saturating_add(wrong_beside(volume, 3, version)),
    )
}

// Cuts a step, opens again, and goes on.
fn cut_step<F: Fn(&mut Disk) -> Result<(), Refused>>(
    heap: Global,
    step: &F,
    rows: u64,
    cut: Cut,
) -> Result<Stepped, Fail>
    requires { F.IsAlwaysCallable step.now }
{
    let ends = wider(4)?;
    let mut volume = under_way(heap, ends, rows)?;
    volume.control(Control::Cut(cut))?;
    let granted = step(&mut volume).is_ok();
    let mut opened = reopened(volume, ends);
    let version = if shows(&mut opened, 3, 3) { 3 } else { 2 };
    let settled = opened.settled();
    let kept = opened.kept();
    let wrong = gone_on(&mut opened, version, u64::from(cut.fuse % 4))?;
    Ok(Stepped {
        granted,
        shown: Shown {
            settled,
            kept,
            version,
            wrong,
        },
    })
}

// Cuts a step everywhere, with so many rows settled; what is shown is the old or the new, and once it is granted the new.
fn cut_everywhere<F: Fn(&mut Disk) -> Result<(), Refused>>(
    rt: &impl Abort,
    heap: Global,
    step: F,
    rows: u64,
    choice: u32,
    old: Shown,
    new: Shown,
) -> Result<(), Fail>
    requires { F.IsAlwaysCallable step }
{
    for fuse in 0..ENOUGH {
        let Stepped { granted, shown } = cut_step(heap, &step, rows, Cut { fuse, choice })?;
        assert_eq!(rt; shown, if granted || shown != old { new } else { old });
        if granted {
            return Ok(());
        }
    }
    Err(Fail::new("never granted"))
}

#[test]
fn cut_steps(rt: HostRuntime) -> Result<(), Fail> {
    let heap = rt.alloc();
    let old = all_well(1, 2, 2);
    let last = all_well(4, 4, 2);
    for choice in CHOICES {
        cut_everywhere(&rt, heap, rewrite, 1, choice, old, all_well(1, 2, 3))?;
        cut_everywhere(&rt, heap, keep, 1, choice, old, all_well(1, 3, 2))?;
        cut_everywhere(&rt, heap, settle, 1, choice, old, all_well(2, 2, 2))?;
        cut_everywhere(&rt, heap, finish, 4, choice, last, all_well(0, 0, 2))?;
    }
    Ok(())
}

// What a step meets with each fuse, with 1 row settled and 2 kept; a keep after it finds the power gone, before any operation.
fn meets<F: Fn(&mut Disk) -> Result<(), Refused>>(
    rt: &impl Abort,
    heap: Global,
    step: F,
    row: Option<u64>,
    due: &[(u32, Operation, u64, u64)],
) -> Result<(), Fail>
    requires { F.IsAlwaysCallable step }
{
    for &(fuse, operation, member, sector) in due {
        let mut volume = under_way(heap, wider(4)?, 1)?;
        volume.control(Control::Cut(Cut { fuse, choice: 0 }))?;
        let fault = Fault {
            operation,
            member,
            sector,
            row,
        };
        assert_eq!(rt;
            step(&mut volume),
            Err(Refused::met(Refusal::PowerLost, fault))
        );
        assert_eq!(rt; volume.keep(), Err(Refusal::PowerLost.into()));
    }
    Ok(())
}

#[test]
fn faults(rt: HostRuntime) -> Result<(), Fail> {
    // the logs, their flush, the head, and the slot of sector 3; no row
    let of_write = [
        (0, Operation::Write, 0, 1),
        (7, Operation::Write, 3, 2),
        (8, Operation::Flush, 0, 0),
        (13, Operation::Write, 1, 0),
        (21, Operation::Write, 1, 6),
    ];
    meets(&rt, rt.alloc(), rewrite, None, &of_write)?;
    // sector 4 from the source, then its slot
    let of_keep = [(0, Operation::Read, 1, 9), (2, Operation::Write, 1, 3)];
    meets(&rt, rt.alloc(), keep, Some(2), &of_keep)?;
    // sector 3 from its slot, then its place in the target; the copy is done: the head
    let of_settle = [
        (0, Operation::Read, 0, 6),
        (1, Operation::Write, 3, 8),
        (12, Operation::Write, 1, 0),
        (17, Operation::Flush, 2, 0),
    ];
    meets(&rt, rt.alloc(), settle, Some(1), &of_settle)
}
