// Moves live arrays from one layout to another and tells each step.
#![tactic(auto)]

mod cuts;
mod pattern;
mod steps;
mod tour;

use answer::Refusal;
use anyhow::bail;
use kinds::stock::Stock;
use layout::Layout;
use layout::kind::Kind;
use layout::label::Label;
use shelf::plain::PlainShelf;
use shelf::trial::{Cut, TrialShelf};
use tour::{Plan, Tally, Tour};

const SECTORS: u64 = 48;

// The two kinds that the program moves most.
fn striped(members: u8, chunk: u32, depth: u64) -> Result<Stock, Refusal> {
    Stock::from_label(&Label::stock(Kind::Striped, members, 1, chunk, depth))
}

fn parity(members: u8, chunk: u32, depth: u64) -> Result<Stock, Refusal> {
    Stock::from_label(&Label::stock(Kind::LeftSymmetric, members, 1, chunk, depth))
}

// Left-symmetric parity from 3 members to 4.
fn wider() -> Result<Plan, Refusal> {
    Ok(Plan {
        source: parity(3, 1, 8)?,
        target: parity(4, 1, 8)?,
        backup: 4,
        size: 16,
        chatty: true,
    })
}

// The whole move on a shelf that loses nothing.
fn widen_plain(rt: &HostRuntime) -> anyhow::Result<Tally> {
    println!(rt;
        "plain shelf of 4 members: left-symmetric parity, 3 members to 4, 16 sectors, 4 slots"
    )?;
    let mut tour = Tour::start(rt, PlainShelf::blank(rt.alloc(), 4, SECTORS)?, wider()?)?;
    tour.check(rt)?;
    tour.begin(rt)?;
    tour.go_on(rt, 1000)?;
    tour.check(rt)?;
    Ok(tour.tally)
}

// A cut after so many operations that no sector survives that is not durable.
fn dark_after(fuse: u32) -> Cut {
    Cut { fuse, choice: 0 }
}

// The same move with the power cut in a write, a copy and a settle, and a member lost half-way.
fn widen_trial(rt: &HostRuntime) -> anyhow::Result<Tally> {
    println!(rt; "trial shelf of 4 members: the same, with cuts and a lost member")?;
    let mut tour = Tour::start(rt, TrialShelf::blank(rt.alloc(), 4, SECTORS)?, wider()?)?;
    tour.begin(rt)?;
    tour.go_on(rt, 3)?;
    let mut tour = tour.cut_write(rt, 15, dark_after(12))?;
    tour.go_on(rt, 1)?;
    let tour = tour.cut_write(
        rt,
        15,
        Cut {
            fuse: 23,
            choice: 0x5555_5555,
        },
    )?;
    let tour = tour.cut_write(rt, 4, dark_after(26))?;
    let mut tour = tour.cut_copy(
        rt,
        Cut {
            fuse: 4,
            choice: 0x0f0f_0f0f,
        },
    )?;
    tour.go_on(rt, 2)?;
    tour.lose(rt, 1)?;
    tour.go_on(rt, 2)?;
    tour.check(rt)?;
    let tour = tour.cut_settle(
        rt,
        Cut {
            fuse: 1,
            choice: 0x3333_3333,
        },
    )?;
    let mut tour = tour.cut_settle(rt, dark_after(4))?;
    tour.go_on(rt, 1000)?;
    tour.check(rt)?;
    let mut tour = tour.turned().reopened(rt)?;
    tour.check(rt)?;
    Ok(tour.tally)
}

// A whole move between two kinds, told shortly.
fn change(rt: &HostRuntime, name: &str, plan: Plan) -> anyhow::Result<Tally> {
    println!(rt; "{name}")?;
    let mut tour = Tour::start(rt, TrialShelf::blank(rt.alloc(), 5, SECTORS)?, plan)?;
    tour.begin(rt)?;
    tour.go_on(rt, 1000)?;
    let mut tour = tour.turned().reopened(rt)?;
    tour.check(rt)?;
    Ok(tour.tally)
}

fn quiet(source: Stock, target: Stock, backup: u32, size: u64) -> Plan {
    Plan {
        source,
        target,
        backup,
        size,
        chatty: false,
    }
}

// Moves between other kinds.
fn change_kinds(rt: &HostRuntime) -> anyhow::Result<Tally> {
    let near = Stock::from_label(&Label::stock(Kind::Near, 5, 2, 2, 8))?;
    let far = Stock::from_label(&Label::stock(Kind::Far, 4, 2, 1, 12))?;
    let mut all = Tally::default();
    for (name, plan) in [
        (
            "striped, 3 members, to left-symmetric parity, 4 members",
            quiet(striped(3, 2, 8)?, parity(4, 2, 8)?, 12, 24),
        ),
        (
            "near, 2 copies on 5 members, to far, 2 copies on 4 members",
            quiet(near, far, 20, 20),
        ),
        (
            "left-symmetric parity, 3 members, chunk 1 to 2",
            quiet(parity(3, 1, 4)?, parity(3, 2, 4)?, 4, 8),
        ),
        (
            "striped, 3 members given back to 2",
            quiet(striped(3, 1, 6)?, striped(2, 1, 6)?, 6, 12),
        ),
    ] {
        all = all + change(rt, name, plan)?;
    }
    Ok(all)
}

fn main(rt: HostRuntime) -> anyhow::Result<()> {
    let Tally {
        compared,
        differing,
    } = widen_plain(&rt)? + widen_trial(&rt)? + change_kinds(&rt)?;
    if differing > 0 {
        println!(rt;
            "verdict: {differing} of {compared} sectors compared differ from what was written"
        )?;
        bail!("a sector differs");
    }
    println!(rt; "verdict: every sector is as it was last written; {compared} sectors compared")?;
    Ok(())
}
