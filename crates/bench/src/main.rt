// How long a place, an owner and a distance take. `bench time` measures; without that word nothing is measured, and nothing varies.
#![tactic(auto)]

mod plain;
mod rounds;

use kinds::stock::Stock;
use layout::Layout;
use layout::kind::Kind;
use layout::label::Label;
use layout::place::Owner;
use overlap::distance;
use rounds::summed;
use std::env;
use std::time::Instant;

const ROUNDS: u64 = 2_000_000;

fn places(layout: &Stock) -> u64 {
    summed(ROUNDS, layout.capacity(), |sector| {
        let (member, offset) = layout.place(sector, 0);
        member.wrapping_add(offset)
    })
}

fn owners(layout: &Stock) -> u64 {
    summed(
        ROUNDS,
        layout.depth(),
        |offset| match layout.owner((1, offset)) {
            Owner::Datum { sector, copy } => sector.wrapping_add(copy),
            Owner::Parity { group } => group,
            Owner::Nobody => 1,
        },
    )
}

// how long a round took, and the sum of what was found
#[derive(Clone, Copy)]
struct Timing {
    picos: u64,
    sum: u64,
}

// Times work of so many rounds.
fn timed<F: FnOnce() -> u64>(rt: &HostRuntime, rounds: u64, work: F) -> anyhow::Result<Timing>
    requires { F.IsAlwaysCallable work }
{
    let start = Instant::now(rt)?;
    let sum = work();
    let nanos = start.elapsed(rt)?.as_nanos();
    let picos = nanos.saturating_mul(1000) / u128::from(rounds.max(1));
    Ok(Timing {
        picos: u64::try_from(picos).unwrap_or(u64::MAX),
        sum,
    })
}

fn measure(rt: &HostRuntime, name: &str, layout: &Stock) -> anyhow::Result<()> {
    let place = timed(rt, ROUNDS, move || places(layout))?;
    let owner = timed(rt, ROUNDS, move || owners(layout))?;
    println!(rt;
        "{name}: place {} ps, owner {} ps ({})",
        place.picos,
        owner.picos,
        place.sum.wrapping_add(owner.sum)
    )?;
    Ok(())
}

// The same formulas as a plain loop over numbers, for striped and for left-symmetric parity.
fn baseline(rt: &HostRuntime, layout: &Stock) -> anyhow::Result<()> {
    let members = layout.members();
    let chunk = u64::from(layout.label().chunk);
    let depth = layout.depth();
    let striped = timed(rt, ROUNDS, || {
        plain::striped_places(members, chunk, depth, ROUNDS).unwrap_or(0)
    })?;
    let left = timed(rt, ROUNDS, || {
        plain::left_places(members, chunk, depth, ROUNDS).unwrap_or(0)
    })?;
    println!(rt;
        "plain loop: striped place {} ps, left-symmetric place {} ps ({})",
        striped.picos,
        left.picos,
        striped.sum.wrapping_add(left.sum)
    )?;
    Ok(())
}

fn measure_distance(rt: &HostRuntime) -> anyhow::Result<()> {
    let parity = |members| Stock::from_label(&Label::stock(
        Kind::LeftSymmetric,
        members,
        1,
        128,
        1 << 17,
    ));
    let source = parity(3)?;
    let target = parity(4)?;
    let target_places = target.members().saturating_mul(target.depth());
    let found = timed(rt, target_places, || {
        distance(&source, &target, source.capacity())
    })?;
    println!(rt;
        "distance {} of left-symmetric 3 to 4: {} ps a target place",
        found.sum, found.picos
    )?;
    Ok(())
}

fn measure_all(rt: &HostRuntime) -> anyhow::Result<()> {
    let stock = |kind, copies| Stock::from_label(&Label::stock(kind, 4, copies, 128, 1 << 20));
    let striped = stock(Kind::Striped, 1)?;
    measure(rt, "striped", &striped)?;
    measure(rt, "left-symmetric", &stock(Kind::LeftSymmetric, 1)?)?;
    measure(rt, "near", &stock(Kind::Near, 2)?)?;
    measure(rt, "far", &stock(Kind::Far, 2)?)?;
    baseline(rt, &striped)?;
    measure_distance(rt)
}

fn main(rt: HostRuntime) -> anyhow::Result<()> {
    if env::args(&rt)?.any(|word| word.as_str() == "time") {
        return measure_all(&rt);
    }
    println!(rt; "give the word time to measure places, owners and the distance")?;
    Ok(())
}
