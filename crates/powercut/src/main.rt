// Cuts the power and loses members at every operation of every call of moves between all kinds of layouts, and holds what is shown then to
// the flat disk.
#![tactic(auto)]

mod cases;
mod due;
mod ledger;
mod moves;
mod pattern;
mod random;
mod rig;
mod run;
mod tally;
mod tries;
mod turns;

use anyhow::ensure;
use model::{
    enough_reads, plain_calls_are_not_met, runs_call_by_call, worked_examples, worked_runs,
};
use moves::Move;
use overlap::need_is_highest;
use pattern::rubbish;
use random::Random;
use run::Stand;
use shelf::relation_stands;
use shelf::trial::controls_stand;
use std::alloc::{AllocError, Global};
use std::env;
use tally::Tally;
use tries::{Pace, Tries};

// what the gate runs: none, all, and some of what is not durable survives a cut, beside the two words of the shelf
const SHORT: Pace = Pace {
    choices: &[0, 0xffff_ffff, 0x3c3c_c3c3],
    sieve: 19,
    lists: 1,
    stride: 7,
};

// what `rt run -- long` runs
const LONG: Pace = Pace {
    choices: &[
        0,
        0xffff_ffff,
        0x3c3c_c3c3,
        0x5555_5555,
        0xaaaa_aaaa,
        0xf0f0_0f0f,
    ],
    sieve: 2,
    lists: 8,
    stride: 1,
};

// the calls of a random list, beside those that fill the volume
const CALLS: u64 = 24;

// of the random lists, which are the same in every run of the program
const SEED: u64 = 0x2545_f491_4f6c_dd1d;

// Tries a move with the list that is written for it, and with random ones.
fn try_move(heap: Global, of: &Move, pace: Pace, random: &mut Random) -> Result<Tally, AllocError> {
    let turns = turns::scripted(heap, of)?;
    let sectors = of.members.saturating_mul(of.sectors());
    let rubbish = rubbish(heap, sectors.saturating_mul(2))?;
    let scripted = Tries {
        stand: Stand {
            heap,
            of,
            rubbish: &rubbish,
            lost: None,
        },
        turns: &turns,
        pace,
        stride: 1,
    };
    let mut tally = scripted.all()?;
    for _ in 0..pace.lists {
        let turns = turns::random(heap, of, random, CALLS)?;
        let tries = Tries {
            turns: &turns,
            stride: pace.stride,
            ..scripted
        };
        tally = tally + tries.all()?;
    }
    Ok(tally)
}

// The pace that the arguments ask for.
fn pace(rt: &HostRuntime) -> anyhow::Result<Pace> {
    let long = env::args(rt)?.any(|word| word.as_str() == "long");
    Ok(if long { LONG } else { SHORT })
}

// The theorems that the runs rest on: what the flat disk, the counts, the verdicts and the law come to in small examples, that the law goes call by
// call, that need is what it is called, that enough members have each sector, what no shelf may forget and what each may do, and at which
// operation a fuse goes.
fn theorems() {
    worked_examples();
    worked_runs();
    runs_call_by_call();
    need_is_highest();
    enough_reads();
    plain_calls_are_not_met();
    relation_stands();
    controls_stand();
}

fn main(rt: HostRuntime) -> anyhow::Result<()> {
    theorems();
    let pace = pace(&rt)?;
    let mut random = Random::new(SEED);
    let mut total = Tally::default();
    for of in moves::list(rt.alloc())? {
        let tally = try_move(rt.alloc(), &of, pace, &mut random)?;
        println!(rt; "{of}: {tally}")?;
        if let Some(first) = tally.first {
            println!(rt; "the first: {first}")?;
        }
        total = total + tally;
    }
    println!(rt; "in all: {total}")?;
    ensure!(total.is_clean(), "a volume did not keep to the flat disk");
    Ok(())
}
