// Lists of calls, said so that they make sense wherever a cut has left the move.
use crate::moves::Move;
use crate::random::Random;
use layout::Layout;
use overlap::need;
use overlap::walk::Home;
use std::alloc::{AllocError, Global};

// which sector a call is about
#[derive(Clone, Copy)]
pub enum Which {
    Number(u64),
    // of those that live there
    First(Home),
    Last(Home),
}

// One turn of a list: a call, said by where the move has come to. One that has nothing to be about is passed over.
#[derive(Clone, Copy)]
pub enum Turn {
    Write(Which),
    Read(Which),
    Begin,
    Keep,
    Copy,
    // with the grant that is held, stale or not
    Settle,
    HandBack,
    Finish,
    Open,
    // the call by which the move goes on
    Due,
}

const IN_SOURCE: Turn = Turn::Write(Which::First(Home::Source));

const IN_TARGET: Turn = Turn::Write(Which::Last(Home::Target));

const IN_BACKUP: Turn = Turn::Write(Which::First(Home::Backup));

// A whole move, with writes into every kind of home at every stage of it.
pub fn scripted(heap: Global, of: &Move) -> Result<Vec<Turn>, AllocError> {
    let mut turns = Vec::new(heap);
    for sector in 0..of.size {
        turns.push(Turn::Write(Which::Number(sector)))?;
    }
    turns.push(Turn::Begin)?;
    let mut kept: u64 = 0;
    for row in 0..of.ends.target.rows() {
        let need = need(&of.ends.source, &of.ends.target, of.size, row);
        for _ in kept..need {
            for turn in [Turn::Keep, IN_BACKUP, Turn::Read(Which::Last(Home::Backup))] {
                turns.push(turn)?;
            }
        }
        kept = kept.max(need);
        push_row(&mut turns, row, of.ends.target.row_len())?;
    }
    for turn in [Turn::Due, IN_TARGET, Turn::Due, IN_SOURCE] {
        turns.push(turn)?;
    }
    Ok(turns)
}

// A target row: copied, written into and past and read past while it is in hand, and settled. The first one is handed back and copied again.
fn push_row(turns: &mut Vec<Turn>, row: u64, len: u64) -> Result<(), AllocError> {
    if row == 0 {
        turns.push(Turn::Copy)?;
        turns.push(Turn::HandBack)?;
    }
    let inside = Turn::Write(Which::Number(row.saturating_mul(len)));
    for turn in [
        Turn::Due,
        inside,
        IN_SOURCE,
        Turn::Due,
        IN_TARGET,
        IN_SOURCE,
    ] {
        turns.push(turn)?;
    }
    Ok(())
}

// A list of so many calls, of all kinds, most of which help the move on.
pub fn random(
    heap: Global,
    of: &Move,
    random: &mut Random,
    calls: u64,
) -> Result<Vec<Turn>, AllocError> {
    let mut turns = Vec::new(heap);
    for sector in 0..of.size {
        if random.next() & 1 == 0 {
            turns.push(Turn::Write(Which::Number(sector)))?;
        }
    }
    turns.push(Turn::Begin)?;
    for _ in 0..calls {
        turns.push(random_step(random, of.size))?;
    }
    Ok(turns)
}

fn random_step(random: &mut Random, size: u64) -> Turn {
    match random.next() & 31 {
        0..12 => Turn::Due,
        12..15 => Turn::Write(Which::Number(random_sector(random, size))),
        15..17 => Turn::Write(random_home(random)),
        17..20 => IN_SOURCE,
        20..22 => IN_TARGET,
        22..24 => IN_BACKUP,
        24 => Turn::Read(random_home(random)),
        25 => Turn::Copy,
        26 => Turn::Settle,
        27 => Turn::HandBack,
        28 => Turn::Open,
        29 => Turn::Finish,
        _ => Turn::Keep,
    }
}

// A sector of the volume, or now and then the one past its end.
fn random_sector(random: &mut Random, size: u64) -> u64 {
    random.next() % size.saturating_add(1).max(1)
}

fn random_home(random: &mut Random) -> Which {
    let home = match random.next() & 3 {
        0 => Home::Backup,
        1 => Home::Target,
        _ => Home::Source,
    };
    if random.next() & 1 == 0 {
        Which::First(home)
    } else {
        Which::Last(home)
    }
}
