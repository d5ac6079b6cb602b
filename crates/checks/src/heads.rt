// The bytes of heads, and which head leads.
use crate::setup::{Answer, Draft, answered, wider};
use answer::Refusal;
use head::{Head, MOST_BACKUP, MOST_NUMBER, Progress};
use layout::Layout;
use layout::label::Label;
use sector::{SECTOR, Sector, zeros};
use shelf::Shelf;
use shelf::plain::PlainShelf;
use std::alloc::Global;
use std::ops::RangeInclusive;
use std::test::Fail;

// The bytes of a moving head that is armed, with every field set.
fn full() -> Result<Sector, Fail> {
    let ends = wider(8)?;
    let draft = Draft {
        number: 9,
        source: ends.source.label(),
        progress: Progress::Moving {
            target: ends.target.label(),
            settled: 3,
            kept: 4,
        },
        size: 16,
        backup: 1,
        armed: Some(5),
    };
    Ok(draft.head()?.encode())
}

// The bytes of an idle head.
fn idle(number: u64, size: u64) -> Result<Sector, Fail> {
    let draft = Draft {
        number,
        source: wider(8)?.source.label(),
        progress: Progress::Idle,
        size,
        backup: 2,
        armed: None,
    };
    Ok(draft.head()?.encode())
}

// the least of every field
const LEAST: Draft = Draft {
    number: 1,
    source: Label::ZERO,
    progress: Progress::Idle,
    size: 0,
    backup: 1,
    armed: None,
};

const ODD: Label = Label {
    kind: 255,
    members: 254,
    copies: 253,
    reserved: 252,
    chunk: u32::MAX,
    depth: u64::MAX,
};

const DRAFTS: [Draft; 5] = [
    LEAST,
    Draft {
        armed: Some(0),
        ..LEAST
    },
    Draft {
        progress: Progress::Moving {
            target: Label::ZERO,
            settled: 0,
            kept: 0,
        },
        ..LEAST
    },
    // and the most
    Draft {
        number: MOST_NUMBER,
        source: ODD,
        progress: Progress::Moving {
            target: ODD,
            settled: u64::MAX,
            kept: u64::MAX,
        },
        size: u64::MAX,
        backup: MOST_BACKUP,
        armed: Some(u64::MAX),
    },
    Draft {
        number: MOST_NUMBER,
        source: ODD,
        progress: Progress::Idle,
        size: 7,
        backup: 258,
        armed: Some(1),
    },
];

// A head is decoded from its bytes, and gives the same bytes again.
#[test]
fn heads_come_back(rt: HostRuntime) -> Result<(), Fail> {
    for draft in DRAFTS {
        let head = draft.head()?;
        let bytes = head.encode();
        let back = Head::decode(&bytes);
        assert_eq!(rt; back, Some(head));
        assert!(rt; back.is_some_and(|back| back.encode() == bytes));
    }
    Ok(())
}

// Sets these bytes of a sector.
fn set(bytes: &mut Sector, fields: &[(usize, u8)]) {
    for &(at, value) in fields {
        if let Some(byte) = bytes.get_mut(at) {
            *byte = value;
        }
    }
}

const NEW: [(usize, u8); 11] = [
    (0, 0x52),
    (1, 0x48),
    (2, 1),
    (8, 1),
    (16, 2),
    (17, 3),
    (18, 1),
    (20, 1),
    (24, 8),
    (48, 16),
    (72, 2),
];

const MOVING: [(usize, u8); 12] = [
    (3, 1),
    (4, 1),
    (8, 9),
    (32, 2),
    (33, 4),
    (34, 1),
    (36, 1),
    (40, 8),
    (56, 3),
    (64, 4),
    (72, 1),
    (80, 5),
];

// A new volume's head byte by byte, and a moving, armed one.
#[test]
fn head_bytes(rt: HostRuntime) -> Result<(), Fail> {
    let mut bytes = zeros();
    set(&mut bytes, &NEW);
    assert_eq!(rt; idle(1, 16)?, bytes);
    set(&mut bytes, &MOVING);
    assert_eq!(rt; full()?, bytes);
    // a sector cut short is no head
    assert!(rt; Head::decode(&bytes[0..511]).is_none());
    Ok(())
}

// A byte of the full head and its value, with which the bytes are no head.
const DAMAGES: [(usize, u8); 20] = [
    (0, 0x53),
    (1, 0),
    (2, 0),
    (2, 2),
    (3, 2),
    (4, 2),
    // unarmed, with a logged sector
    (4, 0),
    // idle, with a target
    (3, 0),
    (5, 1),
    (7, 1),
    // number 0, and one above 2 to the 63
    (8, 0),
    (15, 0x80),
    // no backup slots, 4097 of them, and more
    (72, 0),
    (73, 0x10),
    (74, 1),
    (76, 1),
    (79, 0x80),
    (88, 1),
    (300, 4),
    (511, 1),
];

// The same of the idle head: unarmed, with something said of a move or of the log.
const IDLE_DAMAGES: [(usize, u8); 9] = [
    (32, 1),
    (40, 1),
    (47, 1),
    (56, 1),
    (63, 1),
    (64, 1),
    (71, 1),
    (80, 1),
    (87, 1),
];

// Whether the bytes with each of these changed alone are no head.
fn are_refused(bytes: Sector, damages: &[(usize, u8)]) -> bool {
    damages.iter().all(|&damage| {
        let mut changed = bytes;
        set(&mut changed, &[damage]);
        Head::decode(&changed).is_none()
    })
}

#[test]
fn damaged_heads(rt: HostRuntime) -> Result<(), Fail> {
    assert!(rt; are_refused(full()?, &DAMAGES));
    assert!(rt; are_refused(idle(1, 16)?, &IDLE_DAMAGES));
    Ok(())
}

// Bytes of a head, and the values that one of them can have while all the others stay.
type Span = (RangeInclusive<usize>, RangeInclusive<u8>);

// Of the new volume's head: number 1, 2 slots.
fn new_ranges() -> [Span; 19] {
    [
        // mark and edition
        (0..=0, 0x52..=0x52),
        (1..=1, 0x48..=0x48),
        (2..=2, 1..=1),
        // phase and armed: a move to a label of zeros is a head too, and so is a logged sector 0
        (3..=3, 0..=1),
        (4..=4, 0..=1),
        (5..=7, 0..=0),
        // the number: not 0, and below 2 to the 63
        (8..=8, 1..=255),
        (9..=14, 0..=255),
        (15..=15, 0..=127),
        // source label, target label and size
        (16..=31, 0..=255),
        (32..=47, 0..=0),
        (48..=55, 0..=255),
        // settled and kept rows
        (56..=71, 0..=0),
        // slots: not 0, and 2 above 15 times 256 at most
        (72..=72, 1..=255),
        (73..=73, 0..=15),
        (74..=75, 0..=0),
        (76..=79, 0..=0),
        // logged sector
        (80..=87, 0..=0),
        (88..=511, 0..=0),
    ]
}

// What is changed in the moving, armed head for the table below: number 127 times 2 to the 56, and 4096 slots.
const GREAT: [(usize, u8); 4] = [(8, 0), (15, 127), (72, 0), (73, 16)];

fn moving_ranges() -> [Span; 19] {
    [
        (0..=0, 0x52..=0x52),
        (1..=1, 0x48..=0x48),
        (2..=2, 1..=1),
        // neither idle with a target nor unarmed with a logged sector
        (3..=3, 1..=1),
        (4..=4, 1..=1),
        (5..=7, 0..=0),
        // the number: its last byte alone is not 0
        (8..=14, 0..=255),
        (15..=15, 1..=127),
        (16..=31, 0..=255),
        (32..=47, 0..=255),
        (48..=55, 0..=255),
        (56..=63, 0..=255),
        (64..=71, 0..=255),
        // slots: none above 4096
        (72..=72, 0..=0),
        (73..=73, 1..=16),
        (74..=75, 0..=0),
        (76..=79, 0..=0),
        (80..=87, 0..=255),
        (88..=511, 0..=0),
    ]
}

// Whether the ranges allow a byte this value.
fn is_allowed(ranges: &[Span], at: usize, value: u8) -> bool {
    ranges
        .iter()
        .find(|(bytes, _)| bytes.contains(&at))
        .is_some_and(|(_, values)| values.contains(&value))
}

// Whether bytes are a head where they should be and none where not. A head gives the same bytes again.
fn is_judged(bytes: &Sector, allowed: bool) -> bool {
    Head::decode(bytes).map(|head| head.encode()) == allowed.then_some(*bytes)
}

// The first byte, with its value, that is not judged by the ranges: every byte takes every value, and the others stay.
fn misjudged(bytes: Sector, ranges: &[Span]) -> Option<(usize, u8)> {
    for at in 0..SECTOR {
        for value in 0..=255u8 {
            let mut damaged = bytes;
            damaged[at] = value;
            if !is_judged(&damaged, is_allowed(ranges, at, value)) {
                return Some((at, value));
            }
        }
    }
    None
}

#[test]
fn every_byte(rt: HostRuntime) {
    let mut bytes = zeros();
    set(&mut bytes, &NEW);
    assert_eq!(rt; misjudged(bytes, &new_ranges()), None);
    set(&mut bytes, &MOVING);
    set(&mut bytes, &GREAT);
    assert_eq!(rt; misjudged(bytes, &moving_ranges()), None);
}

// A head has 512 bytes, no fewer and no more.
#[test]
fn head_lengths(rt: HostRuntime) {
    let mut bytes = zeros();
    set(&mut bytes, &NEW);
    // a sector and one zero more
    let mut long = [0; SECTOR + 1];
    long[..SECTOR].copy_from_slice(&bytes);
    for (len, due) in [(0, false), (511, false), (512, true), (513, false)] {
        assert_eq!(rt; Head::decode(&long[0..len]).is_some(), due);
    }
}

// what an open finds, and how many members have no head of that size then
#[derive(Clone, Copy, PartialEq, Eq, Debug)]
struct Opened {
    answer: Answer,
    size: u64,
    others: usize,
}

impl Opened {
    // Opens with heads of these numbers and sizes on members 0 to 3. Where there is none, a head with a higher number is damaged.
    fn of(heap: Global, heads: [Option<(u64, u64)>; 4]) -> Result<Opened, Fail> {
        let mut shelf = PlainShelf::blank(heap, 4, 13)?;
        for (member, head) in heads.iter().enumerate() {
            let (number, size) = head.unwrap_or((7, 14));
            let mut bytes = idle(number, size)?;
            if head.is_none() {
                bytes[511] = 1;
            }
            shelf.write(member as u64, 0, &bytes)?;
        }
        let (volume, found) = wider(8)?.open(shelf);
        let size = volume.size();
        Ok(Opened {
            answer: answered(found),
            size,
            others: others(&mut volume.into_shelf(), size),
        })
    }
}

// How many of 4 members have no head of this size.
fn others(shelf: &mut PlainShelf, size: u64) -> usize {
    (0..4u64)
        .filter(|&member| {
            let mut bytes = zeros();
            shelf.read(member, 0, &mut bytes).is_err()
                || Head::decode(&bytes).is_none_or(|head| head.size != size)
        })
        .count()
}

#[test]
fn leading_heads(rt: HostRuntime) -> Result<(), Fail> {
    let found = |size| Opened {
        answer: Ok(()),
        size,
        others: 0,
    };
    let none = Opened {
        answer: Err(Refusal::NoHead),
        size: 0,
        others: 4,
    };
    let old = Some((4, 10));
    for (heads, due) in [
        ([old; 4], found(10)),
        ([old, Some((5, 11)), old, old], found(11)),
        ([old, Some((5, 12)), Some((5, 11)), old], found(12)),
        (
            [Some((5, 11)), Some((5, 12)), Some((5, 12)), Some((5, 12))],
            found(11),
        ),
        (
            [old, Some((5, 11)), Some((5, 12)), Some((6, 13))],
            found(13),
        ),
        ([None, None, old, None], found(10)),
        ([None; 4], none),
    ] {
        assert_eq!(rt; Opened::of(rt.alloc(), heads)?, due);
    }
    Ok(())
}
