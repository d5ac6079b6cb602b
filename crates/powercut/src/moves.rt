// The moves that are tried.
use answer::Refusal;
use kinds::stock::Stock;
use layout::Layout;
use layout::kind::Kind;
use layout::label::Label;
use overlap::distance;
use std::alloc::{AllocError, Global};
use std::fmt;

// the head, the logged datum and the logged parity, which every member holds before its slots
const BEFORE_SLOTS: u64 = 3;

// The two layouts of a move.
#[derive(Clone, Copy, PartialEq, Eq)]
pub struct Ends {
    pub source: Stock,
    pub target: Stock,
}

impl Ends {
    // With the target as the source, as a finished volume is opened.
    pub fn turned(self) -> Ends {
        Ends {
            source: self.target,
            target: self.source,
        }
    }
}

// A move, and the shelf and the volume that it is tried on.
#[derive(Clone, Copy)]
pub struct Move {
    pub ends: Ends,
    pub members: u64,
    pub backup: u32,
    pub size: u64,
}

impl Move {
    // A move with as many slots as the distance asks for and those to spare, on a shelf that the layouts fill but for the members beyond them.
    fn of(row: &Row) -> Result<Move, Refusal> {
        let Row {
            source,
            target,
            size,
            spare,
            beyond,
        } = *row;
        let source = Stock::from_label(&source)?;
        let target = Stock::from_label(&target)?;
        let least = distance(&source, &target, size);
        let slots = u32::try_from(least).map_err(|_| Refusal::OutOfLimits)?;
        Ok(Move {
            ends: Ends { source, target },
            members: source
                .members()
                .max(target.members())
                .saturating_add(beyond),
            backup: slots.saturating_add(spare).max(1),
            size,
        })
    }

    // The sectors that each member of its shelf has.
    pub fn sectors(&self) -> u64 {
        let Ends { source, target } = self.ends;
        BEFORE_SLOTS
            .saturating_add(u64::from(self.backup))
            .saturating_add(source.depth().max(target.depth()))
    }

    // The bits of a choice word that rule the heads. On a shelf of more than 32 sectors each rules others too: 32 sectors on in the image, where no
    // log is in any of the moves here.
    pub fn heads_bits(&self) -> u32 {
        (0..self.members)
            .map(|member| 1u32 << (member.wrapping_mul(self.sectors()) % 32) as u32)
            .fold(0, |bits, bit| bits | bit)
    }
}

// `left-symmetric 3, chunk 1, depth 8`
#[derive(Clone, Copy)]
struct Named(Label);

impl fmt::Display for Named {
    fn fmt<W: fmt::Write>(&self, f: &mut fmt::Formatter<W>) -> fmt::Result {
        let Label {
            kind,
            members,
            copies,
            chunk,
            depth,
            ..
        } = self.0;
        f.write_str(match Kind::try_from(kind) {
            Ok(Kind::Striped) => "striped",
            Ok(Kind::LeftSymmetric) => "left-symmetric",
            Ok(Kind::Near) => "near",
            Ok(Kind::Far) => "far",
            Err(_) => "unknown",
        })?;
        write!(f, " {members}")?;
        if copies > 1 {
            write!(f, ", {copies} copies")?;
        }
        write!(f, ", chunk {chunk}, depth {depth}")
    }
}

impl fmt::Display for Move {
    fn fmt<W: fmt::Write>(&self, f: &mut fmt::Formatter<W>) -> fmt::Result {
        let source = Named(self.ends.source.label());
        let target = Named(self.ends.target.label());
        let (members, size, backup) = (self.members, self.size, self.backup);
        write!(
            f,
            "{source} to {target}; shelf of {members}, size {size}, slots {backup}"
        )
    }
}

fn striped(members: u8, chunk: u32, depth: u64) -> Label {
    Label::stock(Kind::Striped, members, 1, chunk, depth)
}

fn parity(members: u8, chunk: u32, depth: u64) -> Label {
    Label::stock(Kind::LeftSymmetric, members, 1, chunk, depth)
}

// Two copies of each sector.
fn near(members: u8, chunk: u32, depth: u64) -> Label {
    Label::stock(Kind::Near, members, 2, chunk, depth)
}

fn far(members: u8, chunk: u32, depth: u64) -> Label {
    Label::stock(Kind::Far, members, 2, chunk, depth)
}

// Three copies of each of four sectors.
fn thrice(kind: Kind) -> Label {
    Label::stock(kind, 4, 3, 1, 3)
}

// A move of a list: its two labels, the size, how many slots it has beyond the distance, and how many members the shelf has beyond both layouts.
#[derive(Clone, Copy)]
struct Row {
    source: Label,
    target: Label,
    size: u64,
    spare: u32,
    beyond: u64,
}

impl Row {
    fn new(source: Label, target: Label, size: u64) -> Row {
        Row {
            source,
            target,
            size,
            spare: 0,
            beyond: 0,
        }
    }

    fn spare(self, spare: u32) -> Row {
        Row { spare, ..self }
    }

    fn beyond(self, beyond: u64) -> Row {
        Row { beyond, ..self }
    }
}

// Each pair of kinds, with a size in the middle of a row.
fn pairs(heap: Global) -> Result<Vec<Row>, AllocError> {
    let mut rows = Vec::new(heap);
    for source in [
        striped(3, 1, 2),
        parity(3, 1, 3),
        near(3, 1, 4),
        far(3, 1, 4),
    ] {
        for target in [
            striped(2, 1, 3),
            parity(4, 1, 2),
            near(4, 1, 3),
            far(4, 1, 4),
        ] {
            rows.push(Row::new(source, target, 5))?;
        }
    }
    Ok(rows)
}

// Moves that are tried for what is special in them.
fn special() -> [Row; 12] {
    [
        // widened, at the capacity of the source
        Row::new(parity(3, 1, 4), parity(4, 1, 4), 8),
        Row::new(striped(2, 1, 4), striped(3, 1, 4), 8),
        // narrowed, at the capacity of the target
        Row::new(parity(4, 1, 3), parity(3, 1, 3), 6),
        Row::new(striped(3, 1, 4), striped(2, 1, 4), 8),
        Row::new(near(4, 1, 2), near(3, 1, 3), 4),
        // another chunk
        Row::new(parity(3, 1, 4), parity(3, 2, 4), 8),
        Row::new(striped(2, 2, 4), striped(2, 1, 4), 7),
        // with no sector, and with slots to spare
        Row::new(parity(3, 1, 2), parity(4, 1, 2), 0),
        Row::new(parity(3, 1, 3), near(4, 1, 3), 5).spare(2),
        // the target's parity alone lies on the second source row
        Row::new(near(3, 1, 2), parity(3, 1, 1), 2),
        // with three copies, of which two may be lost
        Row::new(thrice(Kind::Near), thrice(Kind::Far), 4),
        // on a shelf with a member that no layout uses: it has heads, the log and slots
        Row::new(parity(3, 1, 3), striped(2, 1, 3), 5).beyond(1),
    ]
}

// All the moves.
pub fn list(heap: Global) -> anyhow::Result<Vec<Move>> {
    let mut moves = Vec::new(heap);
    for row in pairs(heap)?.iter().chain(special().iter()) {
        moves.push(Move::of(row)?)?;
    }
    Ok(moves)
}
