// What the tests work with: layouts, shelves of zeros, contents that tell their sector, and volumes under way.
use answer::{Refusal, Refused};
use head::{Head, MOST_BACKUP, MOST_NUMBER, Progress};
use kinds::stock::Stock;
use layout::Layout;
use layout::kind::Kind;
use layout::label::Label;
use sector::{SECTOR, Sector, zeros};
use shelf::plain::PlainShelf;
use shelf::trial::{Control, TrialShelf};
use shelf::{Failure, Shelf};
use std::alloc::Global;
use std::test::Fail;
use volume::Volume;
use volume::grant::Grant;

// what a call answers, without the fault
pub type Answer = Result<(), Refusal>;

pub fn answered<T: Drop>(res: Result<T, Refused>) -> Answer {
    res.map(|_| ()).map_err(|refused| refused.refusal)
}

// The labels of the stock kinds: members, copies where there are more than one, chunk and depth. One for each kind, since the tests are
// tables of such labels.
pub fn striped(members: u8, chunk: u32, depth: u64) -> Label {
    Label::stock(Kind::Striped, members, 1, chunk, depth)
}

pub fn parity(members: u8, chunk: u32, depth: u64) -> Label {
    Label::stock(Kind::LeftSymmetric, members, 1, chunk, depth)
}

pub fn near(members: u8, copies: u8, chunk: u32, depth: u64) -> Label {
    Label::stock(Kind::Near, members, copies, chunk, depth)
}

pub fn far(members: u8, copies: u8, chunk: u32, depth: u64) -> Label {
    Label::stock(Kind::Far, members, copies, chunk, depth)
}

// The two layouts of a move.
#[derive(Clone, Copy)]
pub struct Ends {
    pub source: Stock,
    pub target: Stock,
}

impl Ends {
    pub fn new(source: Label, target: Label) -> Result<Ends, Refusal> {
        Ok(Ends {
            source: Stock::from_label(&source)?,
            target: Stock::from_label(&target)?,
        })
    }

    // The layouts of a volume that stays as it is.
    pub fn still(label: Label) -> Result<Ends, Refusal> {
        Ends::new(label, label)
    }

    // The way back.
    pub fn turned(self) -> Ends {
        Ends {
            source: self.target,
            target: self.source,
        }
    }

    pub fn create<S: Shelf>(
        self,
        shelf: S,
        backup: u32,
        size: u64,
    ) -> (Volume<S, Stock>, Result<(), Refused>) {
        Volume::create(shelf, self.source, self.target, backup, size)
    }

    pub fn open<S: Shelf>(self, shelf: S) -> (Volume<S, Stock>, Result<(), Refused>) {
        Volume::open(shelf, self.source, self.target)
    }

    // A new volume with every sector in version 1.
    pub fn filled<S: Shelf + Drop>(
        self,
        shelf: S,
        backup: u32,
        size: u64,
    ) -> Result<Volume<S, Stock>, Refused> {
        let (mut volume, created) = self.create(shelf, backup, size);
        created?;
        for sector in 0..size {
            put(&mut volume, sector, 1)?;
        }
        Ok(volume)
    }
}

// Left-symmetric parity of chunk 1 and this depth, on 3 members and then on 4.
pub fn wider(depth: u64) -> Result<Ends, Refusal> {
    Ends::new(parity(3, 1, depth), parity(4, 1, depth))
}

// What a version of a sector holds; version 0 is what a new volume has. The tour of the main program has a formula of its own, and
// what both write is fixed.
pub fn pattern(sector: u64, version: u64) -> Sector {
    let mut out = zeros();
    if version == 0 {
        return out;
    }
    let seed = sector
        .wrapping_mul(37)
        .wrapping_add(version.wrapping_mul(101));
    for (i, byte) in out.iter_mut().enumerate() {
        *byte = (seed.wrapping_mul(i as u64 | 1) & 0xff) as u8;
    }
    let [s0, s1, ..] = sector.to_le_bytes();
    let [v0, v1, ..] = version.to_le_bytes();
    out[..4].copy_from_slice(&[s0, s1, v0, v1]);
    out
}

// Whether sector `at` of a run of bytes, counted in sectors, is the pattern of this version of sector 0.
pub fn lies_at(run: &[u8], at: usize, version: u64) -> bool {
    run.get(at.saturating_mul(SECTOR)..)
        .and_then(|rest| rest.first_chunk::<SECTOR>())
        .is_some_and(|sector| *sector == pattern(0, version))
}

// Writes a version of a sector.
pub fn put<S: Shelf>(
    volume: &mut Volume<S, Stock>,
    sector: u64,
    version: u64,
) -> Result<(), Refused> {
    volume.write(sector, &pattern(sector, version))
}

// Whether a sector is read back as this version. The tour of the main program has these two lines too, by
// another formula; for them alone a crate would have to stand between.
pub fn shows<S: Shelf>(volume: &mut Volume<S, Stock>, sector: u64, version: u64) -> bool {
    let mut content = zeros();
    volume.read(sector, &mut content).is_ok() && content == pattern(sector, version)
}

// How many sectors are not in version 1. A volume that is shut has one wrong sector.
pub fn wrong<S: Shelf>(volume: &mut Volume<S, Stock>) -> usize {
    wrong_beside(volume, 0, 1)
}

// The same where one sector was changed to this version.
pub fn wrong_beside<S: Shelf>(volume: &mut Volume<S, Stock>, changed: u64, version: u64) -> usize {
    (0..volume.size().max(1))
        .filter(|&sector| {
            let due = if sector == changed { version } else { 1 };
            !shows(volume, sector, due)
        })
        .count()
}

// Copies the next row and settles it.
pub fn settle_next<S: Shelf>(volume: &mut Volume<S, Stock>) -> Result<(), Refused> {
    let grant = volume.copy()?;
    volume.settle(grant)
}

// Copies the next row and hands it back. The tour of the main program has these two lines too: for them alone a crate would have to
// stand between.
pub fn try_copy<S: Shelf>(volume: &mut Volume<S, Stock>) -> Result<(), Refused> {
    let grant = volume.copy()?;
    volume.hand_back(grant)
}

// Goes on until so many target rows are settled, keeping no more source rows than that needs.
pub fn walk_on<S: Shelf>(volume: &mut Volume<S, Stock>, rows: u64) -> Result<(), Refused> {
    // more turns than any move takes here
    for _ in 0..64u64 {
        if volume.settled() >= rows {
            break;
        }
        match settle_next(volume) {
            Err(refused) if refused.refusal == Refusal::NeedNotKept => volume.keep()?,
            settled => settled?,
        }
    }
    Ok(())
}

// The grant of row 0 of some other volume.
pub fn stray_grant(heap: Global) -> Result<Grant, Fail> {
    let (mut volume, _) = wider(2)?.create(PlainShelf::blank(heap, 4, 7)?, 2, 0);
    volume.begin()?;
    Ok(volume.copy()?)
}

// The move of parity from 3 members to 4 on a shelf that loses nothing: depth 8, 4 slots, 16 sectors, each in version 1.
pub fn plain_move(heap: Global) -> Result<Volume<PlainShelf, Stock>, Fail> {
    Ok(wider(8)?.filled(PlainShelf::blank(heap, 4, 15)?, 4, 16)?)
}

// The same on a trial shelf. Two functions: with one for both, every caller would have to say the size of its shelf.
pub fn trial_move(heap: Global) -> Result<Volume<TrialShelf, Stock>, Fail> {
    Ok(wider(8)?.filled(TrialShelf::blank(heap, 4, 15)?, 4, 16)?)
}

// Has a member be found absent at its next operation.
pub fn lose(volume: &mut Volume<TrialShelf, Stock>, member: u64) -> Answer {
    volume.control(Control::Loss(member))
}

// The fields of a head, whether or not they are in the ranges of one.
#[derive(Clone, Copy)]
pub struct Draft {
    pub number: u64,
    pub source: Label,
    pub progress: Progress,
    pub size: u64,
    pub backup: u32,
    pub armed: Option<u64>,
}

impl Draft {
    pub fn head(self) -> Result<Head, Fail> {
        let Draft {
            number,
            source,
            progress,
            size,
            backup,
            armed,
        } = self;
        if !(1..=MOST_NUMBER).contains(&number) || !(1..=MOST_BACKUP).contains(&backup) {
            return Err(Fail::new("no head has these numbers"));
        }
        Ok(Head {
            number,
            source,
            progress,
            size,
            backup,
            armed,
        })
    }
}

// Writes a head to every member.
pub fn put_heads<S: Shelf>(shelf: &mut S, head: &Head) -> Result<(), Failure> {
    let bytes = head.encode();
    for member in 0..shelf.members() {
        shelf.write(member, 0, &bytes)?;
        shelf.flush(member)?;
    }
    Ok(())
}
