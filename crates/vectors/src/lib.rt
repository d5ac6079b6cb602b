// Placements that were recorded from the Linux md driver, compared with the stock layouts.
//
// A recording is a text. Its first line is `# kind n f c d capacity`: striped, parity, near or far; members, copies, chunk in sectors,
// the sectors of each member that md was given, and the sectors that md made of them. Other lines with `#` are remarks. Then, for the
// first sector of every chunk, `D sector copy member offset`, and for every chunk of parity `P member offset`. md uses whole chunks only,
// so the depth is d rounded down to chunks. The recording numbers copies by their places, so what counts is the set of places.
#![tactic(auto)]

ghost use Rattle.std.specs.Prelude.{◌≡◌, ◌&&◌, ◌==◌};
ghost use Rattle.vectors.specs.Agreements.{agreed};

mod totals;

use kinds::stock::Stock;
use layout::Layout;
use layout::kind::Kind;
use layout::label::Label;
use layout::place::{Owner, Place};
use std::alloc::{AllocFailed, Global};
use std::error::Error;
use std::fmt;
use std::str::FromStr;
pub use totals::Totals;

// how a recording compares
#[derive(Clone, Copy, Default, PartialEq, Eq, Debug)]
pub struct Comparison {
    // copies and parities that were compared, sector by sector
    pub data: u64,
    pub parities: u64,
    // of these, how many lie elsewhere in the layout, and how many lie where another one does that was compared before
    pub differing: u64,
    pub doubled: u64,
    // copies and parities that the layout has and the recording lacks
    pub missing: u64,
    // whether md made just as many sectors of it
    pub same_capacity: bool,
}

impl Comparison {
    // Whether the recording names each place of the layout once, and with what lies there.
    pub fn agrees(&self) -> bool
        ensures { result ≡ agreed self.now }
    {
        (self.differing == 0 && self.doubled == 0) && (self.missing == 0 && self.same_capacity)
    }
}

// why a text is not compared
#[derive(Clone, Copy, PartialEq, Eq, Debug)]
pub enum NoRecording {
    FirstLine,
    OutOfLimits,
    Line,
    OutOfMemory,
}

impl fmt::Display for NoRecording {
    fn fmt<W: fmt::Write>(&self, f: &mut fmt::Formatter<W>) -> fmt::Result {
        match self {
            NoRecording::FirstLine => write!(f, "its first line names no layout"),
            NoRecording::OutOfLimits => write!(f, "its layout is out of limits"),
            NoRecording::Line => write!(f, "a line of it tells no place"),
            NoRecording::OutOfMemory => write!(f, "out of memory"),
        }
    }
}

impl Error for NoRecording {}

impl<T: Drop> From<AllocFailed<T>> for NoRecording {
    fn from(_failed: AllocFailed<T>) -> NoRecording {
        NoRecording::OutOfMemory
    }
}

// what the first line says
#[derive(Clone, Copy)]
struct Recorded {
    layout: Stock,
    chunk: u64,
    capacity: u64,
}

// a kind, by the word that a recording has for it
#[derive(Clone, Copy)]
struct Named(Kind);

// a word that names no kind
#[derive(Clone, Copy)]
struct UnknownWord;

impl FromStr for Named {
    type Err = UnknownWord;

    fn from_str(word: &str) -> Result<Named, UnknownWord> {
        match word {
            "striped" => Ok(Named(Kind::Striped)),
            "parity" => Ok(Named(Kind::LeftSymmetric)),
            "near" => Ok(Named(Kind::Near)),
            "far" => Ok(Named(Kind::Far)),
            _ => Err(UnknownWord),
        }
    }
}

fn parsed<T: FromStr>(word: Option<&str>) -> Option<T>
where
    T::Err: Drop,
{
    word?.parse().ok()
}

// The label and the capacity that a first line tells.
fn header(line: &str) -> Option<(Label, u64)> {
    let mut words = line.split(' ');
    if words.next()? != "#" {
        return None;
    }
    let Named(kind) = parsed(words.next())?;
    let members = parsed(words.next())?;
    let copies = parsed(words.next())?;
    let chunk = parsed::<u32>(words.next())?;
    let offered = parsed::<u64>(words.next())?;
    let capacity = parsed(words.next())?;
    let depth = offered - offered.checked_rem(u64::from(chunk))?;
    Some((Label::stock(kind, members, copies, chunk, depth), capacity))
}

// The layout that a first line tells of.
fn first_line(line: &str) -> Result<Recorded, NoRecording> {
    let Some((label, capacity)) = header(line) else {
        return Err(NoRecording::FirstLine);
    };
    let Ok(layout) = Stock::from_label(&label) else {
        return Err(NoRecording::OutOfLimits);
    };
    Ok(Recorded {
        layout,
        chunk: u64::from(label.chunk),
        capacity,
    })
}

// what a line tells: the first sector of a chunk of data or of parity, and its place
#[derive(Clone, Copy)]
enum Told {
    Datum(u64, Place),
    Parity(Place),
    Remark,
}

// None where it is no line of a recording.
fn read_line(line: &str) -> Option<Told> {
    let mut words = line.split(' ');
    match words.next()? {
        "D" => {
            let sector = parsed(words.next())?;
            let _copy = parsed::<u64>(words.next())?;
            let place = (parsed(words.next())?, parsed(words.next())?);
            Some(Told::Datum(sector, place))
        }
        "P" => {
            let place = (parsed(words.next())?, parsed(words.next())?);
            Some(Told::Parity(place))
        }
        "#" => Some(Told::Remark),
        _ => None,
    }
}

// Whether the layout has a sector at a place: the place names its owner, and the owner its place.
fn has_datum(layout: &Stock, sector: u64, at: Place) -> bool {
    matches!(layout.owner(at), Owner::Datum { sector: owned, copy } if owned == sector && layout.place(owned, copy) == at)
}

// The same of a sector of parity.
fn has_parity(layout: &Stock, at: Place) -> bool {
    matches!(layout.owner(at), Owner::Parity { group } if layout.parity(group) == at)
}

// How many copies and parities the layout has.
fn expected(layout: &Stock) -> u64 {
    let data = layout.capacity().saturating_mul(layout.copies());
    let parities = layout.group(0).map_or(0, |_| layout.depth());
    data.saturating_add(parities)
}

// Places of a member one after another, from `start` up to `end`.
#[derive(Clone, Copy, PartialEq, Eq, PartialOrd, Ord)]
struct Span {
    member: u64,
    start: u64,
    end: u64,
}

impl Span {
    // Whether another one begins in it or where it ends.
    fn meets(&self, next: &Span) -> bool {
        self.member == next.member && (self.start..=self.end).contains(&next.start)
    }
}

// so many spans are kept before they are joined for the first time
const FEW: usize = 4_096;

// Adds a span; one that meets the latest is joined with it.
fn add(spans: &mut Vec<Span>, next: Span) -> Result<(), NoRecording> {
    match spans.last_mut() {
        Some(latest) if latest.meets(&next) => latest.end = latest.end.max(next.end),
        _ => spans.push(next)?,
    }
    Ok(())
}

// A recording under way: what was found so far, how many places lie where the layout has them, and these places. They are kept as spans
// that are joined as they double, since a recording may name all places of the largest layout.
#[derive(Drop)]
struct Reading {
    recorded: Recorded,
    found: Comparison,
    named: u64,
    spans: Vec<Span>,
    heap: Global,
    // how many spans there are when they are joined again
    due: usize,
}

impl Reading {
    // Counts one place.
    fn count(&mut self, lies: bool, at: Place) -> Result<(), NoRecording> {
        if !lies {
            self.found.differing = self.found.differing.saturating_add(1);
            return Ok(());
        }
        self.named = self.named.saturating_add(1);
        let (member, start) = at;
        let end = start.saturating_add(1);
        if self.spans.len() >= self.due {
            self.join()?;
        }
        add(&mut self.spans, Span { member, start, end })
    }

    // Joins the spans that meet, so that no two of them share a place.
    fn join(&mut self) -> Result<(), NoRecording> {
        self.spans.sort_unstable();
        let mut joined = Vec::new(self.heap);
        for span in &self.spans {
            add(&mut joined, *span)?;
        }
        self.due = joined.len().saturating_mul(2).max(FEW);
        self.spans = joined;
        Ok(())
    }

    // A chunk of data from a sector on.
    fn add_data(&mut self, sector: u64, place: Place) -> Result<(), NoRecording> {
        for i in 0..self.recorded.chunk {
            let at = (place.0, place.1.saturating_add(i));
            let lies = has_datum(&self.recorded.layout, sector.saturating_add(i), at);
            self.count(lies, at)?;
        }
        self.found.data = self.found.data.saturating_add(self.recorded.chunk);
        Ok(())
    }

    // A chunk of parity.
    fn add_parity(&mut self, place: Place) -> Result<(), NoRecording> {
        for i in 0..self.recorded.chunk {
            let at = (place.0, place.1.saturating_add(i));
            let lies = has_parity(&self.recorded.layout, at);
            self.count(lies, at)?;
        }
        self.found.parities = self.found.parities.saturating_add(self.recorded.chunk);
        Ok(())
    }

    fn add_line(&mut self, line: &str) -> Result<(), NoRecording> {
        match read_line(line) {
            Some(Told::Datum(sector, place)) => self.add_data(sector, place),
            Some(Told::Parity(place)) => self.add_parity(place),
            Some(Told::Remark) => Ok(()),
            None => Err(NoRecording::Line),
        }
    }

    // Each place of the layout is to be there once.
    fn whole(mut self) -> Result<Comparison, NoRecording> {
        self.join()?;
        let mut different: u64 = 0;
        for span in &self.spans {
            different = different.saturating_add(span.end.saturating_sub(span.start));
        }
        Ok(Comparison {
            doubled: self.named.saturating_sub(different),
            missing: expected(&self.recorded.layout).saturating_sub(different),
            same_capacity: self.recorded.capacity == self.recorded.layout.capacity(),
            ..self.found
        })
    }
}

// Compares a recording with the layout that its first line tells of.
pub fn compare(heap: Global, text: &str) -> Result<Comparison, NoRecording> {
    let mut lines = text.lines();
    let mut reading = Reading {
        recorded: first_line(lines.next().unwrap_or(""))?,
        found: Comparison::default(),
        named: 0,
        spans: Vec::new(heap),
        heap,
        due: FEW,
    };
    for line in lines {
        reading.add_line(line)?;
    }
    reading.whole()
}

#[cfg(test)]
mod tests {
    use super::*;
    use std::test::Fail;

    const GOOD: &str =
        "# near 3 2 1 2 3\nD 0 0 0 0\nD 0 1 1 0\nD 1 0 2 0\nD 1 1 0 1\nD 2 0 1 1\nD 2 1 2 1\n";

    // A damaged number each, the place, the sector and the capacity; a line left out, and a line in another one's stead.
    const PLACE: &str =
        "# near 3 2 1 2 3\nD 0 0 0 0\nD 0 1 1 0\nD 1 0 2 0\nD 1 1 0 0\nD 2 0 1 1\nD 2 1 2 1\n";

    const SECTOR_AMISS: &str =
        "# near 3 2 1 2 3\nD 0 0 0 0\nD 0 1 1 0\nD 2 0 2 0\nD 1 1 0 1\nD 2 0 1 1\nD 2 1 2 1\n";

    const CAPACITY: &str =
        "# near 3 2 1 2 4\nD 0 0 0 0\nD 0 1 1 0\nD 1 0 2 0\nD 1 1 0 1\nD 2 0 1 1\nD 2 1 2 1\n";

    const SHORT: &str = "# near 3 2 1 2 3\nD 0 0 0 0\nD 0 1 1 0\nD 1 0 2 0\nD 1 1 0 1\nD 2 0 1 1\n";

    const DOUBLED: &str =
        "# near 3 2 1 2 3\nD 0 0 0 0\nD 0 1 1 0\nD 1 0 2 0\nD 1 1 0 1\nD 2 0 1 1\nD 0 0 0 0\n";

    // A chunk that begins in the middle of one that is named too.
    const OVERLAPPING: &str =
        "# striped 2 1 2 4 8\nD 0 0 0 0\nD 1 0 0 1\nD 2 0 1 0\nD 4 0 0 2\nD 6 0 1 2\n";

    // Two chunks that lie end to end, and a third that begins in the first: it ends before the second does.
    const WITHIN: &str =
        "# striped 2 1 4 8 16\nD 0 0 0 0\nD 8 0 0 4\nD 8 0 0 4\nD 1 0 0 1\nD 4 0 1 0\nD 12 0 1 4\n";

    const WHOLE: Comparison = Comparison {
        data: 6,
        parities: 0,
        differing: 0,
        doubled: 0,
        missing: 0,
        same_capacity: true,
    };

    // What one of these texts gives where its capacity is right.
    fn counted(data: u64, differing: u64, doubled: u64, missing: u64) -> Comparison {
        Comparison {
            data,
            differing,
            doubled,
            missing,
            ..WHOLE
        }
    }

    #[test]
    fn recordings(rt: HostRuntime) {
        for (text, due) in [
            (GOOD, WHOLE),
            (PLACE, counted(6, 1, 0, 1)),
            (SECTOR_AMISS, counted(6, 1, 0, 1)),
            (
                CAPACITY,
                Comparison {
                    same_capacity: false,
                    ..WHOLE
                },
            ),
            (SHORT, counted(5, 0, 0, 1)),
            (DOUBLED, counted(6, 0, 1, 1)),
            (OVERLAPPING, counted(10, 1, 1, 0)),
            (WITHIN, counted(24, 1, 7, 0)),
        ] {
            let found = compare(rt.alloc(), text);
            assert_eq!(rt; found, Ok(due));
            assert_eq!(rt; found.is_ok_and(|found| found.agrees()), due == WHOLE);
        }
    }

    #[test]
    fn no_recordings(rt: HostRuntime) {
        for (text, due) in [
            ("", NoRecording::FirstLine),
            ("# mirror 3 2 1 2 3\n", NoRecording::FirstLine),
            ("# near 3 4 1 2 3\nD 0 0 0 0\n", NoRecording::OutOfLimits),
            ("# near 3 2 1 2 3\nD 0 0 0\n", NoRecording::Line),
        ] {
            assert_eq!(rt; compare(rt.alloc(), text), Err(due));
        }
    }

    // A run over no files, over one that agrees, over one that does not, and over one that is no recording and then one that agrees.
    #[test]
    fn runs(rt: HostRuntime) -> Result<(), Fail> {
        let none = Totals::default();
        let good = none.compared(compare(rt.alloc(), GOOD)?);
        assert!(rt; !none.all_agree());
        assert!(rt; good.all_agree());
        let doubled = none.compared(compare(rt.alloc(), DOUBLED)?);
        assert!(rt; !doubled.all_agree());
        let mixed = none.left_out().compared(compare(rt.alloc(), GOOD)?);
        assert!(rt; !mixed.all_agree());
        assert_eq!(rt; (mixed.recordings, mixed.left_out), (1, 1));
        Ok(())
    }
}
