// A layout of a customer's own whose label says a stock kind that it is not.
ghost use Rattle.std.proofs.Common.{ap};
ghost use Rattle.layout.specs.declared.label.Label.{Label};
ghost use Rattle.kinds.specs.Laws.{one_name};
ghost use Rattle.kinds.specs.Stocks.{geometry_of, label_of};
ghost use Rattle.kinds.specs.StockLaws.{stock_lawful, stock_named};
ghost use Rattle.kinds.specs.declared.stock.Stock.TheVariants as stock;

use crate::setup::{Answer, answered};
use answer::Refusal;
use kinds::near::Near;
use layout::Layout;
use layout::label::Label;
use layout::place::{Owner, Place};
use shelf::plain::PlainShelf;
use std::alloc::Global;
use std::test::Fail;
use volume::Volume;

// near copies under another kind
#[derive(Clone, Copy)]
pub struct Renamed {
    near: Near,
    kind: u8,
}

impl Layout for Renamed {
    ghost geometry = { λ x. geometry_of (stock.Near x.near) };

    ghost named = { λ x. record (label_of (stock.Near x.near)) { kind = x.kind } };

    ghost lawful = { λ x. stock_lawful (stock.Near x.near) };

    ghost one = { λ x y e. one_name _ _ _ _ (stock_named (stock.Near x.near)) (stock_named (stock.Near y.near)) (ap {A = Label} (λ l. record l { kind = 3 }) e) };

    fn label(&self) -> Label {
        Label {
            kind: self.kind,
            ..self.near.label()
        }
    }

    fn members(&self) -> u64 {
        self.near.members()
    }

    fn depth(&self) -> u64 {
        self.near.depth()
    }

    fn copies(&self) -> u64 {
        self.near.copies()
    }

    fn loss(&self) -> u64 {
        self.near.loss()
    }

    fn row_len(&self) -> u64 {
        self.near.row_len()
    }

    fn rows(&self) -> u64 {
        self.near.rows()
    }

    fn capacity(&self) -> u64 {
        self.near.capacity()
    }

    fn place(&self, sector: u64, copy: u64) -> Place {
        self.near.place(sector, copy)
    }

    fn group(&self, sector: u64) -> Option<u64> {
        self.near.group(sector)
    }

    fn peers(&self, group: u64) -> u64 {
        self.near.peers(group)
    }

    fn peer(&self, group: u64, index: u64) -> u64 {
        self.near.peer(group, index)
    }

    fn parity(&self, group: u64) -> Place {
        self.near.parity(group)
    }

    fn owner(&self, place: Place) -> Owner {
        self.near.owner(place)
    }
}

// What create answers for a source of one kind, and begin for a target of another.
fn answers(heap: Global, source: u8, target: u8) -> Result<(Answer, Answer), Fail> {
    let near = Near::new(3, 2, 1, 4).ok_or("no layout")?;
    let shelf = PlainShelf::blank(heap, 3, 13)?;
    let source = Renamed { near, kind: source };
    let target = Renamed { near, kind: target };
    let (mut volume, created) = Volume::create(shelf, source, target, 6, 6);
    Ok((answered(created), answered(volume.begin())))
}

// A label of kind 1 has 1 copy, and here there are 2.
#[test]
fn stripes_with_two_copies(rt: HostRuntime) -> Result<(), Fail> {
    for (source, target, due) in [
        (128, 255, (Ok(()), Ok(()))),
        (128, 1, (Ok(()), Err(Refusal::OutOfLimits))),
        (
            1,
            128,
            (Err(Refusal::OutOfLimits), Err(Refusal::WrongPhase)),
        ),
    ] {
        assert_eq!(rt; answers(rt.alloc(), source, target)?, due);
    }
    Ok(())
}
