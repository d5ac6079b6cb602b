// Any of the four stock layouts, as a label names it.
ghost use Rattle.std.specs.Prelude.{◌≡◌, MatchOption, MatchResult, true, false};
ghost use Rattle.answer.specs.declared.Refusal.TheVariants.{OutOfLimits};
ghost use Rattle.layout.specs.Labels.{stock_in_limits};
ghost use Rattle.kinds.specs.Stocks.{geometry_of, label_of};
ghost use Rattle.kinds.specs.Laws.{one_name};
ghost use Rattle.kinds.specs.StockLaws.{stock_lawful, stock_named};

use crate::far::Far;
use crate::left_symmetric::LeftSymmetric;
use crate::near::Near;
use crate::striped::Striped;
use answer::Refusal;
use layout::Layout;
use layout::kind::Kind;
use layout::label::Label;
use layout::place::{Owner, Place};

#[derive(Clone, Copy, PartialEq, Eq, Debug)]
pub enum Stock {
    Striped(Striped),
    LeftSymmetric(LeftSymmetric),
    Near(Near),
    Far(Far),
}

// What the layout that a stock layout is answers.
macro_rules! ask {
    ($stock:expr, $layout:ident => $answer:expr) => {
        match $stock {
            Stock::Striped($layout) => $answer,
            Stock::LeftSymmetric($layout) => $answer,
            Stock::Near($layout) => $answer,
            Stock::Far($layout) => $answer,
        }
    };
}

impl Stock {
    // The layout that a label names; every label that is out of limits is refused. By this name and not as `try_from`, which would not say
    // that the layout is the one that the label is of.
    pub fn from_label(label: &Label) -> Result<Stock, Refusal>
        ensures { MatchResult result (λ s. (stock_in_limits label.now ≡ true) × (label_of s ≡ label.now)) (λ e. (stock_in_limits label.now ≡ false) × (e ≡ OutOfLimits)) }
    {
        Stock::named(label).ok_or(Refusal::OutOfLimits)
    }

    #[tactic(auto, using(layout::proofs::Numbered::kind_none))]
    fn named(label: &Label) -> Option<Stock>
        ensures { MatchOption result (stock_in_limits label.now ≡ false) (λ s. (stock_in_limits label.now ≡ true) × (label_of s ≡ label.now)) }
    {
        if label.reserved != 0 {
            return None;
        }
        let members = u64::from(label.members);
        let copies = u64::from(label.copies);
        let chunk = u64::from(label.chunk);
        let depth = label.depth;
        match Kind::try_from(label.kind) {
            Ok(Kind::Striped) if copies == 1 => {
                Striped::new(members, chunk, depth).map(Stock::Striped)
            }
            Ok(Kind::LeftSymmetric) if copies == 1 => {
                LeftSymmetric::new(members, chunk, depth).map(Stock::LeftSymmetric)
            }
            Ok(Kind::Near) => Near::new(members, copies, chunk, depth).map(Stock::Near),
            Ok(Kind::Far) => Far::new(members, copies, chunk, depth).map(Stock::Far),
            _ => None,
        }
    }
}

impl Layout for Stock {
    ghost geometry = { geometry_of };

    ghost named = { label_of };

    ghost lawful = { λ x. stock_lawful x };

    ghost one = { λ x y e. one_name _ _ _ _ (stock_named x) (stock_named y) e };

    fn label(&self) -> Label {
        ask!(self, layout => layout.label())
    }

    fn members(&self) -> u64 {
        ask!(self, layout => layout.members())
    }

    fn depth(&self) -> u64 {
        ask!(self, layout => layout.depth())
    }

    fn copies(&self) -> u64 {
        ask!(self, layout => layout.copies())
    }

    fn loss(&self) -> u64 {
        ask!(self, layout => layout.loss())
    }

    fn row_len(&self) -> u64 {
        ask!(self, layout => layout.row_len())
    }

    fn rows(&self) -> u64 {
        ask!(self, layout => layout.rows())
    }

    fn capacity(&self) -> u64 {
        ask!(self, layout => layout.capacity())
    }

    fn place(&self, sector: u64, copy: u64) -> Place {
        ask!(self, layout => layout.place(sector, copy))
    }

    fn group(&self, sector: u64) -> Option<u64> {
        ask!(self, layout => layout.group(sector))
    }

    fn peers(&self, group: u64) -> u64 {
        ask!(self, layout => layout.peers(group))
    }

    fn peer(&self, group: u64, index: u64) -> u64 {
        ask!(self, layout => layout.peer(group, index))
    }

    fn parity(&self, group: u64) -> Place {
        ask!(self, layout => layout.parity(group))
    }

    fn owner(&self, place: Place) -> Owner {
        ask!(self, layout => layout.owner(place))
    }
}
