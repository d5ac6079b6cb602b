// The arrays that a volume is laid on, and whether enough members are present for them.
ghost use Rattle.std.specs.Prelude.{◌≡◌};
ghost use Rattle.model.specs.Crew.{absent, borne, count, enough};
ghost use Rattle.stage.specs.Arrays.{crew_of};

use head::Head;
use layout::Layout;
use model::phase::Phase;
use shelf::Shelf;

// The source and the target, the phase that says which of them is in force, and the last checkpoint.
#[derive(Drop)]
pub struct Array<L> {
    pub source: L,
    pub target: L,
    pub phase: Phase,
    pub head: Head,
}

// How many of the first members are absent.
fn absent_below<S: Shelf>(shelf: &S, end: u64) -> u64
    ensures { result ≡ count (absent (S.meaning shelf.now).present) end }
{
    (0..end).filter(|member| !shelf.is_present(*member)).count() as u64
}

// Whether a layout has every sector with the members that are absent. Members that the shelf has not are not absent.
pub fn bears<S: Shelf, L: Layout>(shelf: &S, layout: &L) -> bool
    ensures { result ≡ borne (L.geometry layout.now) (S.meaning shelf.now) }
{
    absent_below(shelf, u64::min(layout.members(), shelf.members())) <= layout.loss()
}

impl<L: Layout> Array<L> {
    // Whether enough members are present for the layouts in force.
    pub fn enough<S: Shelf>(&self, shelf: &S) -> bool
        ensures { result ≡ enough (crew_of L.geometry self.now) (S.meaning shelf.now) }
    {
        match self.phase {
            Phase::Before => bears(shelf, &self.source),
            Phase::Moving => bears(shelf, &self.source) && bears(shelf, &self.target),
            Phase::After => bears(shelf, &self.target),
            Phase::Shut(_) => false,
        }
    }
}
