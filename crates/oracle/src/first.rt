// Questions that are asked of the first numbers.
ghost use Rattle.std.specs.Prelude.{◌≡◌, ℕ, ◌<◌, ◌≤◌, Bool};
ghost use Rattle.model.specs.Crew.{count};
ghost use Rattle.model.specs.Contents.{some};

// Whether `holds` says yes of some number below the end.
pub(crate) fn some_below<F: Fn(u64) -> bool>(end: u64, holds: F) -> bool
    requires { F.IsAlwaysCallable holds }
    ensures { (f : ℕ → Bool) → ((i : ℕ) (y : Bool) → i < end → F.post holds i y → y ≡ f i) → result ≡ some f end }
{
    (0..end).any(holds)
}

// Of how many numbers below the end `holds` says yes.
pub(crate) fn count_below<F: Fn(u64) -> bool>(end: u64, holds: F) -> u64
    requires { F.IsAlwaysCallable holds }
    ensures value { (f : ℕ → Bool) → ((i : ℕ) (y : Bool) → F.post holds i y → y ≡ f i) → result ≡ count f end }
    ensures bound { result ≤ end }
{
    (0..end).filter(|number| holds(*number)).count() as u64
}
