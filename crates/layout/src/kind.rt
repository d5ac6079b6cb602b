// The stock kinds of layout, and the numbers by which a label names them.
ghost use Rattle.std.specs.Prelude.{◌≡◌};
ghost use Rattle.layout.specs.Kinds.{KindOf, kind_number};

#[derive(Clone, Copy, PartialEq, Eq, Debug)]
pub enum Kind {
    Striped = 1,
    LeftSymmetric = 2,
    Near = 3,
    Far = 4,
}

// a number that no stock kind has
#[derive(Clone, Copy, PartialEq, Eq, Debug)]
pub struct UnknownKind(pub u8);

impl From<Kind> for u8 {
    ghost from_gives = { λ kind n. n ≡ kind_number kind };

    fn from(kind: Kind) -> u8 {
        kind as u8
    }
}

impl TryFrom<u8> for Kind {
    type Error = UnknownKind;

    ghost try_from_gives = { KindOf };

    fn try_from(number: u8) -> Result<Kind, UnknownKind> {
        [Kind::Striped, Kind::LeftSymmetric, Kind::Near, Kind::Far]
            .into_iter()
            .find(|&kind| u8::from(kind) == number)
            .ok_or(UnknownKind(number))
    }
}
