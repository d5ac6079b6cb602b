// Where the stock layouts put sectors and parities, and the labels that name them.
use crate::setup::{far, near, parity, striped};
use answer::Refusal;
use kinds::stock::Stock;
use layout::Layout;
use layout::label::Label;
use layout::place::{Owner, Place};
use sector::field::Field;
use std::test::Fail;

fn datum(sector: u64, copy: u64) -> Owner {
    Owner::Datum { sector, copy }
}

fn parity_of(group: u64) -> Owner {
    Owner::Parity { group }
}

// Where a layout puts a copy of a sector, or the parity of a group.
fn spot<L: Layout>(layout: &L, owner: Owner) -> Option<Place> {
    match owner {
        Owner::Datum { sector, copy } => Some(layout.place(sector, copy)),
        Owner::Parity { group } => Some(layout.parity(group)),
        Owner::Nobody => None,
    }
}

// Whether it is found again at its place.
fn is_found<L: Layout>(layout: &L, owner: Owner) -> bool {
    spot(layout, owner).is_some_and(|at| layout.owner(at) == owner)
}

// how many sectors have a copy that is not found again, and how many groups such a parity
#[derive(Clone, Copy, PartialEq, Eq, Debug)]
struct Unfound {
    sectors: usize,
    groups: usize,
}

fn astray<L: Layout>(layout: &L) -> Unfound {
    let copies = layout.copies();
    let sectors = (0..layout.capacity())
        .filter(|&sector| (0..copies).any(|copy| !is_found(layout, datum(sector, copy))))
        .count();
    let groups = (0..layout.depth())
        .filter(|&group| layout.peers(group) > 0 && !is_found(layout, parity_of(group)))
        .count();
    Unfound { sectors, groups }
}

// How many members have a place whose owner was put elsewhere, with one place past each end, which nobody owns.
fn misowned<L: Layout>(layout: &L) -> usize {
    let offsets = layout.depth().saturating_add(1);
    (0..layout.members().saturating_add(1))
        .filter(|&member| {
            (0..offsets).any(|offset| {
                let at = (member, offset);
                spot(layout, layout.owner(at)).is_some_and(|put| put != at)
            })
        })
        .count()
}

// How many sectors are no peer of their group, or are one of it on the member of its parity.
fn ungrouped<L: Layout>(layout: &L) -> usize {
    (0..layout.capacity())
        .filter(|&sector| {
            layout.group(sector).is_some_and(|group| {
                !(0..layout.peers(group)).any(|index| layout.peer(group, index) == sector)
                    || layout.place(sector, 0).0 == layout.parity(group).0
            })
        })
        .count()
}

#[test]
fn worked_places(rt: HostRuntime) -> Result<(), Fail> {
    for (label, owner, due) in [
        (striped(3, 2, 4), datum(7, 0), (0, 3)),
        (striped(3, 2, 4), datum(8, 0), (1, 2)),
        (parity(4, 1, 4), datum(0, 0), (0, 0)),
        (parity(4, 1, 4), parity_of(0), (3, 0)),
        (parity(4, 1, 4), datum(3, 0), (3, 1)),
        (parity(4, 1, 4), datum(4, 0), (0, 1)),
        (parity(4, 1, 4), parity_of(1), (2, 1)),
        (parity(4, 1, 4), datum(6, 0), (2, 2)),
        (parity(4, 1, 4), parity_of(3), (0, 3)),
        (near(3, 2, 1, 3), datum(1, 0), (2, 0)),
        (near(3, 2, 1, 3), datum(1, 1), (0, 1)),
        (near(3, 2, 1, 3), datum(3, 1), (1, 2)),
        (far(3, 2, 1, 6), datum(4, 0), (1, 1)),
        (far(3, 2, 1, 6), datum(4, 1), (2, 4)),
        (far(3, 2, 1, 6), datum(2, 1), (0, 3)),
        // out of range
        (striped(3, 2, 4), datum(12, 0), (0, 0)),
        (parity(4, 1, 4), datum(7, 1), (0, 0)),
        (parity(4, 1, 4), parity_of(4), (0, 0)),
        (near(3, 2, 1, 3), datum(3, 2), (0, 0)),
        (far(3, 2, 1, 6), datum(9, 1), (0, 0)),
    ] {
        assert_eq!(rt; spot(&Stock::from_label(&label)?, owner), Some(due));
    }
    Ok(())
}

#[test]
fn round_trips(rt: HostRuntime) -> Result<(), Fail> {
    for label in [
        striped(2, 1, 3),
        striped(3, 2, 4),
        striped(16, 5, 10),
        parity(3, 1, 7),
        parity(4, 2, 8),
        parity(7, 3, 24),
        near(2, 2, 1, 3),
        near(3, 2, 1, 3),
        near(5, 3, 2, 8),
        near(4, 4, 3, 9),
        far(2, 2, 1, 5),
        far(3, 2, 1, 6),
        far(5, 3, 2, 14),
        far(6, 4, 1, 9),
    ] {
        let layout = Stock::from_label(&label)?;
        assert_eq!(rt;
            astray(&layout),
            Unfound {
                sectors: 0,
                groups: 0,
            }
        );
        assert_eq!(rt; misowned(&layout), 0);
        assert_eq!(rt; ungrouped(&layout), 0);
    }
    Ok(())
}

#[test]
fn label_bytes(rt: HostRuntime) -> Result<(), Fail> {
    let left = Stock::from_label(&parity(4, 1, 8))?.label();
    let bytes = [128, 7, 3, 9, 1, 2, 3, 4, 11, 12, 13, 14, 15, 16, 17, 255];
    let odd = Label {
        kind: 128,
        members: 7,
        copies: 3,
        reserved: 9,
        chunk: 0x0403_0201,
        depth: 0xff11_100f_0e0d_0c0b,
    };
    assert_eq!(rt; odd.to_bytes(), bytes);
    assert_eq!(rt; Label::from_bytes(&bytes), odd);
    assert_eq!(rt;
        left.to_bytes(),
        [2, 4, 1, 0, 1, 0, 0, 0, 8, 0, 0, 0, 0, 0, 0, 0]
    );
    assert_eq!(rt; Label::from_bytes(&left.to_bytes()), left);
    Ok(())
}

const PARITY: Label = Label {
    kind: 2,
    members: 3,
    copies: 1,
    reserved: 0,
    chunk: 1,
    depth: 8,
};

const NEAR: Label = Label {
    kind: 3,
    copies: 2,
    ..PARITY
};

const FAR: Label = Label {
    kind: 4,
    copies: 2,
    ..PARITY
};

const OUT: [Label; 24] = [
    Label { kind: 0, ..PARITY },
    Label { kind: 5, ..PARITY },
    Label {
        kind: 127,
        ..PARITY
    },
    Label {
        kind: 128,
        ..PARITY
    },
    // stripes
    Label {
        kind: 1,
        members: 1,
        ..PARITY
    },
    Label {
        kind: 1,
        members: 17,
        ..PARITY
    },
    Label {
        kind: 1,
        copies: 0,
        ..PARITY
    },
    Label {
        kind: 1,
        copies: 2,
        ..PARITY
    },
    Label {
        copies: 2,
        ..PARITY
    },
    Label {
        reserved: 1,
        ..PARITY
    },
    Label { chunk: 0, ..PARITY },
    Label {
        chunk: 2049,
        depth: 4098,
        ..PARITY
    },
    Label { depth: 0, ..PARITY },
    Label { chunk: 3, ..PARITY },
    Label {
        depth: 16_777_217,
        ..PARITY
    },
    Label {
        members: 2,
        ..PARITY
    },
    Label { copies: 1, ..NEAR },
    Label { copies: 4, ..NEAR },
    Label {
        members: 6,
        copies: 5,
        ..NEAR
    },
    Label { copies: 1, ..FAR },
    Label { copies: 4, ..FAR },
    Label {
        members: 6,
        copies: 5,
        ..FAR
    },
    Label {
        chunk: 4,
        depth: 4,
        ..FAR
    },
    Label {
        members: 4,
        copies: 3,
        chunk: 2,
        depth: 4,
        ..FAR
    },
];

// A layout that is made has the label that it was made from.
#[test]
fn label_limits(rt: HostRuntime) {
    let kinds = [
        striped(2, 1, 1),
        parity(3, 1, 1),
        near(2, 2, 1, 1),
        far(2, 2, 1, 2),
    ]
    .map(|label| label.kind);
    assert_eq!(rt; kinds, [1, 2, 3, 4]);
    for label in [
        striped(2, 1, 1),
        striped(16, 2048, 16_777_216),
        parity(3, 2048, 2048),
        near(4, 4, 3, 9),
        far(3, 2, 2, 4),
    ] {
        assert_eq!(rt;
            Stock::from_label(&label).map(|layout| layout.label()),
            Ok(label)
        );
    }
    for label in OUT {
        assert_eq!(rt;
            Stock::from_label(&label).map(|layout| layout.label()),
            Err(Refusal::OutOfLimits)
        );
    }
}
