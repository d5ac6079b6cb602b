// The label: 16 bytes by which a head names a layout.
ghost use Rattle.std.specs.Prelude.{◌≡◌};
ghost use Rattle.layout.specs.Bytes.{label_bytes, label_from};
ghost use Rattle.layout.specs.Labels.{label_in_limits, stock_in_limits, stock_label};

use crate::FEWEST_WITH_PARITY;
use crate::kind::Kind;
use crate::limits::{bears_copies, has_whole_chunks};
use sector::field::Field;

// bytes in a label
pub const LABEL: usize = 16;

// kinds from this one on are a customer's own
pub const FIRST_CUSTOM_KIND: u8 = 128;

// Any 16 bytes are a label, so that a head that names a layout nobody knows is kept as it was.
// The reserved byte is 0 in the label of every layout.
#[derive(Clone, Copy, PartialEq, Eq, Debug)]
pub struct Label {
    pub kind: u8,
    pub members: u8,
    pub copies: u8,
    pub reserved: u8,
    pub chunk: u32,
    pub depth: u64,
}

impl Label {
    // The label of no layout, which an idle head has for its target.
    pub const ZERO: Label = Label {
        kind: 0,
        members: 0,
        copies: 0,
        reserved: 0,
        chunk: 0,
        depth: 0,
    };

    // The label of a stock layout.
    pub fn stock(kind: Kind, members: u8, copies: u8, chunk: u32, depth: u64) -> Label
        ensures { result ≡ stock_label kind members copies chunk depth }
    {
        Label {
            kind: kind.into(),
            members,
            copies,
            reserved: 0,
            chunk,
            depth,
        }
    }

    // Whether a layout can have this label: it is within the limits of its stock kind, or a customer's own with the reserved byte 0.
    pub fn is_in_limits(&self) -> bool
        ensures { result ≡ label_in_limits self.now }
    {
        (self.reserved == 0 && self.kind >= FIRST_CUSTOM_KIND) || self.is_stock()
    }

    // Whether it is the label of a stock layout: one of the stock kinds, and every field within that kind's limits.
    #[tactic(auto, using(crate::proofs::Numbered::kind_none))]
    pub fn is_stock(&self) -> bool
        ensures { result ≡ stock_in_limits self.now }
    {
        let members = u64::from(self.members);
        let copies = u64::from(self.copies);
        let chunk = u64::from(self.chunk);
        if self.reserved != 0 || !has_whole_chunks(members, chunk, self.depth) {
            return false;
        }
        match Kind::try_from(self.kind) {
            Ok(Kind::Striped) => copies == 1,
            Ok(Kind::LeftSymmetric) => copies == 1 && members >= FEWEST_WITH_PARITY,
            Ok(Kind::Near) => bears_copies(members, copies),
            Ok(Kind::Far) => bears_copies(members, copies) && copies <= self.depth / chunk,
            Err(_) => false,
        }
    }
}

// Kind, members, copies, the reserved byte, then the chunk in four bytes and the depth in eight, little-endian.
impl Field<LABEL> for Label {
    ghost bytes_of = { label_bytes };

    ghost of_bytes = { label_from };

    fn to_bytes(&self) -> [u8; LABEL] {
        let mut bytes = [0; LABEL];
        bytes[..4].copy_from_slice(&[self.kind, self.members, self.copies, self.reserved]);
        bytes[4..8].copy_from_slice(&self.chunk.to_bytes());
        bytes[8..].copy_from_slice(&self.depth.to_bytes());
        bytes
    }

    fn from_bytes(bytes: &[u8; LABEL]) -> Label {
        Label {
            kind: bytes[0],
            members: bytes[1],
            copies: bytes[2],
            reserved: bytes[3],
            chunk: u32::from_bytes(bytes[4..].first_chunk().unwrap()),
            depth: u64::from_bytes(bytes[8..].first_chunk().unwrap()),
        }
    }
}
