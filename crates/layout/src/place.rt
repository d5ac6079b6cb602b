// Places and their owners.

// a member, and an offset in sectors from the start of the member's body
pub type Place = (u64, u64);

// what lies at a place
#[derive(Clone, Copy, PartialEq, Eq, Debug)]
pub enum Owner {
    Datum { sector: u64, copy: u64 },
    Parity { group: u64 },
    Nobody,
}
