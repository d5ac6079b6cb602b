// Limits that shelves and layouts share: a layout lies on members of one shelf.

pub const FEWEST_MEMBERS: u64 = 2;

pub const MOST_MEMBERS: u64 = 16;
