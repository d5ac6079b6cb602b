// Calls with their arguments, and how they were answered.
use sector::Sector;

// A call on a volume that was created.
#[derive(Clone, Copy)]
pub enum Request {
    Read(u64),
    Write(u64, Sector),
    Begin,
    Keep,
    Copy,
    // with a grant of this row
    Settle(u64),
    HandBack(u64),
    Finish,
    Open,
}

// How a call was answered: three words of the law over runs, whose definitions name them; the refusal itself stands beside.
#[derive(Clone, Copy)]
pub enum Answered {
    Granted,
    // before its first operation
    Refused,
    // power or members were met lacking at an operation of the call
    Met,
}
