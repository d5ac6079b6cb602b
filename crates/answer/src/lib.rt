// What a call answers where it is not done: the closed list of refusals, and the fault where power or a member went in the middle of a call.
#![tactic(auto)]

ghost use Rattle.std.specs.Prelude.{◌≡◌, Some, None};
ghost use Rattle.answer.specs.Faults.{in_row};
ghost use Rattle.answer.specs.Numbers.{refusal_number, operation_number};
ghost use Rattle.answer.specs.declared.Refused.{Refused};

use std::error::Error;
use std::fmt;

// why a call was not done; docs/CALLS.md has the condition of each
#[derive(Clone, Copy, PartialEq, Eq, Debug)]
pub enum Refusal {
    // the buffer has not the length of a sector
    BufferLength = 1,
    // the sector is at the volume's size or beyond
    PastEnd = 2,
    // the call is not one for this phase
    WrongPhase = 3,
    // the row in hand would be written, or a second one taken
    RowInHand = 4,
    // the next target row lies on source rows that are not kept yet
    NeedNotKept = 5,
    // the kept sectors would not fit the backup slots
    BackupFull = 6,
    // every live source row is kept
    AllKept = 7,
    // target rows are left to settle
    RowsLeft = 8,
    // every target row is settled
    AllSettled = 9,
    // the overlap distance is above the number of backup slots
    DistanceAboveBackup = 10,
    // a label, a shelf, the backup or the size is out of limits
    OutOfLimits = 11,
    // no member has a head with the fixed bytes and ranges
    NoHead = 12,
    // the head names other layouts
    LabelsDiffer = 13,
    // the head's numbers do not fit the shelf and the layouts
    HeadMisfit = 14,
    // more members are absent than a layout in force bears
    MembersLost = 15,
    // the shelf is off
    PowerLost = 16,
    // fewer checkpoint numbers are left than the call needs
    NumbersSpent = 17,
    // the grant is not of the row in hand
    WrongGrant = 18,
}

impl Refusal {
    // The refusal's number, 1 to 18; 0 is kept for done.
    pub fn number(self) -> u8
        ensures { result ≡ refusal_number self }
    {
        self.into()
    }
}

impl From<Refusal> for u8 {
    ghost from_gives = { λ refusal n. n ≡ refusal_number refusal };

    fn from(refusal: Refusal) -> u8 {
        refusal as u8
    }
}

// what a shelf was asked for when power or a member went
#[derive(Clone, Copy, PartialEq, Eq, Debug)]
pub enum Operation {
    Restart = 0,
    Read = 1,
    Write = 2,
    Flush = 3,
}

impl Operation {
    // The operation's number in a fault.
    pub fn number(self) -> u8
        ensures { result ≡ operation_number self }
    {
        self.into()
    }
}

impl From<Operation> for u8 {
    ghost from_gives = { λ operation n. n ≡ operation_number operation };

    fn from(operation: Operation) -> u8 {
        operation as u8
    }
}

// The operation that met a lost member too many, or the end of power.
// Member and shelf sector are 0 where the operation names none, and not None: the documents give a fault these numbers.
// Row is the one that a keep, a copy or a settle was about.
#[derive(Clone, Copy, PartialEq, Eq, Debug)]
pub struct Fault {
    pub operation: Operation,
    pub member: u64,
    pub sector: u64,
    pub row: Option<u64>,
}

impl Fault {
    // The fault of an operation, in a call that is about no row so far.
    pub fn at(operation: Operation, member: u64, sector: u64) -> Fault
        ensures { result ≡ record { operation = operation; member = member; sector = sector; row = None } }
    {
        Fault {
            operation,
            member,
            sector,
            row: None,
        }
    }
}

// a call that was not done: why, and the fault where it was met at an operation of the call
#[derive(Clone, Copy, PartialEq, Eq, Debug)]
pub struct Refused {
    pub refusal: Refusal,
    pub fault: Option<Fault>,
}

impl Refused {
    // Met at an operation of the call.
    pub fn met(refusal: Refusal, fault: Fault) -> Refused
        ensures { result ≡ record { refusal = refusal; fault = Some fault } }
    {
        Refused {
            refusal,
            fault: Some(fault),
        }
    }

    // The same, met while a call was about a row.
    pub fn in_row(self, row: u64) -> Refused
        ensures { result ≡ in_row self row }
    {
        Refused {
            refusal: self.refusal,
            fault: self.fault.map(|fault| Fault {
                row: Some(row),
                ..fault
            }),
        }
    }
}

// A refusal before the first operation names no fault.
impl From<Refusal> for Refused {
    ghost from_gives = { λ e r. r ≡ record { refusal = e; fault = None } };

    fn from(refusal: Refusal) -> Refused {
        Refused {
            refusal,
            fault: None,
        }
    }
}

impl fmt::Display for Operation {
    fn fmt<W: fmt::Write>(&self, f: &mut fmt::Formatter<W>) -> fmt::Result {
        f.write_str(match self {
            Operation::Restart => "restart",
            Operation::Read => "read",
            Operation::Write => "write",
            Operation::Flush => "flush",
        })
    }
}

// `write of member 2, sector 7, row 1`
impl fmt::Display for Fault {
    fn fmt<W: fmt::Write>(&self, f: &mut fmt::Formatter<W>) -> fmt::Result {
        let Fault {
            operation,
            member,
            sector,
            row,
        } = *self;
        write!(f, "{operation} of member {member}, sector {sector}")?;
        match row {
            Some(row) => write!(f, ", row {row}"),
            None => Ok(()),
        }
    }
}

// The refusal's number.
impl fmt::Display for Refusal {
    fn fmt<W: fmt::Write>(&self, f: &mut fmt::Formatter<W>) -> fmt::Result {
        write!(f, "{}", self.number())
    }
}

impl Error for Refusal {}

// The refusal's number, and the fault where there is one: `16 at write of member 2, sector 7, row 1`
impl fmt::Display for Refused {
    fn fmt<W: fmt::Write>(&self, f: &mut fmt::Formatter<W>) -> fmt::Result {
        let refusal = self.refusal;
        match self.fault {
            Some(fault) => write!(f, "{refusal} at {fault}"),
            None => write!(f, "{refusal}"),
        }
    }
}

impl Error for Refused {}
