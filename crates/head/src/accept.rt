// Which sectors are a head.
ghost use Rattle.std.specs.Prelude.{◌≡◌, MatchOption};
ghost use Rattle.head.specs.Fields.{Decided};
ghost use Rattle.head.specs.Heads.{Accepted, Marked, Flagged, Gapped, NumbersInLimits, IdleBare, UnarmedBare};

use crate::part::{field_at, is_clear};
use crate::{
    ARMED_AT, BACKUP_AT, EDITION, EDITION_AT, LOGGED_AT, MARK, MOST_BACKUP, MOST_NUMBER, NUMBER_AT,
    PHASE_AT, SETTLED_AT, SIZE_AT, TAIL_AT, TARGET_AT,
};
use sector::{SECTOR, Sector};

// A sector that is a head.
#[derive(Clone, Copy)]
pub struct HeadSector<'a> {
    pub bytes: &'a Sector,
    ghost accepted: { Accepted bytes.now },
}

impl<'a> HeadSector<'a> {
    // The sector that these bytes are, if it is a head.
    pub fn new(bytes: &'a [u8]) -> Option<HeadSector<'a>>
        ensures { MatchOption result (Accepted bytes.now → ⊥) (λ s. s.bytes.now ≡ bytes.now) }
    {
        // A match: a closure that makes the struct would have to require in a clause of its own what the test says.
        match <&Sector>::try_from(bytes) {
            Ok(bytes) if is_accepted(bytes) => Some(HeadSector { bytes }),
            _ => None,
        }
    }
}

fn is_accepted(bytes: &Sector) -> bool
    ensures { Decided result (Accepted bytes.now) }
{
    is_marked(bytes)
        && has_flags(bytes)
        && has_clear_gaps(bytes)
        && is_in_range(bytes)
        && is_bare_if_idle(bytes)
        && is_bare_if_unarmed(bytes)
}

fn is_marked(bytes: &Sector) -> bool
    ensures { Decided result (Marked bytes.now) }
{
    bytes.starts_with(&MARK) && bytes[EDITION_AT] == EDITION
}

// Whether the phase and the armed byte are 0 or 1.
fn has_flags(bytes: &Sector) -> bool
    ensures { Decided result (Flagged bytes.now) }
{
    bytes[PHASE_AT] <= 1 && bytes[ARMED_AT] <= 1
}

// Zeros where the format says nothing.
fn has_clear_gaps(bytes: &Sector) -> bool
    ensures { Decided result (Gapped bytes.now) }
{
    is_clear(&bytes[ARMED_AT + 1..NUMBER_AT])
        && is_clear(&bytes[BACKUP_AT + 4..LOGGED_AT])
        && is_clear(&bytes[TAIL_AT..SECTOR])
}

// The number and the backup slots.
fn is_in_range(bytes: &Sector) -> bool
    ensures { Decided result (NumbersInLimits bytes.now) }
{
    let number: u64 = field_at(bytes, NUMBER_AT);
    let backup: u32 = field_at(bytes, BACKUP_AT);
    (1..=MOST_NUMBER).contains(&number) && (1..=MOST_BACKUP).contains(&backup)
}

// An idle head has no target and no rows.
fn is_bare_if_idle(bytes: &Sector) -> bool
    ensures { Decided result (IdleBare bytes.now) }
{
    bytes[PHASE_AT] != 0
        || is_clear(&bytes[TARGET_AT..SIZE_AT]) && is_clear(&bytes[SETTLED_AT..BACKUP_AT])
}

// An unarmed head has no logged sector.
fn is_bare_if_unarmed(bytes: &Sector) -> bool
    ensures { Decided result (UnarmedBare bytes.now) }
{
    bytes[ARMED_AT] != 0 || is_clear(&bytes[LOGGED_AT..TAIL_AT])
}
