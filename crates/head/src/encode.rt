// A head to bytes.
ghost use Rattle.std.specs.Prelude.{◌≡◌};
ghost use Rattle.head.specs.Heads.{Accepted, Fits, head_bytes};

use crate::part::put_field;
use crate::state::Head;
use crate::{
    ARMED_AT, BACKUP_AT, EDITION, EDITION_AT, KEPT_AT, LOGGED_AT, MARK, NUMBER_AT, PHASE_AT,
    SETTLED_AT, SIZE_AT, SOURCE_AT, TARGET_AT,
};
use sector::{Sector, zeros};

impl Head {
    // The head as it is written: each field at its place, and zeros where the format says nothing.
    pub fn encode(&self) -> Sector
        ensures bytes { result ≡ head_bytes self.now }
        ensures accepted { Accepted result }
        ensures fits { Fits self.now }
    {
        let mut bytes = zeros();
        bytes[..EDITION_AT].copy_from_slice(&MARK);
        bytes[EDITION_AT] = EDITION;
        bytes[PHASE_AT] = u8::from(self.progress.is_moving());
        bytes[ARMED_AT] = u8::from(self.armed.is_some());
        put_field(&mut bytes, NUMBER_AT, self.number);
        put_field(&mut bytes, SOURCE_AT, self.source);
        put_field(&mut bytes, TARGET_AT, self.progress.target());
        put_field(&mut bytes, SIZE_AT, self.size);
        put_field(&mut bytes, SETTLED_AT, self.progress.settled());
        put_field(&mut bytes, KEPT_AT, self.progress.kept());
        put_field(&mut bytes, BACKUP_AT, self.backup);
        put_field(&mut bytes, LOGGED_AT, self.armed.unwrap_or(0));
        bytes
    }
}
