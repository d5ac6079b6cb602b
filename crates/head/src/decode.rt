// A head from bytes.
ghost use Rattle.std.specs.Prelude.{◌≡◌, Some, slice_index, MatchOption};
ghost use Rattle.head.specs.Fields.{NumberAt, LabelAt};
ghost use Rattle.head.specs.Heads.{Accepted, Fits, head_bytes, phase_byte, target_label, settled_rows, kept_rows, armed_byte, logged_number};
ghost use Rattle.head.specs.declared.TheConstants.{ARMED_AT, KEPT_AT, LOGGED_AT, PHASE_AT, SETTLED_AT, TARGET_AT};

use crate::accept::HeadSector;
use crate::part::field_at;
use crate::state::{Head, Progress};
use crate::{
    ARMED_AT, BACKUP_AT, KEPT_AT, LOGGED_AT, NUMBER_AT, PHASE_AT, SETTLED_AT, SIZE_AT, SOURCE_AT,
    TARGET_AT,
};

impl Head {
    // The head that these bytes are, if they are accepted. Written again it is the same bytes.
    pub fn decode(bytes: &[u8]) -> Option<Head>
        ensures { MatchOption result (Accepted bytes.now → ⊥) (λ h. Accepted bytes.now × (head_bytes h ≡ bytes.now) × Fits h) }
    {
        Some(HeadSector::new(bytes)?.head())
    }

    // A head that is written and read is the same head.
    pub fn reread(&self) -> Option<Head>
        ensures { result ≡ Some self.now }
    {
        Head::decode(&self.encode())
    }
}

// Each field from its place.
#[tactic(auto, using(crate::proofs::Codecs::bare))]
impl HeadSector<'_> {
    fn head(&self) -> Head
        ensures bytes { head_bytes result ≡ self.now.bytes.now }
        ensures fits { Fits result }
    {
        Head {
            number: field_at(self.bytes, NUMBER_AT),
            source: field_at(self.bytes, SOURCE_AT),
            progress: self.progress(),
            size: field_at(self.bytes, SIZE_AT),
            backup: field_at(self.bytes, BACKUP_AT),
            armed: self.armed(),
        }
    }

    fn progress(&self) -> Progress
        ensures phase { phase_byte result ≡ slice_index self.now.bytes.now PHASE_AT }
        ensures target { LabelAt TARGET_AT (target_label result) self.now.bytes.now }
        ensures settled { NumberAt SETTLED_AT (settled_rows result) self.now.bytes.now }
        ensures kept { NumberAt KEPT_AT (kept_rows result) self.now.bytes.now }
    {
        if self.bytes[PHASE_AT] == 0 {
            return Progress::Idle;
        }
        Progress::Moving {
            target: field_at(self.bytes, TARGET_AT),
            settled: field_at(self.bytes, SETTLED_AT),
            kept: field_at(self.bytes, KEPT_AT),
        }
    }

    fn armed(&self) -> Option<u64>
        ensures armed { armed_byte result ≡ slice_index self.now.bytes.now ARMED_AT }
        ensures logged { NumberAt LOGGED_AT (logged_number result) self.now.bytes.now }
    {
        (self.bytes[ARMED_AT] != 0).then(|| field_at(self.bytes, LOGGED_AT))
    }
}
