// What is judged before the first operation of a call, in the order in which several refusals are told.
ghost use Rattle.std.specs.Prelude.{◌≡◌, ◌+◌, ◌*◌, ◌<◌, ◌≤◌, IfOk, if◌then◌else◌, Some, None, OnOk, false, true};
ghost use Rattle.answer.specs.declared.Refusal.TheVariants.{NumbersSpent};
ghost use Rattle.head.specs.declared.TheConstants.{MOST_NUMBER};
ghost use Rattle.sector.specs.declared.TheConstants.{SECTOR};
ghost use Rattle.model.specs.Crew.{crew, enough};
ghost use Rattle.model.specs.declared.phase.Phase.TheVariants.{Before, Moving};
ghost use Rattle.model.specs.Knowing.{phase_by};
ghost use Rattle.model.specs.Opening.{cannot_disarm, head_fits, head_verdict, layouts_named, logged_fits, progress_fits, target_named, walk_fits};
ghost use Rattle.model.specs.Verdicts.{Judged, access_verdict, admission, begin_verdict, copy_verdict, create_verdict, finish_verdict, fits, is_hand, shelf_in_limits, keep_verdict, read_verdict, settle_verdict, spent, write_verdict};
ghost use Rattle.volume.specs.Volumes.{HasRoom, KeepsNext, distance_in, hand_of, head_of, known, phase_of, shelf_of, source_of, target_of};

use crate::Volume;
use answer::Refusal;
use head::{Head, MOST_BACKUP, Progress, SLOTS_AT};
use layout::{Layout, has_true_label};
use model::call::Call;
use model::phase::Phase;
use overlap::walk::Walk;
use overlap::{distance, need};
use sector::SECTOR;
use sector::limits::{FEWEST_MEMBERS, MOST_MEMBERS};
use shelf::{MOST_SECTORS, Shelf};
use stage::array::bears;

// Whether a shelf is in its limits.
fn is_in_limits<S: Shelf>(shelf: &S) -> bool
    ensures { result ≡ shelf_in_limits (S.meaning shelf.now) }
{
    let members = shelf.members();
    let sectors = shelf.sectors();
    (FEWEST_MEMBERS..=MOST_MEMBERS).contains(&members) && (1..=MOST_SECTORS).contains(&sectors)
}

// Whether a layout, the slots before it and a volume of this size fit the shelf. Slots and size are two numbers: create has no head yet
// that holds them.
pub fn has_room<S: Shelf, L: Layout>(shelf: &S, layout: &L, backup: u32, size: u64) -> bool
    ensures { result ≡ fits (S.meaning shelf.now) (L.geometry layout.now) backup size }
{
    is_in_limits(shelf)
        && (layout.members() <= shelf.members()
            && (SLOTS_AT + u64::from(backup) + layout.depth() <= shelf.sectors()
                && size <= layout.capacity()))
}

impl<S: Shelf, L: Layout> Volume<S, L> {
    // Power, members, and whether the call is one for the phase.
    fn admit(&self, call: Call) -> Result<(), Refusal>
        ensures verdict { Judged (admission call (known L.geometry self.now) (S.meaning (shelf_of self.now))) result }
        ensures enough { OnOk result (enough (known L.geometry self.now).crew (S.meaning (shelf_of self.now)) ≡ true) }
    {
        if let Phase::Shut(refusal) = self.array.phase {
            return Err(refusal);
        }
        if !self.shelf.is_on() {
            return Err(Refusal::PowerLost);
        }
        if !self.array.enough(&self.shelf) {
            return Err(Refusal::MembersLost);
        }
        // begin's target has to bear the losses before it comes into force
        if matches!(call, Call::Begin) && !bears(&self.shelf, &self.array.target) {
            return Err(Refusal::MembersLost);
        }
        // which calls a phase has, as one table
        match (self.array.phase, call) {
            (_, Call::Read | Call::Write) => Ok(()),
            (Phase::Before, Call::Begin) => Ok(()),
            (Phase::Moving, Call::Keep | Call::Copy | Call::Settle | Call::Finish) => Ok(()),
            _ => Err(Refusal::WrongPhase),
        }
    }

    // Whether so many checkpoints can still be numbered.
    fn numbered(&self, checkpoints: u64) -> Result<(), Refusal>
        ensures verdict { Judged (if spent (known L.geometry self.now) checkpoints then Some NumbersSpent else None) result }
        ensures left { OnOk result ((head_of self.now).number + checkpoints ≤ MOST_NUMBER) }
    {
        if self.array.head.numbers_left() < checkpoints {
            return Err(Refusal::NumbersSpent);
        }
        Ok(())
    }

    pub(crate) fn judge_create(&self, backup: u32, size: u64) -> Result<(), Refusal>
        ensures verdict { Judged (create_verdict (L.named (source_of self.now)) (L.geometry (source_of self.now)) (S.meaning (shelf_of self.now)) backup size) result }
        ensures slots { OnOk result ((1 ≤ backup) × (backup ≤ MOST_BACKUP)) }
        ensures room { OnOk result (fits (S.meaning (shelf_of self.now)) (L.geometry (source_of self.now)) backup size ≡ true) }
    {
        let source = &self.array.source;
        if !(1..=MOST_BACKUP).contains(&backup)
            || !has_true_label(source)
            || !has_room(&self.shelf, source, backup, size)
        {
            return Err(Refusal::OutOfLimits);
        }
        if !self.shelf.is_on() {
            return Err(Refusal::PowerLost);
        }
        if !bears(&self.shelf, source) {
            return Err(Refusal::MembersLost);
        }
        Ok(())
    }

    // A read or a write of a sector, by a buffer of some length.
    fn judge_access(&self, sector: u64, length: usize) -> Result<(), Refusal>
        ensures verdict { Judged (access_verdict (known L.geometry self.now) sector length) result }
        ensures long { OnOk result (length ≡ SECTOR) }
        ensures below { OnOk result (sector < (known L.geometry self.now).size) }
    {
        if length != SECTOR {
            return Err(Refusal::BufferLength);
        }
        if sector >= self.array.head.size {
            return Err(Refusal::PastEnd);
        }
        Ok(())
    }

    pub(crate) fn judge_read(&self, sector: u64, length: usize) -> Result<(), Refusal>
        ensures verdict { Judged (read_verdict (known L.geometry self.now) (S.meaning (shelf_of self.now)) sector length) result }
        ensures long { OnOk result (length ≡ SECTOR) }
        ensures enough { OnOk result (enough (known L.geometry self.now).crew (S.meaning (shelf_of self.now)) ≡ true) }
        ensures below { OnOk result (sector < (known L.geometry self.now).size) }
    {
        self.admit(Call::Read)?;
        self.judge_access(sector, length)
    }

    pub(crate) fn judge_write(&self, sector: u64, length: usize) -> Result<(), Refusal>
        ensures verdict { Judged (write_verdict (known L.geometry self.now) (S.meaning (shelf_of self.now)) sector length) result }
        ensures long { OnOk result (length ≡ SECTOR) }
        ensures enough { OnOk result (enough (known L.geometry self.now).crew (S.meaning (shelf_of self.now)) ≡ true) }
        ensures below { OnOk result (sector < (known L.geometry self.now).size) }
        ensures left { OnOk result ((head_of self.now).number + 2 ≤ MOST_NUMBER) }
    {
        self.admit(Call::Write)?;
        self.judge_access(sector, length)?;
        if self.hand == Some(sector / self.array.target.row_len()) {
            return Err(Refusal::RowInHand);
        }
        self.numbered(2)
    }

    // Answers the overlap distance where begin may go on.
    pub(crate) fn judge_begin(&self) -> Result<u64, Refusal>
        ensures verdict { Judged (begin_verdict (L.named (target_of self.now)) (known L.geometry self.now) (S.meaning (shelf_of self.now))) result }
        ensures distance { IfOk result (λ d. d ≡ distance_in (known L.geometry self.now)) }
        ensures before { OnOk result (phase_of self.now ≡ Before) }
        ensures room { OnOk result (HasRoom (known L.geometry self.now) (S.meaning (shelf_of self.now)) (L.geometry (target_of self.now))) }
        ensures left { OnOk result ((head_of self.now).number < MOST_NUMBER) }
    {
        self.admit(Call::Begin)?;
        let head = &self.array.head;
        let target = &self.array.target;
        if !has_true_label(target) || !has_room(&self.shelf, target, head.backup, head.size) {
            return Err(Refusal::OutOfLimits);
        }
        let distance = distance(&self.array.source, target, head.size);
        if distance > u64::from(head.backup) {
            return Err(Refusal::DistanceAboveBackup);
        }
        self.numbered(1)?;
        Ok(distance)
    }

    pub(crate) fn judge_keep(&self) -> Result<(), Refusal>
        ensures verdict { Judged (keep_verdict (known L.geometry self.now) (S.meaning (shelf_of self.now))) result }
        ensures enough { OnOk result (enough (known L.geometry self.now).crew (S.meaning (shelf_of self.now)) ≡ true) }
        ensures next { OnOk result (KeepsNext (known L.geometry self.now)) }
    {
        self.admit(Call::Keep)?;
        let walk = self.array.walk();
        if walk.all_kept() {
            return Err(Refusal::AllKept);
        }
        if walk.next_window() > walk.backup {
            return Err(Refusal::BackupFull);
        }
        self.numbered(1)
    }

    pub(crate) fn judge_copy(&self) -> Result<(), Refusal>
        ensures verdict { Judged (copy_verdict (known L.geometry self.now) (S.meaning (shelf_of self.now))) result }
        ensures enough { OnOk result (enough (known L.geometry self.now).crew (S.meaning (shelf_of self.now)) ≡ true) }
        ensures moving { OnOk result (phase_of self.now ≡ Moving) }
        ensures below { OnOk result ((known L.geometry self.now).settled < (L.geometry (target_of self.now)).rows) }
    {
        self.admit(Call::Copy)?;
        if self.hand.is_some() {
            return Err(Refusal::RowInHand);
        }
        let walk = self.array.walk();
        if walk.settled >= self.array.target.rows() {
            return Err(Refusal::AllSettled);
        }
        if need(
            &self.array.source,
            &self.array.target,
            walk.size,
            walk.settled,
        ) > walk.kept
        {
            return Err(Refusal::NeedNotKept);
        }
        Ok(())
    }

    pub(crate) fn judge_settle(&self, row: u64) -> Result<(), Refusal>
        ensures verdict { Judged (settle_verdict (known L.geometry self.now) (S.meaning (shelf_of self.now)) row) result }
        ensures hand { OnOk result (is_hand (hand_of self.now) row ≡ true) }
        ensures moving { OnOk result (phase_of self.now ≡ Moving) }
        ensures left { OnOk result ((head_of self.now).number < MOST_NUMBER) }
    {
        self.admit(Call::Settle)?;
        if self.hand != Some(row) {
            return Err(Refusal::WrongGrant);
        }
        self.numbered(1)
    }

    pub(crate) fn judge_finish(&self) -> Result<(), Refusal>
        ensures verdict { Judged (finish_verdict (known L.geometry self.now) (S.meaning (shelf_of self.now))) result }
        ensures moving { OnOk result (phase_of self.now ≡ Moving) }
        ensures left { OnOk result ((head_of self.now).number < MOST_NUMBER) }
    {
        self.admit(Call::Finish)?;
        if self.array.walk().settled < self.array.target.rows() {
            return Err(Refusal::RowsLeft);
        }
        self.numbered(1)
    }

    // Whether a head that was found can be opened on this shelf with these layouts.
    pub(crate) fn judge_head(&self, head: &Head) -> Result<(), Refusal>
        ensures fits { OnOk result (head_fits head.now (S.meaning (shelf_of self.now)) (L.geometry (source_of self.now)) (L.geometry (target_of self.now)) ≡ true) }
        ensures enough { OnOk result (enough (crew (phase_by head.now.progress) (L.geometry (source_of self.now)) (L.geometry (target_of self.now))) (S.meaning (shelf_of self.now)) ≡ true) }
        ensures left { OnOk result (cannot_disarm head.now.armed head.now.number ≡ false) }
        ensures verdict { Judged (head_verdict head.now (S.meaning (shelf_of self.now)) (L.named (source_of self.now)) (L.named (target_of self.now)) (L.geometry (source_of self.now)) (L.geometry (target_of self.now))) result }
    {
        if !self.names_layouts(head) {
            return Err(Refusal::LabelsDiffer);
        }
        if !self.fits_layouts(head) {
            return Err(Refusal::HeadMisfit);
        }
        if !self.bears_losses(head.progress) {
            return Err(Refusal::MembersLost);
        }
        if head.armed.is_some() && head.numbers_left() < 1 {
            return Err(Refusal::NumbersSpent);
        }
        Ok(())
    }

    fn names_layouts(&self, head: &Head) -> bool
        ensures { result ≡ layouts_named head.now (L.named (source_of self.now)) (L.named (target_of self.now)) }
    {
        head.source == self.array.source.label() && self.names_target(head.progress)
    }

    // An idle head names the source only.
    fn names_target(&self, progress: Progress) -> bool
        ensures { result ≡ target_named progress (L.named (target_of self.now)) }
    {
        match progress {
            Progress::Idle => true,
            Progress::Moving { target, .. } => target == self.array.target.label(),
        }
    }

    // Whether the head's numbers can be those of a volume on these layouts.
    fn fits_layouts(&self, head: &Head) -> bool
        ensures { result ≡ head_fits head.now (S.meaning (shelf_of self.now)) (L.geometry (source_of self.now)) (L.geometry (target_of self.now)) }
    {
        is_of_volume(head.armed, head.size)
            && (has_room(&self.shelf, &self.array.source, head.backup, head.size)
                && self.fits_progress(head))
    }

    fn fits_progress(&self, head: &Head) -> bool
        ensures { result ≡ progress_fits head.now.progress (S.meaning (shelf_of self.now)) (L.geometry (source_of self.now)) (L.geometry (target_of self.now)) head.now.size head.now.backup }
    {
        match head.progress {
            Progress::Idle => true,
            Progress::Moving { settled, kept, .. } => {
                has_room(&self.shelf, &self.array.target, head.backup, head.size)
                    && self.fits_walk(head.size, head.backup, settled, kept)
            }
        }
    }

    fn fits_walk(&self, size: u64, backup: u32, settled: u64, kept: u64) -> bool
        ensures { result ≡ walk_fits (L.geometry (source_of self.now)) (L.geometry (target_of self.now)) size backup settled kept }
    {
        let source = &self.array.source;
        let target = &self.array.target;
        let walk = Walk::of(source, target, settled, kept, size, u64::from(backup));
        settled <= target.rows() && (walk.keeps_live() && walk.window(kept) <= walk.backup)
    }

    // Whether the layouts that a head has in force bear the losses.
    fn bears_losses(&self, progress: Progress) -> bool
        ensures { result ≡ enough (crew (phase_by progress) (L.geometry (source_of self.now)) (L.geometry (target_of self.now))) (S.meaning (shelf_of self.now)) }
    {
        match progress {
            Progress::Idle => bears(&self.shelf, &self.array.source),
            Progress::Moving { .. } => {
                bears(&self.shelf, &self.array.source) && bears(&self.shelf, &self.array.target)
            }
        }
    }
}

// Whether a head that is armed is so for a sector of the volume.
fn is_of_volume(armed: Option<u64>, size: u64) -> bool
    ensures { result ≡ logged_fits armed size }
{
    armed.is_none_or(|sector| sector < size)
}
