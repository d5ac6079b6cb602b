// A volume on a shelf: it is read and written, and moved to another layout, while power and members may go at every operation.
// docs/CALLS.md has the calls and their refusals, docs/MOVE.md the move.
#![tactic(auto)]

ghost use Rattle.std.specs.Prelude.{◌≡◌, ◌+◌, ◌*◌, ◌<◌, ◌≤◌, None, length, IfOk, OnErr, OnOk};
ghost use Rattle.head.specs.declared.TheConstants.{MOST_NUMBER, SLOTS_AT};
ghost use Rattle.head.specs.Heads.{kept_rows, settled_rows};
ghost use Rattle.head.specs.declared.state.Progress.TheVariants.{Moving as UnderWay};
ghost use Rattle.model.specs.Answers.{CreateCame, OpenCame};
ghost use Rattle.model.specs.Handed.Handed.{Buffer, Counts, Distance, Nothing, Row};
ghost use Rattle.model.specs.declared.request.Request.TheVariants.{Begin, Copy, Finish, HandBack, Keep, Read, Settle, Write};
ghost use Rattle.model.specs.May.{From, May, nothing};
ghost use Rattle.model.specs.Effects.{First};
ghost use Rattle.model.specs.Knowing.{phase_by};
ghost use Rattle.model.specs.Opening.{Restarted};
ghost use Rattle.model.specs.Verdicts.{RefusedBy, ShutsBy, begin_verdict, copy_verdict, create_verdict, emptied, finish_verdict, hand_back_verdict, is_hand, keep_verdict, read_verdict, settle_verdict, write_verdict};
ghost use Rattle.stage.specs.Endings.{HasVolume};
ghost use Rattle.stage.specs.Places.{HasHome};
ghost use Rattle.volume.specs.TakingUp.{LetPass, TookUp, WentOn};
ghost use Rattle.volume.specs.Volumes.{Alike, CallCame, CallEnds, Carried, CheckpointOf, Housed, KeepEnds, KeepsNext, LaidOut, OnlyHand, OnlyShelf, SameLayouts, StaysHoused, distance_in, hand_of, head_of, known, phase_of, granted_row, rowed, shelf_of, source_of, target_of};

pub mod grant;
mod judge;
pub mod phase;

use answer::{Fault, Operation, Refusal, Refused};
use grant::Grant;
use head::{HEAD_AT, Head, MOST_BACKUP, Progress};
use layout::Layout;
use layout::label::Label;
use model::phase::Phase;
use sector::Sector;
use shelf::Shelf;
use shelf::controlled::Controlled;
use stage::array::Array;
use stage::heads::leading_head;
use stage::logged::Entry;

// A shelf with the arrays on it. The row in hand is the one that was copied and is not settled or handed back yet.
#[derive(Drop)]
pub struct Volume<S, L> {
    shelf: S,
    array: Array<L>,
    hand: Option<u64>,
}

// what finish answers: the target's rows, each settled once, and the source rows that were kept
#[derive(Clone, Copy, PartialEq, Eq, Debug)]
pub struct Finished {
    pub rows: u64,
    pub kept: u64,
}

impl<S: Shelf, L: Layout> Volume<S, L> {
    // A new volume of zeros, laid out by the source. Where it is refused the volume is shut, and open can take its shelf: so it stands beside
    // the result, since a refusal must not lose the shelf.
    pub fn create(
        shelf: S,
        source: L,
        target: L,
        backup: u32,
        size: u64,
    ) -> (Volume<S, L>, Result<(), Refused>)
        ensures ends { CreateCame (shelf_of result.0 ≡ shelf) (L.named source) (L.geometry source) (L.geometry target) size backup (S.meaning shelf) (known L.geometry result.0) (head_of result.0) (S.meaning (shelf_of result.0)) result.1 }
        ensures housed { OnOk result.1 (Housed (known L.geometry result.0) (S.meaning (shelf_of result.0))) }
    {
        let mut volume = Volume::unopened(shelf, source, target);
        let result = volume.lay_out(backup, size);
        volume.shut_if_refused(&result);
        (volume, result)
    }

    // The volume that a shelf holds, once power is back. An idle head needs the source only. It stands beside the result, as in create.
    pub fn open(shelf: S, source: L, target: L) -> (Volume<S, L>, Result<(), Refused>)
        ensures ends { OpenCame (L.named source) (L.named target) (L.geometry source) (L.geometry target) (S.meaning shelf) (known L.geometry result.0) (head_of result.0) (S.meaning (shelf_of result.0)) result.1 }
        ensures housed { OnOk result.1 (Housed (known L.geometry result.0) (S.meaning (shelf_of result.0))) }
    {
        let mut volume = Volume::unopened(shelf, source, target);
        let result = volume.take_up();
        volume.shut_if_refused(&result);
        (volume, result)
    }

    // Takes the shelf back out.
    pub fn into_shelf(self) -> S
    where
        L: Drop,
        ensures { result ≡ shelf_of self }
    {
        let Volume {
            shelf,
            array: _,
            hand: _,
        } = self;
        shelf
    }

    pub fn shelf(&self) -> &S
        ensures { result.now ≡ shelf_of self.now }
    {
        &self.shelf
    }

    // Sets one of the shelf's controls, as a trial shelf's fuse: what the shelf means stays as it is.
    pub fn control(&mut self, control: S::Control) -> Result<(), Refusal>
    where
        S: Controlled,
        ensures state { S.Controlled.sets control (shelf_of self.old) (shelf_of self.new) result }
        ensures meaning { S.Shelf.meaning (shelf_of self.new) ≡ S.Shelf.meaning (shelf_of self.old) }
        ensures rest { OnlyShelf self.old self.new }
    {
        self.shelf.control(control)
    }

    pub fn phase(&self) -> Phase
        ensures { result ≡ phase_of self.now }
    {
        self.array.phase
    }

    // How many sectors the volume has.
    pub fn size(&self) -> u64
        ensures { result ≡ (known L.geometry self.now).size }
    {
        self.array.head.size
    }

    // How many target rows are settled; 0 where the volume is not moving, which the phase says, so that no Option is wanted here.
    pub fn settled(&self) -> u64
        ensures { result ≡ (known L.geometry self.now).settled }
    {
        self.array.head.progress.settled()
    }

    // How many source rows are kept; 0 where the volume is not moving.
    pub fn kept(&self) -> u64
        ensures { result ≡ (known L.geometry self.now).kept }
    {
        self.array.head.progress.kept()
    }

    // The row in hand.
    pub fn hand(&self) -> Option<u64>
        ensures { result ≡ hand_of self.now }
    {
        self.hand
    }

    // Reads a sector; where it is refused the buffer stays as it was.
    pub fn read(&mut self, sector: u64, buffer: &mut [u8]) -> Result<(), Refused>
        ensures verdict { RefusedBy (read_verdict (known L.geometry self.old) (S.meaning (shelf_of self.old)) sector (length buffer.old)) (self.new ≡ self.old) result }
        ensures ends { Housed (known L.geometry self.old) (S.meaning (shelf_of self.old)) → CallCame S.meaning L.geometry L.named (read_verdict (known L.geometry self.old) (S.meaning (shelf_of self.old)) sector (length buffer.old)) (λ u. Buffer buffer.new) (Read sector) (self.new ≡ self.old) self.old self.new result }
        ensures housed { StaysHoused S.meaning L.geometry self.old self.new }
        ensures buffer { OnErr result (buffer.new ≡ buffer.old) }
        ensures writes { May nothing (S.meaning (shelf_of self.old)) (S.meaning (shelf_of self.new)) }
    {
        self.judge_read(sector, buffer.len())?;
        let content = self.array.show(&mut self.shelf, sector)?;
        buffer.copy_from_slice(&content);
        Ok(())
    }

    // Writes a sector: into the log, then, with the head armed for it, to every place of its home.
    pub fn write(&mut self, sector: u64, buffer: &[u8]) -> Result<(), Refused>
        ensures verdict { RefusedBy (write_verdict (known L.geometry self.old) (S.meaning (shelf_of self.old)) sector (length buffer.now)) (self.new ≡ self.old) result }
        ensures ends { Housed (known L.geometry self.old) (S.meaning (shelf_of self.old)) → CallCame S.meaning L.geometry L.named (write_verdict (known L.geometry self.old) (S.meaning (shelf_of self.old)) sector (length buffer.now)) (λ u. Nothing) (Write sector buffer.now) (self.new ≡ self.old) self.old self.new result }
        ensures housed { StaysHoused S.meaning L.geometry self.old self.new }
    {
        self.judge_write(sector, buffer.len())?;
        let datum: &Sector = buffer.try_into().map_err(|_| Refusal::BufferLength)?;
        let parity = &self.array.parity_after(&mut self.shelf, sector, datum)?;
        self.carry_out(Entry {
            sector,
            datum,
            parity,
        })
    }

    // Starts the move to the target, and answers the overlap distance.
    pub fn begin(&mut self) -> Result<u64, Refused>
        ensures ends { CallCame S.meaning L.geometry L.named (begin_verdict (L.named (target_of self.old)) (known L.geometry self.old) (S.meaning (shelf_of self.old))) (λ d. Distance d) Begin (self.new ≡ self.old) self.old self.new result }
        ensures housed { StaysHoused S.meaning L.geometry self.old self.new }
    {
        let distance = self.judge_begin()?;
        self.checkpoint_progress(0, 0)?;
        self.array.phase = Phase::Moving;
        Ok(distance)
    }

    // Saves the next source row into the backup slots.
    pub fn keep(&mut self) -> Result<(), Refused>
        ensures verdict { RefusedBy (keep_verdict (known L.geometry self.old) (S.meaning (shelf_of self.old))) (self.new ≡ self.old) result }
        ensures ends { Housed (known L.geometry self.old) (S.meaning (shelf_of self.old)) → CallCame S.meaning L.geometry L.named (keep_verdict (known L.geometry self.old) (S.meaning (shelf_of self.old))) (λ u. Nothing) Keep (self.new ≡ self.old) self.old self.new result }
        ensures housed { StaysHoused S.meaning L.geometry self.old self.new }
    {
        self.judge_keep()?;
        let row = self.kept();
        in_row(self.keep_row(), row)
    }

    // Writes the next target row, and grants to settle it.
    pub fn copy(&mut self) -> Result<Grant, Refused>
        ensures verdict { RefusedBy (copy_verdict (known L.geometry self.old) (S.meaning (shelf_of self.old))) (self.new ≡ self.old) result }
        ensures ends { Housed (known L.geometry self.old) (S.meaning (shelf_of self.old)) → CallEnds S.meaning L.geometry L.named (copy_verdict (known L.geometry self.old) (S.meaning (shelf_of self.old))) (λ g. Row (granted_row g)) Copy (self.new ≡ self.old) self.old self.new result }
        ensures housed { StaysHoused S.meaning L.geometry self.old self.new }
        ensures writes { May (From (SLOTS_AT + (known L.geometry self.old).backup)) (S.meaning (shelf_of self.old)) (S.meaning (shelf_of self.new)) }
    {
        self.judge_copy()?;
        let walk = self.array.walk();
        let row = walk.settled;
        let placed = self.array.place_row(&mut self.shelf, walk.target_row(row));
        in_row(placed, row)?;
        self.hand = Some(row);
        Ok(Grant::of(row))
    }

    // Makes the granted row the home of its sectors. A grant of the row in hand empties the hand in any case.
    pub fn settle(&mut self, grant: Grant) -> Result<(), Refused>
        ensures verdict { RefusedBy (settle_verdict (known L.geometry self.old) (S.meaning (shelf_of self.old)) (granted_row grant)) (OnlyHand self.old self.new (emptied (hand_of self.old) (granted_row grant))) result }
        ensures ends { Housed (known L.geometry self.old) (S.meaning (shelf_of self.old)) → CallCame S.meaning L.geometry L.named (settle_verdict (known L.geometry self.old) (S.meaning (shelf_of self.old)) (granted_row grant)) (λ u. Nothing) (Settle (granted_row grant)) (OnlyHand self.old self.new (emptied (hand_of self.old) (granted_row grant))) self.old self.new result }
        ensures housed { StaysHoused S.meaning L.geometry self.old self.new }
    {
        let row = grant.spend();
        let verdict = self.judge_settle(row);
        self.empty_hand(row);
        verdict?;
        let settled = self.settled();
        in_row(self.settle_row(), settled)
    }

    // Gives a grant back; its row is copied again later.
    pub fn hand_back(&mut self, grant: Grant) -> Result<(), Refused>
        ensures ends { CallCame S.meaning L.geometry L.named (hand_back_verdict (known L.geometry self.old) (granted_row grant)) (λ u. Nothing) (HandBack (granted_row grant)) (OnlyHand self.old self.new (emptied (hand_of self.old) (granted_row grant))) self.old self.new result }
        ensures housed { StaysHoused S.meaning L.geometry self.old self.new }
        ensures hand { OnlyHand self.old self.new (emptied (hand_of self.old) (granted_row grant)) }
    {
        if self.empty_hand(grant.spend()) {
            Ok(())
        } else {
            Err(Refusal::WrongGrant.into())
        }
    }

    // Ends the move: the target is the volume's layout from here on.
    pub fn finish(&mut self) -> Result<Finished, Refused>
        ensures ends { CallCame S.meaning L.geometry L.named (finish_verdict (known L.geometry self.old) (S.meaning (shelf_of self.old))) (λ f. Counts f.rows f.kept) Finish (self.new ≡ self.old) self.old self.new result }
        ensures housed { StaysHoused S.meaning L.geometry self.old self.new }
    {
        self.judge_finish()?;
        let counts = Finished {
            rows: self.array.target.rows(),
            kept: self.kept(),
        };
        let label = self.array.target.label();
        self.checkpoint(label, Progress::Idle, None)?;
        self.array.phase = Phase::After;
        Ok(counts)
    }

    // A volume that no head was found or written for yet. Its head stands for none: the phase is shut, so that no call asks for
    // the head, and as an Option it would be asked in each of them.
    fn unopened(shelf: S, source: L, target: L) -> Volume<S, L>
        ensures shelf { shelf_of result ≡ shelf }
        ensures source { source_of result ≡ source }
        ensures target { target_of result ≡ target }
        ensures hand { hand_of result ≡ None }
    {
        let head = first_head(Label::ZERO, 0, 1);
        Volume {
            shelf,
            array: Array {
                source,
                target,
                phase: Phase::Shut(Refusal::WrongPhase),
                head,
            },
            hand: None,
        }
    }

    // A refused create or open leaves a volume whose calls answer that power is lost, if it was, else that this is no phase for them.
    fn shut_if_refused(&mut self, res: &Result<(), Refused>)
        ensures shelf { shelf_of self.new ≡ shelf_of self.old }
        ensures layouts { SameLayouts self.old self.new }
        ensures phase { ShutsBy (phase_of self.old) (phase_of self.new) res.now }
        ensures done { OnOk res.now (self.new ≡ self.old) }
    {
        if let Err(refused) = res {
            self.array.phase = match refused.refusal {
                Refusal::PowerLost => Phase::Shut(Refusal::PowerLost),
                _ => Phase::Shut(Refusal::WrongPhase),
            };
        }
    }

    // Zeroes the source's places, and only then writes the first head.
    fn lay_out(&mut self, backup: u32, size: u64) -> Result<(), Refused>
        ensures ends { LaidOut S.meaning L.geometry L.named (create_verdict (L.named (source_of self.old)) (L.geometry (source_of self.old)) (S.meaning (shelf_of self.old)) backup size) size backup self.old self.new result }
        ensures layouts { SameLayouts self.old self.new }
        ensures housed { hand_of self.old ≡ None → OnOk result (Housed (known L.geometry self.new) (S.meaning (shelf_of self.new))) }
    {
        self.judge_create(backup, size)?;
        let head = first_head(self.array.source.label(), size, backup);
        self.array.head = head;
        self.array.phase = Phase::Before;
        self.array.clear(&mut self.shelf)?;
        self.array.spread(&mut self.shelf, &head)
    }

    // Finds the head that leads, has every member hold it, and finishes a write that it is armed for.
    fn take_up(&mut self) -> Result<(), Refused>
        ensures ends { hand_of self.old ≡ None → TookUp (L.named (source_of self.old)) (L.named (target_of self.old)) (L.geometry (source_of self.old)) (L.geometry (target_of self.old)) (S.meaning (shelf_of self.old)) (known L.geometry self.new) (head_of self.new) (S.meaning (shelf_of self.new)) result }
        ensures layouts { SameLayouts self.old self.new }
        ensures housed { hand_of self.old ≡ None → OnOk result (Housed (known L.geometry self.new) (S.meaning (shelf_of self.new))) }
    {
        let head = self.restarted_head()?.ok_or(Refusal::NoHead)?;
        self.judge_head(&head)?;
        self.array.head = head;
        self.array.phase = phase_under(head.progress);
        self.go_on()
    }

    // Every member holds the head, and a write that it is armed for is finished.
    fn go_on(&mut self) -> Result<(), Refused>
        ensures alike { Alike S.meaning self.old self.new }
        ensures ends { LetPass S.meaning L.geometry self.old → WentOn S.meaning L.geometry self.old self.new result }
    {
        let head = self.array.head;
        self.array.spread(&mut self.shelf, &head)?;
        let Some(sector) = head.armed else {
            return Ok(());
        };
        self.array.redo(&mut self.shelf, sector)?;
        self.checkpoint_armed(None)
    }

    // Restarts the shelf and looks for the head that leads; members that are found absent here are judged later.
    fn restarted_head(&mut self) -> Result<Option<Head>, Refused>
        ensures found { Restarted (S.meaning (shelf_of self.old)) (S.meaning (shelf_of self.new)) result }
        ensures rest { OnlyShelf self.old self.new }
    {
        if !self.shelf.restart() {
            let fault = Fault::at(Operation::Restart, 0, HEAD_AT);
            return Err(Refused::met(Refusal::PowerLost, fault));
        }
        leading_head(&mut self.shelf)
    }

    // A write goes into the log, then, with the head armed for it, to every place of its home.
    fn carry_out(&mut self, entry: Entry) -> Result<(), Refused>
        ensures alike { Alike S.meaning self.old self.new }
        ensures ends { self.old.array.head.number + 2 ≤ MOST_NUMBER → HasHome L.geometry self.old.array entry.entry.sector → Carried S.meaning L.geometry entry.entry.sector entry.entry.datum.now entry.entry.parity.now self.old self.new result }
    {
        self.array.log(&mut self.shelf, entry)?;
        self.checkpoint_armed(Some(entry.sector))?;
        self.array.apply(&mut self.shelf, entry)?;
        self.checkpoint_armed(None)
    }

    // The next checkpoint of the array.
    fn checkpoint(
        &mut self,
        source: Label,
        progress: Progress,
        armed: Option<u64>,
    ) -> Result<(), Refused>
        ensures { CheckpointOf S.meaning L.geometry source progress armed self.old self.new result }
    {
        self.array
            .checkpoint(&mut self.shelf, source, progress, armed)
    }

    // A checkpoint that arms the head for a sector, or disarms it.
    fn checkpoint_armed(&mut self, armed: Option<u64>) -> Result<(), Refused>
        ensures { CheckpointOf S.meaning L.geometry self.old.array.head.source self.old.array.head.progress armed self.old self.new result }
    {
        self.checkpoint(self.array.head.source, self.array.head.progress, armed)
    }

    // A checkpoint of a move that has come so far.
    fn checkpoint_progress(&mut self, settled: u64, kept: u64) -> Result<(), Refused>
        ensures { CheckpointOf S.meaning L.geometry self.old.array.head.source (UnderWay (L.named self.old.array.target) settled kept) None self.old self.new result }
    {
        let target = self.array.target.label();
        let progress = Progress::Moving {
            target,
            settled,
            kept,
        };
        self.checkpoint(self.array.head.source, progress, None)
    }

    // The next target row is settled.
    fn settle_row(&mut self) -> Result<(), Refused>
        ensures { let h = self.old.array.head in settled_rows h.progress ≤ (L.geometry self.old.array.target).rows → CheckpointOf S.meaning L.geometry h.source (UnderWay (L.named self.old.array.target) (settled_rows h.progress + 1) (kept_rows h.progress)) None self.old self.new result }
    {
        let walk = self.array.walk();
        self.checkpoint_progress(walk.settled.saturating_add(1), walk.kept)
    }

    // The slots are durable before the checkpoint that names them.
    fn keep_row(&mut self) -> Result<(), Refused>
        ensures ends { HasVolume L.geometry self.old.array (S.meaning self.old.shelf) → KeepsNext (known L.geometry self.old) → KeepEnds S.meaning L.geometry L.named self.old self.new result }
        ensures housed { StaysHoused S.meaning L.geometry self.old self.new }
    {
        let walk = self.array.walk();
        self.array.save(&mut self.shelf, walk.next_kept())?;
        self.checkpoint_progress(walk.settled, walk.kept.saturating_add(1))
    }

    // Empties the hand of a row, if that is the row in hand.
    fn empty_hand(&mut self, row: u64) -> bool
        ensures matches { result ≡ is_hand (hand_of self.old) row }
        ensures hand { OnlyHand self.old self.new (emptied (hand_of self.old) row) }
    {
        let matches = self.hand == Some(row);
        if matches {
            self.hand = None;
        }
        matches
    }
}

// What was met in a call that is about a row.
fn in_row(outcome: Result<(), Refused>, row: u64) -> Result<(), Refused>
    ensures { result ≡ rowed row outcome }
{
    outcome.map_err(|refused| refused.in_row(row))
}

// The phase of a volume that is opened with such a head.
fn phase_under(progress: Progress) -> Phase
    ensures { result ≡ phase_by progress }
{
    match progress {
        Progress::Idle => Phase::Before,
        Progress::Moving { .. } => Phase::Moving,
    }
}

// The first checkpoint of a volume.
fn first_head(source: Label, size: u64, backup: u32) -> Head
    requires { (1 ≤ backup) × (backup ≤ MOST_BACKUP) }
    ensures { First source size backup result }
{
    Head {
        number: 1,
        source,
        progress: Progress::Idle,
        size,
        backup,
        armed: None,
    }
}
