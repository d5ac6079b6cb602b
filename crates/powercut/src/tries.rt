// Every kind of trouble, in every call of a list.
use crate::cases::{Case, Sequel};
use crate::rig::{Cut, Loss, Rig, Side, Trouble};
use crate::run::Stand;
use crate::tally::Tally;
use crate::turns::Turn;
use drill::DrillShelf;
use layout::Layout;
use shelf::trial::TrialShelf;
use std::alloc::AllocError;

// How thorough the tries are.
#[derive(Clone, Copy)]
pub struct Pace {
    // the choice words of each cut, beside the two of the shelf
    pub choices: &'static [u32],
    // of the pairs of operations, one of so many is tried
    pub sieve: u64,
    // how many random lists for each move, and of the operations of their calls one of so many
    pub lists: u64,
    pub stride: u64,
}

// A choice word, another one for each number: what is not durable is lost, survives, or is mixed.
fn choice(number: u64) -> u32 {
    match number % 4 {
        0 => 0,
        1 => 0xffff_ffff,
        2 => 0x5555_5555,
        _ => 0x3c3c_c3c3,
    }
}

// Whether a pair of numbers is one of those that are tried, one of so many.
fn is_tried(one: u64, other: u64, stride: u64) -> bool {
    one.wrapping_add(other).is_multiple_of(stride.max(1))
}

// A list of calls on a move, to be tried.
#[derive(Clone, Copy)]
pub struct Tries<'a> {
    pub stand: Stand<'a>,
    pub turns: &'a [Turn],
    pub pace: Pace,
    // of the operations of a call, one of so many is tried
    pub stride: u64,
}

impl<'a> Tries<'a> {
    // Every kind of trouble in every call, and the list without any.
    pub fn all(&self) -> Result<Tally, AllocError> {
        let mut tally = self.case(0).play_plain::<TrialShelf>()?;
        for at in 0..self.turns.len() {
            let operations = self.case(at).operations()?.call;
            for operation in 0..operations {
                if is_tried(at as u64, operation, self.stride) {
                    tally = tally + self.at_operation(at, operation, operations)?;
                }
            }
            tally = tally + self.degraded(at)?;
        }
        Ok(tally)
    }

    // The same call of a volume that was created with a member lost, cut at each operation with one choice word or another.
    fn degraded(&self, at: usize) -> Result<Tally, AllocError> {
        let mut tally = Tally::default();
        if self.stand.of.ends.source.loss() == 0 {
            return Ok(tally);
        }
        let lost = Some(self.member(at as u64));
        let degraded = Tries {
            stand: Stand { lost, ..self.stand },
            ..*self
        };
        for operation in 0..degraded.case(at).operations()?.call {
            if is_tried(at as u64, operation, self.stride) {
                let choice = self.word(operation.wrapping_add(at as u64));
                let side = Side::After;
                let cut = Cut {
                    at: operation,
                    side,
                    choice,
                };
                tally = tally + degraded.cut::<TrialShelf>(at, cut, operation)?;
            }
        }
        Ok(tally)
    }

    // One of the choice words of a cut, another one for each number.
    fn word(&self, number: u64) -> u32 {
        let heads = self.stand.of.heads_bits();
        match number % 3 {
            0 => !heads,
            1 => heads,
            _ => choice(number / 3),
        }
    }

    // Every kind of trouble that begins at an operation of a call.
    fn at_operation(
        &self,
        at: usize,
        operation: u64,
        operations: u64,
    ) -> Result<Tally, AllocError> {
        Ok(
            self.cuts(at, operation)?
                + self.cut_opens(at, operation)?
                + self.losses(at, operation)?
                + self.losses_and_more(at, operation, operations)?,
        )
    }

    // The case with no trouble.
    fn case(&self, at: usize) -> Case<'a> {
        Case {
            stand: self.stand,
            turns: self.turns,
            at,
            trouble: Trouble::NONE,
            opens: [None, None],
            sequel: Sequel::Ends(0),
        }
    }

    // A member, another one for each number.
    fn member(&self, number: u64) -> u64 {
        number % self.stand.of.members.max(1)
    }

    // The power goes at the end of an operation of a call, with every choice word and those of all new heads over old contents and of all old
    // heads under new ones, and before it.
    fn cuts(&self, at: usize, operation: u64) -> Result<Tally, AllocError> {
        let before = Cut {
            at: operation,
            side: Side::Before,
            choice: choice(operation),
        };
        let mut tally = self.cut::<DrillShelf>(at, before, operation)?;
        let heads = self.stand.of.heads_bits();
        let words = [heads, !heads];
        for (number, &choice) in self.pace.choices.iter().chain(&words).enumerate() {
            let after = Cut {
                at: operation,
                side: Side::After,
                choice,
            };
            let turn = operation.wrapping_add(number as u64);
            tally = tally + self.cut::<TrialShelf>(at, after, turn)?;
        }
        Ok(tally)
    }

    // The power goes in a call. By turns the run goes on to its end, or loses a member at once.
    fn cut<S: Rig + Drop>(&self, at: usize, cut: Cut, turn: u64) -> Result<Tally, AllocError> {
        let member = self.member(turn / 2);
        Case {
            trouble: Trouble::cut(cut),
            sequel: if turn.is_multiple_of(2) {
                Sequel::Ends(member)
            } else {
                Sequel::Loses(member)
            },
            ..self.case(at)
        }
        .play::<S>()
    }

    // The power goes at an operation of a call, and then twice more inside of opens.
    fn cut_opens(&self, at: usize, operation: u64) -> Result<Tally, AllocError> {
        let cut = |at: u64, number: u64| Trouble::cut(Cut {
            at,
            side: Side::After,
            choice: choice(number),
        });
        let case = Case {
            trouble: cut(operation, operation),
            ..self.case(at)
        };
        let open = case.operations()?.open;
        let mut tally = Tally::default();
        for inside in 0..open {
            if is_tried(operation, inside, self.pace.sieve) {
                let second = operation.wrapping_add(inside.wrapping_mul(7)) % open.max(1);
                let found = Case {
                    opens: [Some(cut(inside, inside / 3)), Some(cut(second, inside / 5))],
                    sequel: Sequel::Loses(self.member(inside)),
                    ..case
                }
                .play::<DrillShelf>()?;
                tally = tally + found;
            }
        }
        Ok(tally)
    }

    // Each member is lost at an operation of a call.
    fn losses(&self, at: usize, operation: u64) -> Result<Tally, AllocError> {
        let mut tally = Tally::default();
        for member in 0..self.stand.of.members {
            let found = Case {
                trouble: Trouble::loss(Loss {
                    at: operation,
                    member,
                }),
                sequel: Sequel::Ends(self.member(member.wrapping_add(1))),
                ..self.case(at)
            }
            .play::<DrillShelf>()?;
            tally = tally + found;
        }
        Ok(tally)
    }

    // A member is lost at an operation of a call, and something more happens at a later one.
    fn losses_and_more(
        &self,
        at: usize,
        operation: u64,
        operations: u64,
    ) -> Result<Tally, AllocError> {
        let mut tally = Tally::default();
        for later in operation..operations {
            if is_tried(operation, later, self.pace.sieve) {
                tally = tally + self.loss_and_more(at, operation, later)?;
            }
        }
        Ok(tally)
    }

    // A member is lost, and then another one, or the power.
    fn loss_and_more(&self, at: usize, operation: u64, later: u64) -> Result<Tally, AllocError> {
        let member = self.member(operation.wrapping_add(later / 2));
        let other = self.member(member.wrapping_add(1));
        let first = Loss {
            at: operation,
            member,
        };
        let second = Loss {
            at: later,
            member: other,
        };
        let cut = Cut {
            at: later,
            side: Side::After,
            choice: choice(later),
        };
        let case = |trouble| Case {
            trouble,
            sequel: Sequel::Ends(other),
            ..self.case(at)
        };
        let twice = case(Trouble::losses(first, second)).play::<DrillShelf>()?;
        let dark = case(Trouble::loss(first).and_cut(cut)).play::<DrillShelf>()?;
        Ok(twice + dark)
    }
}
