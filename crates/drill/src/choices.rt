// The choice words of a drill shelf.
ghost use Rattle.std.specs.Prelude.{◌≡◌};
ghost use Rattle.drill.specs.Drills.{ticked};
ghost use Rattle.drill.specs.Schedules.{word_at};

// A list of words, and how many restarts have taken one.
#[derive(Drop)]
pub(crate) struct Choices {
    words: Vec<u32>,
    taken: usize,
}

impl Choices {
    // From the first word on.
    pub(crate) fn new(words: Vec<u32>) -> Choices
        ensures { result ≡ record { words = words; taken = 0 } }
    {
        Choices { words, taken: 0 }
    }

    // The word of the next restart: after the list's end its last one, and 0 where it is empty.
    pub(crate) fn next(&mut self) -> u32
        ensures word { result ≡ word_at self.old.words.items self.old.taken }
        ensures after { self.new ≡ record { words = self.old.words; taken = ticked self.old.taken } }
    {
        let word = self
            .words
            .get(self.taken)
            .or(self.words.last())
            .copied()
            .unwrap_or(0);
        self.taken = self.taken.saturating_add(1);
        word
    }
}
