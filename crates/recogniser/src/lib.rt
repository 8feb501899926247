// The recogniser: for any bytes, whether they are a text of the grammar within its sizes, or the refusal 2, 3 or 7 and its place.
// The text is read once, word by word, by the table of states, the position in the statement and the counts.
#![tactic(auto)]

ghost use Rattle.std.specs.Prelude.{◌≡◌, List, [], ℕ, ◌+◌, ◌≤◌, ◌<◌, ◌^◌, length, Some};
ghost use Rattle.meaning.specs.Words.{Word};
ghost use Rattle.words.specs.Spans.{span_of};
ghost use Rattle.reading.specs.Counts.{Room};
ghost use Rattle.recogniser.specs.Refusal.{of_verdict, refusal_of, number_of, place_of, shown};
ghost use Rattle.recogniser.specs.Turn.{ahead, Begun, Taken};

use grammar::{State, Transitions};
use kinds::Kind;
use reading::Seen;
use reading::sizes::Counts;
use std::error::Error;
use std::fmt;
use words::keywords::Keywords;
use words::{Span, Words};

// No text is longer.
const TEXT_SIZE: usize = 32768;

// Why a text is refused, and at which place.
#[derive(Clone, Copy, Debug, PartialEq, Eq)]
pub enum Refusal {
    LongText,
    NotGrammar { place: usize },
    OverSize { place: usize },
}

impl Refusal {
    // The number of the refusal.
    pub fn number(self) -> u32
        ensures { result ≡ number_of self }
    {
        match self {
            Refusal::LongText => 2,
            Refusal::NotGrammar { .. } => 3,
            Refusal::OverSize { .. } => 7,
        }
    }

    // Its place; 0 for a text that is too long.
    // kept: 0 and no Option, as in the definitions, which give each refusal a place.
    pub fn place(self) -> usize
        ensures { result ≡ place_of self }
    {
        match self {
            Refusal::LongText => 0,
            Refusal::NotGrammar { place } | Refusal::OverSize { place } => place,
        }
    }
}

// The number and the place, a space between them.
impl fmt::Display for Refusal {
    ghost output = { λ r. Some (shown r) };

    fn fmt<W: fmt::Write>(&self, f: &mut fmt::Formatter<W>) -> fmt::Result {
        write!(f, "{} {}", self.number(), self.place())
    }
}

impl Error for Refusal {}

// What is known behind the words so far: the state of the grammar, the position in the statement, the counts, and the place of the
// last word.
#[derive(Drop)]
struct Reading {
    state: State,
    seen: Seen,
    counts: Counts,
    last: usize,
}

impl Reading {
    // Before the first word.
    fn new() -> Reading
        ensures { Begun result }
    {
        Reading {
            state: State::start(),
            seen: Seen::outside(),
            counts: Counts::new(),
            last: 0,
        }
    }

    // Behind one more word, w: the grammar is asked first, then the sizes.
    fn take(&mut self, next: &Transitions, w: Span) -> Result<(), Refusal>
        requires { (self.old.state.depth + 1 < 2 ^ 64) × Room 65534 self.old.counts × (w.start ≤ w.end) }
        ensures { (x : Word) → w ≡ span_of x → Taken self.old x result self.new }
    {
        let kind = w.kind;
        let state = next
            .step(self.state, kind)
            .ok_or(Refusal::NotGrammar { place: w.start })?;
        self.counts.count(self.seen, kind);
        if self.counts.exceeds(self.seen, kind, w.end - w.start) {
            let place = self.seen.place_of(kind, w.start, self.last);
            return Err(Refusal::OverSize { place });
        }
        self.state = state;
        self.seen = self.seen.step(kind);
        self.last = w.start;
        Ok(())
    }

    // At the text's end.
    #[tactic(auto, unfolding(crate::specs::Refusal::of_verdict, crate::specs::Turn::ahead, meaning::specs::Sizes::read_from))]
    fn finish(&self, end: usize) -> Result<(), Refusal>
        ensures { result ≡ of_verdict (ahead end self.now []) }
    {
        if self.state.accepting() {
            Ok(())
        } else {
            Err(Refusal::NotGrammar { place: end })
        }
    }
}

// Whether the bytes are a text of the grammar within its sizes; if not, the refusal, 2, 3 or 7, and its place.
pub fn recognise(text: &[u8]) -> Result<(), Refusal>
    ensures { result ≡ refusal_of text.now }
{
    if TEXT_SIZE < text.len() {
        return Err(Refusal::LongText);
    }
    let keys = Keywords::new();
    let next = Transitions::new();
    let mut reading = Reading::new();
    for w in Words::new(&keys, text) {
        reading.take(&next, w)?;
    }
    reading.finish(text.len())
}
