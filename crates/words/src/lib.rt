// The words of a policy text, each with its kind and its place. Any bytes are words: a byte that begins none is one of
// kind BAD, and behind the last word stands one of kind END. Nothing is refused here.
#![tactic(auto)]

ghost use Rattle.std.specs.Prelude.{◌≡◌, length};
ghost use Rattle.std.specs.Iterator.{YieldsFirst, item_count};
ghost use Rattle.meaning.specs.Words.{word_at, words_of};
ghost use Rattle.words.specs.Spans.{span_of, Placed, spans_of, spans_left};

use keywords::Keywords;
use kinds::Kind;
use scan::Scan;

pub mod scan; // what separates words, and how far a name goes
mod marks; // words of one byte or two that are no names
pub mod keywords; // which names are keywords

// A word: its kind, the place of its first byte and the place behind its last.
#[derive(Clone, Copy, Debug, PartialEq, Eq)]
pub struct Span {
    pub kind: Kind,
    pub start: usize,
    pub end: usize,
}

// The word at or behind `at`. Where none is left its kind is END, and it is empty, at the text's end or at `at` past that.
// kept: END and no Option: the answer says where the text ends. `Words` gives None there.
pub fn word_at(keys: &Keywords, text: &[u8], at: usize) -> Span
    ensures value { result ≡ span_of (word_at text.now at) }
    ensures placed { Placed text.now at result }
{
    let start = scan::scan_to(text, at, Scan::BETWEEN);
    if text.len() <= start {
        return Span {
            kind: Kind::END,
            start,
            end: start,
        };
    }
    if scan::is_letter(text[start]) {
        let end = scan::scan_to(text, start + 1, Scan::NAMING);
        let kind = keys.kind_of(&text[start..end]);
        return Span { kind, start, end };
    }
    marks::mark_at(text, start)
}

// The words of a text, from a place on.
#[derive(Drop)]
pub struct Words<'a> {
    pub keys: &'a Keywords,
    pub text: &'a [u8],
    pub at: usize,
}

impl<'a> Words<'a> {
    // All words of the text, with the keywords lent.
    #[tactic(auto, unfolding(crate::specs::Spans::spans_left, crate::specs::Spans::words_behind, meaning::specs::Words::words_of))]
    pub fn new(keys: &'a Keywords, text: &'a [u8]) -> Words<'a>
        ensures { spans_left result ≡ spans_of text.now }
    {
        Words { keys, text, at: 0 }
    }
}

impl<'a> Iterator for Words<'a> {
    type Item = Span;

    ghost next_gives = { YieldsFirst spans_left };

    ghost remaining = { item_count spans_left };

    fn next(&mut self) -> Option<Span> {
        let Span { kind, start, end } = word_at(self.keys, self.text, self.at);
        if kind == Kind::END {
            return None;
        }
        self.at = end;
        Some(Span { kind, start, end })
    }
}

// How many words the text has.
pub fn count_words(text: &[u8]) -> usize
    ensures { result ≡ length (words_of text.now) }
{
    let keys = Keywords::new();
    Words::new(&keys, text).count()
}
