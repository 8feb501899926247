// A reader of words that carries the text and the place reached. Its methods are few and thin:
// `words::word_at`, on slice and number, does the work. Callers take the functions behind the methods, whose parameters are plain.
// Nothing is refused: behind the last word stands one of kind END.
#![tactic(auto)]

ghost use Rattle.std.specs.Prelude.{◌≡◌};
ghost use Rattle.meaning.specs.Words.{word_at, end_of};
ghost use Rattle.words.specs.Spans.{span_of};

use words::Span;
use words::keywords::Keywords;

// A text and the place reached in it.
#[derive(Clone, Copy, Debug)]
pub struct WordReader<'a> {
    pub text: &'a [u8],
    pub at: usize,
}

impl<'a> WordReader<'a> {
    // A reader at the beginning of the text.
    pub fn new(text: &'a [u8]) -> WordReader<'a>
        ensures { (result.text ≡ text.entry) × (result.at ≡ 0) }
    {
        WordReader { text, at: 0 }
    }

    // The word at or behind the place reached, with the keywords lent.
    pub fn word(self, keys: &Keywords) -> Span
        ensures { result ≡ span_of (word_at self.entry.text.now self.entry.at) }
    {
        words::word_at(keys, self.text, self.at)
    }

    // The same text, at another place.
    pub fn advanced(self, at: usize) -> WordReader<'a>
        ensures { (result.text ≡ self.entry.text) × (result.at ≡ at) }
    {
        WordReader { at, ..self }
    }
}

// The first word of a text, with the keywords lent.
// kept: beside `first_word`, of which it is all but the making of the keywords; likewise `second_of`.
pub fn first_of(keys: &Keywords, text: &[u8]) -> Span
    ensures { result ≡ span_of (word_at text.now 0) }
{
    WordReader::new(text).word(keys)
}

// The word behind the first, by a reader that goes on where it stopped, with the keywords lent.
#[tactic(auto, unfolding(words::specs::Spans::span_of))]
pub fn second_of(keys: &Keywords, text: &[u8]) -> Span
    ensures { result ≡ span_of (word_at text.now (end_of (word_at text.now 0))) }
{
    let reader = WordReader::new(text);
    let first = reader.word(keys);
    reader.advanced(first.end).word(keys)
}

// The first word of a text.
pub fn first_word(text: &[u8]) -> Span
    ensures { result ≡ span_of (word_at text.now 0) }
{
    let keys = Keywords::new();
    first_of(&keys, text)
}

// The word behind the first.
pub fn second_word(text: &[u8]) -> Span
    ensures { result ≡ span_of (word_at text.now (end_of (word_at text.now 0))) }
{
    let keys = Keywords::new();
    second_of(&keys, text)
}
