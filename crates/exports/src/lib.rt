// What tests and benchmarks outside the proof call from C or Rust. Each function is one call of a proved one.
#![tactic(auto)]

ghost use Rattle.std.specs.Prelude.{◌≡◌, length};
ghost use Rattle.meaning.specs.Words.{words_of};
ghost use Rattle.recogniser.specs.Refusal.{refusal_of, number_in, place_in};

// A refusal number and a place; 0 and 0 where there is no refusal.
// kept: a pair of numbers: C reads it.
#[repr(C)]
#[derive(Clone, Copy, Debug, PartialEq, Eq)]
pub struct Answer {
    pub number: u32,
    pub place: usize,
}

// How many words the text has.
#[unsafe(no_mangle)]
pub extern "C" fn kasimbur_count_words(text: &[u8]) -> usize
    ensures { result ≡ length (words_of text.now) }
{
    words::count_words(text)
}

// 0, or 2, 3 or 7 with the place.
#[unsafe(no_mangle)]
pub extern "C" fn kasimbur_recognise(text: &[u8]) -> Answer
    ensures { (result.number ≡ number_in (refusal_of text.now)) × (result.place ≡ place_in (refusal_of text.now)) }
{
    match recogniser::recognise(text) {
        Ok(()) => Answer {
            number: 0,
            place: 0,
        },
        Err(refusal) => Answer {
            number: refusal.number(),
            place: refusal.place(),
        },
    }
}
