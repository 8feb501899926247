// The bytes that separate words, and those of a name: where a run of either ends.
ghost use Rattle.std.specs.Prelude.{◌≡◌, ℕ, drop};
ghost use Rattle.meaning.specs.Words.{is_blank, is_letter, in_name, scan_step, scan_to};
ghost use Rattle.words.specs.Spans.{unless_stopped};

use std::marker::Model;

// What a scan is in. A scan in any other number is as in NAMING. Clauses read it as its number.
// kept: a number and no enum: `scan_to` answers for every byte.
#[derive(Clone, Copy, Debug, PartialEq, Eq)]
pub struct Scan(pub u8);

impl Model for Scan {
    ghost Value = { ℕ };

    ghost view = { λ s. s.0 };

    ghost inverse = { λ n. record { 0 = n } };
}

// Whether the byte separates words by itself.
#[tactic(auto, unfolding(meaning::specs::Words::is_blank))]
fn is_blank(b: u8) -> bool
    ensures { result ≡ is_blank b }
{
    (b == b' ') | (b == b'\t') | (b == b'\r') | (b == b'\n')
}

// Whether the byte begins a name.
#[tactic(auto, unfolding(meaning::specs::Words::is_letter))]
pub fn is_letter(b: u8) -> bool
    ensures { result ≡ is_letter b }
{
    b.is_ascii_alphabetic()
}

// Whether the byte may stand in a name behind the first.
#[tactic(auto, unfolding(meaning::specs::Words::in_name))]
pub fn in_name(b: u8) -> bool
    ensures { result ≡ in_name b }
{
    is_letter(b) | b.is_ascii_digit() | (b == b'_') | (b == b'.') | (b == b'-')
}

impl Scan {
    pub const BETWEEN: Scan = Scan(0);

    pub const COMMENT: Scan = Scan(1);

    pub const NAMING: Scan = Scan(2);

    // What the scan is in after the byte; None where the byte is no longer of it.
    #[tactic(auto, unfolding(meaning::specs::Words::scan_step))]
    fn after(self, b: u8) -> Option<Scan>
        ensures { result ≡ unless_stopped (scan_step self b) }
    {
        match self {
            Scan::COMMENT => {
                let ends = b == b'\n';
                Some(if ends { Scan::BETWEEN } else { Scan::COMMENT })
            }
            Scan::BETWEEN if is_blank(b) => Some(Scan::BETWEEN),
            Scan::BETWEEN => (b == b'#').then_some(Scan::COMMENT),
            _ => in_name(b).then_some(Scan::NAMING),
        }
    }
}

// kept: a scan that is told what it is in: the state changes within a scan, and no part of it is a function of the caller's.
// The place, from `at` on, at which a scan stops; the text's end, or `at` past that, where no byte stops it.
pub fn scan_to(text: &[u8], at: usize, scan: Scan) -> usize
    ensures { result ≡ scan_to scan at (drop at text.now) }
{
    let mut s = scan;
    // by places: `iter().enumerate().skip(at)` is no plainer, and its invariant is longer
    for i in at..text.len() {
        match s.after(text[i]) {
            Some(next) => s = next,
            None => return i,
        }
    }
    at.max(text.len())
}
