// The marks: words of one byte or two that are no names.
ghost use Rattle.std.specs.Prelude.{◌≡◌, [], ◌∷◌, ◌+◌, ◌<◌, length, drop, get_or};
ghost use Rattle.meaning.specs.Keywords.{mark_of};
ghost use Rattle.meaning.specs.Words.{mark_here};
ghost use Rattle.kinds.specs.Kinds.{unless_none};
ghost use Rattle.words.specs.Spans.{span_of};

use crate::Span;
use kinds::Kind;

// The kind of the mark that the byte makes.
#[tactic(auto, using(crate::proofs::Marked::if_same), unfolding(meaning::specs::Keywords::mark_of, meaning::specs::Keywords::kind_from, meaning::specs::Keywords::marks, meaning::specs::Keywords::bytes))]
fn mark_one(b: u8) -> Option<Kind>
    ensures { result ≡ unless_none (mark_of (b ∷ [])) }
{
    Some(match b {
        b'{' => Kind::OPEN,
        b'}' => Kind::CLOSE,
        b'(' => Kind::LPAREN,
        b')' => Kind::RPAREN,
        b';' => Kind::SEMI,
        b':' => Kind::COLON,
        b',' => Kind::COMMA,
        b'~' => Kind::TILDE,
        b'*' => Kind::STAR,
        b'-' => Kind::MINUS,
        b'^' => Kind::CARET,
        b'!' => Kind::BANG,
        _ => return None,
    })
}

// The kind of the mark that two bytes make.
// kept: apart from `mark_one`: one match over a part of the text proves too, and all words take a third longer with it,
// where a tenth is the bar (docs/DECISIONS.md).
#[tactic(auto, using(crate::proofs::Marked::if_same), unfolding(meaning::specs::Keywords::mark_of, meaning::specs::Keywords::kind_from, meaning::specs::Keywords::marks, meaning::specs::Keywords::bytes))]
fn mark_two(a: u8, b: u8) -> Option<Kind>
    ensures { result ≡ unless_none (mark_of (a ∷ b ∷ [])) }
{
    Some(match (a, b) {
        (b'=', b'=') => Kind::SAME,
        (b'!', b'=') => Kind::DIFFER,
        (b'&', b'&') => Kind::BOTH,
        (b'|', b'|') => Kind::EITHER,
        _ => return None,
    })
}

// The mark that begins at `start`, of two bytes where they make one, else of one; a byte that makes none is BAD.
pub fn mark_at(text: &[u8], start: usize) -> Span
    requires { start < length text.now }
    ensures { result ≡ span_of (mark_here start (get_or text.now start 0) (drop (start + 1) text.now)) }
{
    let b = text[start];
    let two = text.get(start + 1).and_then(|&next| mark_two(b, next));
    match two {
        Some(kind) => Span {
            kind,
            start,
            end: start + 2,
        },
        None => Span {
            kind: mark_one(b).unwrap_or(Kind::BAD),
            start,
            end: start + 1,
        },
    }
}
