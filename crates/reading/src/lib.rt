// The reading of a text, word by word: which position a word has in its statement, and which sizes it counts for. A word is
// given by its kind. Every function is total but `Counts::count`, which asks that the counts are those of a text.
#![tactic(auto)]

ghost use Rattle.meaning.specs.Statements as meaning;

use kinds::Kind;
use positions::{Position, Sign};
use std::marker::Model;

pub mod positions; // positions.rt: the positions in a statement
pub mod step; // step.rt: the reading of a statement from word to word
pub mod statements; // statements.rt: what a word says, what ends a statement, and its form
pub mod sizes; // sizes.rt: what a word counts for, and whether it goes past a size

// The reading of a statement: its keyword (0 outside one), the position, what the next name stands behind, whether a braced list
// is open, the open parentheses of an expression. Clauses read it as the definitions' own.
// kept: 0 for no keyword and no Option: `step` answers for every byte there, as the definitions do.
#[derive(Clone, Copy, Debug, PartialEq, Eq)]
pub struct Seen {
    pub kw: Kind,
    pub pos: Position,
    pub sign: Sign,
    pub inside: bool,
    pub depth: u8,
}

impl Model for Seen {
    ghost Value = { meaning.Seen };

    ghost view = { λ st. record { kw = st.kw; pos = st.pos; sign = st.sign; inside = st.inside; depth = st.depth } };

    ghost inverse = { λ st. record { kw = st.kw; pos = st.pos; sign = st.sign; inside = st.inside; depth = st.depth } };
}
