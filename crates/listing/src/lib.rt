// The statements of a text and their items, listed in one pass as rows of numbers in two lent arrays. Every later pass goes through
// the rows by number, and none reads words. Nothing is refused here: a text of any bytes has its statements.
#![tactic(auto)]

ghost use Rattle.std.specs.Prelude.{◌≡◌, ◌≤◌, length};
ghost use Rattle.listing.specs.Branches.{most};
ghost use Rattle.listing.specs.Answers.{AllListed};

use carry::Track;
use words::Words;
use words::keywords::Keywords;

pub mod row; // rows of four numbers: put, and read as an item or a statement
pub mod branch; // where a statement stands, as the number that a row has for it
pub mod carry; // what is carried from word to word: the reading, the ifs, the branch
pub mod put; // what a word puts into the rows

// The bytes of the longest text. Each word has one, so there are no more statements or items.
// kept: a number also in the recogniser, of which this crate takes nothing.
pub const MOST: usize = 32768;

// The size of each of the two arrays, for callers.
pub const ROOM: usize = row::WIDTH * MOST;

// How many statements and items stand in the rows.
#[derive(Clone, Copy, Debug, PartialEq, Eq)]
pub struct Listed {
    pub statements: usize,
    pub items: usize,
}

// The rows so far, and whether the form of the last statement stands in its row.
// kept: a flag that goes with no value: an Option of that statement's number would say `statements` again.
#[derive(Clone, Copy, Debug, PartialEq, Eq)]
pub struct Rows {
    pub statements: usize,
    pub items: usize,
    pub known: bool,
}

// kept: keywords and text are two parameters here and where a word is read: the keywords are made once for all texts; `Words` holds both.
// Lists the statements of the text. What the arrays hold behind the rows is not said. The form of a statement that breaks off is 0.
pub fn list_statements<'a>(
    keys: &'a Keywords,
    text: &'a [u8],
    items: &mut [u16; ROOM],
    stmts: &mut [u16; ROOM],
) -> Listed
    requires { length text.now ≤ most }
    ensures { AllListed text.now items.new stmts.new result }
{
    let mut track = Track::new();
    let mut rows = Rows {
        statements: 0,
        items: 0,
        known: true,
    };
    for w in Words::new(keys, text) {
        let kind = w.kind;
        rows.put_word(items, stmts, &track, w);
        track.next(kind);
    }
    rows.put_form(stmts, None);
    Listed {
        statements: rows.statements,
        items: rows.items,
    }
}
