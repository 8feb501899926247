// Rows of four numbers in a lent array: one is put in, or read as an item or as a statement.
// kept: numbers one after the other, and no array of structs: the caller lends the room (nothing is allocated), and
// `names::first_places` reads the same rows.
ghost use Rattle.std.specs.Prelude.{◌≡◌, ◌+◌, ◌*◌, ◌<◌, ◌≤◌, length, set, get_or};
ghost use Rattle.listing.specs.Branches.{most};
ghost use Rattle.listing.specs.Listed.{behind_items};
ghost use Rattle.listing.specs.Answers.{RowPut, ItemRead, StmtRead};

use crate::branch::Branch;
use crate::{Listed, ROOM};
use kinds::Kind;
use reading::positions::{Position, Sign};

// Numbers in a row.
pub const WIDTH: usize = 4;

// Puts a row in.
pub fn put_row(l: &mut [u16; ROOM], i: usize, row: [u16; WIDTH])
    requires { i < most }
    ensures { RowPut l.old l.new i (get_or row 0 0) (get_or row 1 0) (get_or row 2 0) (get_or row 3 0) }
{
    let at = WIDTH * i;
    l[at..at + WIDTH].copy_from_slice(&row);
}

// Puts another form into the row of a statement.
pub fn put_form(l: &mut [u16; ROOM], i: usize, form: u16)
    requires { i < most }
    ensures put { l.new ≡ set l.old (4 * i) form }
    ensures size { length l.old ≡ 4 * most }
{
    l[WIDTH * i] = form;
}

// An item as its row has it: its first byte, the place behind its last, its kind, what it stands behind, its position.
#[derive(Clone, Copy, Debug, PartialEq, Eq)]
pub struct ItemRow {
    pub start: usize,
    pub end: usize,
    pub kind: Kind,
    pub sign: Sign,
    pub pos: Position,
}

// A statement as its row has it: its form, its place, its branch, its first item and the one behind its last.
// kept: the form is BAD and no Option where the statement is not whole, as in the definitions' statement.
#[derive(Clone, Copy, Debug)]
pub struct StmtRow {
    pub form: Kind,
    pub at: usize,
    pub branch: Branch,
    pub first: usize,
    pub end: usize,
}

// Item `i`. Its kind and its sign are the two bytes of one number.
// kept: two in one number: a row has four, and `item_at` and `list_statements` promise what these hold.
#[tactic(auto, unfolding(crate::specs::Answers::item_of_row, crate::specs::Listed::item_at))]
pub fn item_at(items: &[u16; ROOM], i: usize) -> ItemRow
    requires { i < most }
    ensures { ItemRead items.now i result }
{
    let at = WIDTH * i;
    let start = usize::from(items[at]);
    let length = usize::from(items[at + 1]);
    let [kind, sign] = items[at + 2].to_le_bytes();
    let [pos, _] = items[at + 3].to_le_bytes();
    ItemRow {
        start,
        end: start + length,
        kind: Kind(kind),
        sign: Sign(sign),
        pos: Position(pos),
    }
}

impl Listed {
    // The number behind the last item of statement `j`.
    #[tactic(auto, unfolding(crate::specs::Listed::behind_items))]
    fn behind_items(self, stmts: &[u16; ROOM], j: usize) -> usize
        requires { (self.statements ≤ most) × (j < self.statements) }
        ensures { result ≡ behind_items stmts.now self.statements self.items j }
    {
        let next = j + 1;
        if next < self.statements {
            usize::from(stmts[WIDTH * next + 3])
        } else {
            self.items
        }
    }

    // Statement `j`.
    // kept: `statements ≤ most` is asked here and in put.rt: in the public types Listed and Rows a ghost field would ask it of all who
    // make one.
    #[tactic(auto, unfolding(crate::specs::Answers::stmt_of_row, crate::specs::Listed::stmt_at, crate::specs::Listed::behind_items))]
    pub fn stmt_at(self, stmts: &[u16; ROOM], j: usize) -> StmtRow
        requires { (self.statements ≤ most) × (j < self.statements) }
        ensures { StmtRead stmts.now self.statements self.items j result }
    {
        let at = WIDTH * j;
        let [form, _] = stmts[at].to_le_bytes();
        StmtRow {
            form: Kind(form),
            at: usize::from(stmts[at + 1]),
            branch: Branch(stmts[at + 2]),
            first: usize::from(stmts[at + 3]),
            end: self.behind_items(stmts, j),
        }
    }
}
