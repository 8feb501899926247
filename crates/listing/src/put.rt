// What a word puts into the rows: the form of the statement that it ends, the row of a statement that it begins, or that of an item.
ghost use Rattle.std.specs.Prelude.{◌≡◌, not, ◌&&◌, ◌≤◌, ◌<◌, eqb};
ghost use Rattle.std.specs.Option.{unwrap_or};
ghost use Rattle.meaning.specs.Keywords as keywords;
ghost use Rattle.meaning.specs.Keywords.{k_else};
ghost use Rattle.listing.specs.Branches.{most};
ghost use Rattle.listing.specs.Answers.{FormPut, Ended, ItemPut, StmtPut, RoomFor, WordPut};

use crate::branch::Branch;
use crate::carry::Track;
use crate::row::{self, put_row};
use crate::{ROOM, Rows};
use kinds::Kind;
use reading::Seen;
use words::Span;

// A word of kind k begins a statement that is listed.
// kept: `Seen::says` asks the same of its keyword: one more public function of another crate would save half a line.
fn begins(k: Kind) -> bool
    ensures { result ≡ (keywords.starts k && not (eqb k k_else)) }
{
    k.starts() & (k != Kind::ELSE)
}

// kept: the two arrays are passed beside the rows: a struct of them all must say in each clause which references it keeps, and what
// stays of the array that is not written.
impl Rows {
    // The form of the last statement, unless it is known or there is none.
    pub fn put_form(self, stmts: &mut [u16; ROOM], form: Option<Kind>)
        requires { self.statements ≤ most }
        ensures { FormPut stmts.old stmts.new self (unwrap_or form 0) }
    {
        if self.known || self.statements == 0 {
            return;
        }
        let form = form.unwrap_or(Kind::BAD);
        row::put_form(stmts, self.statements - 1, u16::from(form.0));
    }

    // The same at a word of kind k, if that ends the statement.
    fn put_end(&mut self, stmts: &mut [u16; ROOM], st: Seen, k: Kind)
        requires { self.old.statements ≤ most }
        ensures { Ended stmts.old stmts.new self.old self.new st k }
    {
        if st.ends(k) {
            self.put_form(stmts, st.form_at(k));
            self.known = true;
        }
    }

    // A statement that begins at `at`: its form is not known, and its items are those that come.
    #[tactic(auto, using(crate::specs::Branches::numbers))]
    fn put_stmt(&mut self, stmts: &mut [u16; ROOM], at: usize, branch: Branch)
        requires { (self.old.statements < most) × (self.old.items < most) × (at ≤ most) }
        ensures { StmtPut stmts.old stmts.new self.old self.new at branch }
    {
        // kept: casts, here and in put_item: the numbers fit, and `try_from` gives a Result to unwrap.
        let row = [0, at as u16, branch.0, self.items as u16];
        put_row(stmts, self.statements, row);
        self.statements += 1;
        self.known = false;
    }

    // The word as an item of the open statement.
    // kept: `w.start ≤ w.end` is asked here and of `Reading::take`: a ghost field of the public type Span would ask it of all who make one.
    fn put_item(&mut self, items: &mut [u16; ROOM], st: Seen, w: Span)
        requires { (self.old.items < most) × (w.start ≤ w.end) × (w.end ≤ most) }
        ensures { ItemPut items.old items.new self.old self.new st w }
    {
        let length = w.end - w.start;
        let kind = u16::from_le_bytes([w.kind.0, st.sign.0]);
        let row = [w.start as u16, length as u16, kind, u16::from(st.pos.0)];
        put_row(items, self.items, row);
        self.items += 1;
    }

    // Puts a word in: the form of the statement that it ends, and its row, if it begins a statement or is an item.
    pub fn put_word(&mut self, items: &mut [u16; ROOM], stmts: &mut [u16; ROOM], t: &Track, w: Span)
        requires { RoomFor stmts.old self.old w }
        ensures { WordPut items.old stmts.old items.new stmts.new self.old self.new t.now.seen t.now.branch w }
    {
        let st = t.seen;
        let k = w.kind;
        self.put_end(stmts, st, k);
        if begins(k) {
            self.put_stmt(stmts, w.start, t.branch);
        } else if st.says(k) {
            self.put_item(items, st, w);
        }
    }
}
