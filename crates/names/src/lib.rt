// The names of a text by numbers: each gets the number of the first row with the same name, so that whoever comes later compares numbers
// and no bytes. Nothing is refused: what a call needs stands in its `requires`.
#![tactic(auto)]

ghost use Rattle.std.specs.Prelude.{◌≡◌, ◌++◌, ◌+◌, ◌*◌, ◌<◌, ◌≤◌, length, drop, replicate};
ghost use Rattle.meaning.specs.Plain.{same_bytes};
ghost use Rattle.names.specs.Names.{bytes_at, first_as, earlier_as, firsts};
ghost use Rattle.names.specs.Chains.{slots, slot_of, row_at, Heads, Nexts};

// How many chains there are. The slot of a name says in which it hangs.
// kept: chains in lent arrays, and no HashMap: nothing is allocated.
pub const SLOTS: usize = 1024;

// The factor of the slots: names that differ in a digit or two get slots of their own.
const FACTOR: usize = 37;

// The slot of a word.
fn slot(word: &[u8]) -> usize
    ensures { (result ≡ slot_of word.now) × (result < slots) }
{
    word.iter()
        .fold(0, |h, &b| (h * FACTOR + usize::from(b)) % SLOTS)
}

// The row that a link leads to: the link is one more, and 0 leads to none.
// kept: links are numbers, since the caller lends them, all 0 at first.
fn row(link: u16) -> Option<usize>
    ensures { result ≡ row_at link }
{
    usize::from(link).checked_sub(1)
}

// The names of a text, a row for each. A row is four entries of `items`, of which the first two count here: the place of the name's first
// byte and how many bytes it has. A name that would go past the text's end stops there.
#[derive(Clone, Copy, Debug)]
pub struct Rows<'a> {
    pub text: &'a [u8],
    pub items: &'a [u16],
}

impl<'a> Rows<'a> {
    // The name of row i.
    // kept: `4 * i + 1 < length items` is asked of each function of a row: it is a fact about i, which a type of the rows cannot say.
    #[tactic(auto, unfolding(crate::specs::Names::bytes_at))]
    fn name(self, i: usize) -> &'a [u8]
        requires { 4 * i + 1 < length self.items.now }
        ensures { result.now ≡ bytes_at self.entry.text.now self.entry.items.now i }
    {
        let len = self.text.len();
        let start = usize::from(self.items[4 * i]);
        let end = start + usize::from(self.items[4 * i + 1]);
        &self.text[start.min(len)..end.min(len)]
    }

    // Whether the name of row i reads as the word.
    #[tactic(auto, using(crate::proofs::Bytes::slices))]
    pub fn reads(self, i: usize, word: &[u8]) -> bool
        requires { 4 * i + 1 < length self.items.now }
        ensures { result ≡ same_bytes (bytes_at self.entry.text.now self.entry.items.now i) word.now }
    {
        self.name(i) == word
    }

    // The first row before row i whose name reads as that of row i, which is `word`: it is looked for along the chain that row i's link
    // leads to.
    fn find(self, nexts: &[u16], i: usize, word: &[u8]) -> Option<usize>
        requires room { (4 * i + 1 < length self.items.now) × (i < length nexts.now) }
        requires chained { (word.now ≡ bytes_at self.text.now self.items.now i) × Nexts self.text.now self.items.now (i + 1) nexts.now }
        ensures { result ≡ earlier_as self.entry.text.now self.entry.items.now i }
    {
        let mut next = row(nexts[i]);
        while let Some(j) = next {
            if self.reads(j, word) {
                return Some(j);
            }
            next = row(nexts[j]);
        }
        None
    }

    // The number of row i, of which all rows before are done. A name that is new is hung into the chain of its slot.
    // kept: `heads` and `nexts` apart: on a struct of both, clauses must say what stays of it, and a `find` by `&self` is not covered.
    fn place(self, i: usize, heads: &mut [u16; SLOTS], nexts: &mut [u16]) -> u16
        requires room { (i < 32768) × (4 * i + 1 < length self.items.now) × (i < length nexts.old) }
        requires chained { Heads self.text.now self.items.now i heads.old × Nexts self.text.now self.items.now i nexts.old }
        ensures value { result ≡ first_as self.entry.text.now self.entry.items.now i }
        ensures heads { Heads self.entry.text.now self.entry.items.now (i + 1) heads.new }
        ensures nexts { Nexts self.entry.text.now self.entry.items.now (i + 1) nexts.new }
    {
        let word = self.name(i);
        let h = slot(word);
        nexts[i] = heads[h];
        match self.find(nexts, i, word) {
            // kept: three casts: the numbers fit, and `try_from` gives a Result to unwrap.
            Some(j) => j as u16,
            None => {
                heads[h] = (i + 1) as u16;
                i as u16
            }
        }
    }
}

// Gives each of the first n rows the number of the first row with the same name. `heads`, which is all 0 at first, and `nexts` are the
// caller's room for the chains.
pub fn first_places(
    rows: Rows,
    n: usize,
    ids: &mut [u16],
    heads: &mut [u16; SLOTS],
    nexts: &mut [u16],
)
    requires room { (n ≤ 32768) × (4 * n ≤ length rows.items.now) × (n ≤ length ids.old) × (n ≤ length nexts.old) }
    requires empty { heads.old ≡ replicate slots 0 }
    ensures { ids.new ≡ firsts rows.entry.text.now rows.entry.items.now n ++ drop n ids.old }
{
    for (i, id) in ids[..n].iter_mut().enumerate() {
        *id = rows.place(i, heads, nexts);
    }
}
