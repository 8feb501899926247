// The keywords. The slot of an identifier leads to the one keyword that it can be, and one comparison decides: it has that
// keyword's kind or is a NAME. The words stand once, in a table that is made once and lent on.
ghost use Rattle.std.specs.Prelude.{◌≡◌, ◌<◌, length, slice_get};
ghost use Rattle.meaning.specs.Keywords.{kind_of};
ghost use Rattle.words.specs.Keys.{key_count, keyword, slot_of, key_table, candidate};

use kinds::Kind;

// How many slots there are, how many keywords, and how many bytes each of these takes.
const SLOTS: usize = 128;

const COUNT: usize = 38;

const WIDTH: usize = 16;

// Where the keywords' bytes begin, behind the slots and the lengths.
const BYTES: usize = SLOTS + COUNT;

// The size of the table.
pub const SIZE: usize = BYTES + COUNT * WIDTH;

// The kind of the first keyword; the others follow in the table's order.
const FIRST: u8 = Kind::CLASS.0;

// In each slot the number of the keyword that has it, or COUNT; the lengths of the keywords; their bytes, filled up with spaces.
// Written by tools/keywords.py from the definitions' list.
// kept: one array: of three in a struct each needs its own equality with the definitions, and the script writes them as one; COUNT
// and no Option, since a slot is a byte.
const KEYS: [u8; SIZE] = *b"\
    \x26\x26\x26\x26\x26\x12\x26\x11\x26\x26\x0a\x26\x17\x26\x26\x26\
    \x0b\x26\x26\x0c\x26\x04\x26\x26\x26\x26\x26\x1d\x26\x26\x26\x1b\
    \x26\x26\x0e\x26\x26\x01\x26\x26\x26\x26\x26\x26\x06\x22\x26\x14\
    \x26\x26\x26\x24\x23\x26\x20\x26\x26\x26\x25\x26\x26\x21\x26\x26\
    \x26\x26\x26\x09\x26\x26\x13\x1c\x26\x26\x26\x26\x26\x26\x26\x15\
    \x26\x19\x26\x26\x26\x26\x26\x26\x1f\x26\x16\x26\x0d\x26\x26\x26\
    \x0f\x03\x00\x26\x26\x26\x10\x08\x26\x07\x26\x1e\x26\x26\x26\x18\
    \x26\x26\x26\x26\x26\x26\x26\x26\x26\x05\x26\x26\x26\x26\x02\x1a\
    \x05\x06\x09\x04\x09\x0d\x04\x0a\x0a\x04\x0f\x0f\x0b\x0b\x05\x0a\x09\x0a\x02\
    \x04\x04\x09\x08\x05\x05\x05\x04\x05\x04\x03\x02\x03\x02\x02\x02\x02\x02\x02\
    class           \
    common          \
    attribute       \
    type            \
    typealias       \
    typeattribute   \
    bool            \
    typebounds      \
    permissive      \
    role            \
    role_transition \
    type_transition \
    type_change     \
    type_member     \
    allow           \
    auditallow      \
    dontaudit       \
    neverallow      \
    if              \
    else            \
    user            \
    constrain       \
    inherits        \
    alias           \
    types           \
    roles           \
    true            \
    false           \
    self            \
    and             \
    or              \
    not             \
    u1              \
    u2              \
    r1              \
    r2              \
    t1              \
    t2              ";

// The slot of a word, from its first byte, the one in its middle and its last. No two keywords have one slot.
#[tactic(auto, unfolding(crate::specs::Keys::slot_of))]
fn slot_of(word: &[u8]) -> usize
    requires { 0 < length word.now }
    ensures { result ≡ slot_of word.now }
{
    let first = usize::from(word[0]);
    let middle = usize::from(word[word.len() / 2]);
    let last = usize::from(word[word.len() - 1]);
    (3 * first + 6 * middle + last) % SLOTS
}

// The table of the keywords: made once, and lent to whatever reads words.
#[derive(Clone, Copy, Debug, PartialEq, Eq)]
pub struct Keywords {
    pub table: [u8; SIZE],
    pub ghost made: { table ≡ key_table },
}

impl Keywords {
    #[tactic(auto, unfolding(crate::specs::Keys::key_table, crate::specs::Keys::key_entry, crate::specs::Keys::keyword, crate::specs::Keys::slot_of, meaning::specs::Keywords::keywords, meaning::specs::Keywords::bytes))]
    pub fn new() -> Keywords
        ensures { result.table ≡ key_table }
    {
        Keywords { table: KEYS }
    }

    // The number of the one keyword that the word can be.
    fn candidate(&self, word: &[u8]) -> Option<u8>
        ensures { result ≡ candidate word.now }
    {
        if word.is_empty() {
            return None;
        }
        let k = self.table[slot_of(word)];
        (usize::from(k) < COUNT).then_some(k)
    }

    // Keyword `k`.
    fn keyword(&self, k: u8) -> &[u8]
        requires { k < key_count }
        ensures { result.now ≡ keyword k }
    {
        let k = usize::from(k);
        let start = BYTES + WIDTH * k;
        let len = usize::from(self.table[SLOTS + k]);
        &self.table[start..start + len]
    }

    // The kind of an identifier: a keyword's, or NAME.
    pub fn kind_of(&self, word: &[u8]) -> Kind
        ensures { result ≡ kind_of word.now }
    {
        match self.candidate(word) {
            Some(k) if self.keyword(k) == word => Kind(FIRST + k),
            _ => Kind::NAME,
        }
    }
}
