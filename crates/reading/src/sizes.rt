// What a word counts for, and whether it goes past a size: meaning's Sizes.
ghost use Rattle.std.specs.Prelude.{◌≡◌, ℕ, ◌<◌, length};
ghost use Rattle.meaning.specs.Words.{Word};
ghost use Rattle.meaning.specs.Sizes.{name_count, form_count, count_of, counted, no_counts};
ghost use Rattle.meaning.specs.Sizes as meaning;
ghost use Rattle.kinds.specs.Kinds.{unless_none};
ghost use Rattle.reading.specs.Counts.{past_total, total_number, Room};

use crate::Seen;
use crate::positions::Position;
use kinds::Kind;
use std::marker::Model;

// What is counted over the whole text, in the order of meaning's Sizes.
#[derive(Clone, Copy, Debug, PartialEq, Eq)]
pub enum Total {
    Types,
    Attributes,
    Aliases,
    Classes,
    Commons,
    Roles,
    Users,
    Bools,
    AvRows,
    TypeRows,
    RoleRules,
    Ifs,
    Constrains,
    // What most words count for. kept: a variant and no Option, since `counted` of the definitions counts it too.
    Nothing,
}

// The sizes, in that order; 31 roles beside `object_r`. Nothing has none.
// kept: a list beside the enum: with a match on it the recogniser takes 2.32 times the words, with this 2.18, and 2.21 is the bar.
const LIMITS: [u16; 13] = [128, 32, 32, 32, 8, 31, 32, 16, 512, 128, 64, 32, 32];

const LONGEST_NAME: usize = 63;

const EXPRESSION_WORDS: u8 = 40;

const NESTED_PARENTHESES: u8 = 16;

const COMMON_PERMISSIONS: u8 = 16;

const OWN_PERMISSIONS: u8 = 32;

const OWN_BESIDE_COMMON: u8 = 16;

// What a word that says something counts for, by the statement's keyword and the position.
#[tactic(auto, unfolding(meaning::specs::Sizes::name_count))]
fn name_count(kw: Kind, pos: Position) -> Total
    ensures { total_number result ≡ name_count kw pos }
{
    match pos {
        Position::FIRST => match kw {
            Kind::TYPE => Total::Types,
            Kind::ATTRIBUTE => Total::Attributes,
            Kind::COMMON => Total::Commons,
            Kind::USER => Total::Users,
            Kind::BOOL => Total::Bools,
            _ => Total::Nothing,
        },
        Position::THIRD if matches!(kw, Kind::TYPE | Kind::TYPEALIAS) => Total::Aliases,
        Position::CLASS if (Kind::ALLOW..=Kind::NEVERALLOW).contains(&kw) => Total::AvRows,
        Position::CLASS if (Kind::TYPE_TRANSITION..=Kind::TYPE_MEMBER).contains(&kw) => {
            Total::TypeRows
        }
        _ => Total::Nothing,
    }
}

// What a whole statement of this form counts for.
#[tactic(auto, unfolding(meaning::specs::Sizes::form_count))]
fn form_count(form: Kind) -> Total
    ensures { total_number result ≡ form_count form }
{
    match form {
        Kind::CLASS => Total::Classes,
        Kind::ROLE => Total::Roles,
        Kind::ROLE_ALLOW | Kind::ROLE_TRANSITION => Total::RoleRules,
        Kind::CONSTRAIN => Total::Constrains,
        _ => Total::Nothing,
    }
}

impl Seen {
    // What a word of kind k counts for; a class and a role at the word behind their name, which shows that they are declared.
    #[tactic(auto, unfolding(meaning::specs::Sizes::count_of, meaning::specs::Sizes::form_count))]
    pub fn count_of(self, k: Kind) -> Total
        ensures { total_number result ≡ count_of self k }
    {
        if k.saying() {
            return name_count(self.kw, self.pos);
        }
        match k {
            Kind::IF => Total::Ifs,
            _ => {
                if self.ends(k) {
                    self.form_at(k).map_or(Total::Nothing, form_count)
                } else {
                    Total::Nothing
                }
            }
        }
    }

    // The limit in its statement for a word of kind k; None where the word does not count there.
    #[tactic(auto, unfolding(meaning::specs::Sizes::own_limit))]
    pub fn own_limit(self, k: Kind) -> Option<u8>
        ensures { result ≡ unless_none (meaning.own_limit self k) }
    {
        if self.of_e(k) {
            return Some(EXPRESSION_WORDS);
        }
        if k != Kind::NAME {
            return None;
        }
        match (self.kw, self.pos) {
            (Kind::COMMON, Position::SECOND) => Some(COMMON_PERMISSIONS),
            (Kind::CLASS, Position::SECOND) => Some(OWN_PERMISSIONS),
            (Kind::CLASS, Position::FOURTH) => Some(OWN_BESIDE_COMMON),
            _ => None,
        }
    }

    // The place of the refusal: a class or a role is counted late, and its name, at `last`, is the word that goes past the size.
    #[tactic(auto, unfolding(meaning::specs::Sizes::place_of))]
    pub fn place_of(self, k: Kind, at: usize, last: usize) -> usize
        ensures { (w : Word) → w.kind ≡ k → w.at ≡ at → result ≡ meaning.place_of self w last }
    {
        match self.count_of(k) {
            Total::Classes | Total::Roles => last,
            _ => at,
        }
    }
}

// The counts of a text, word by word: a total for each of the things counted over the whole text, and the count in one statement.
// Clauses read them as the definitions' own.
#[derive(Clone, Copy, Debug, PartialEq, Eq)]
pub struct Counts {
    pub totals: [u16; 14],
    pub own: u8,
}

impl Model for Counts {
    ghost Value = { meaning.Counts };

    ghost view = { λ c. record { totals = c.totals; own = c.own } };

    ghost inverse = { λ c. record { totals = c.totals; own = c.own } };

    ghost invariant = { λ c. length c.totals ≡ 14 };
}

impl Counts {
    // Before the first word.
    #[tactic(auto, unfolding(meaning::specs::Sizes::no_counts))]
    pub fn new() -> Counts
        ensures { result ≡ no_counts }
    {
        Counts {
            totals: [0; 14],
            own: 0,
        }
    }

    // Counts a word of kind k. It asks for room: a total that 65,534 words have raised has room for one more, and a text has at most
    // 32,768 (proofs/Room.antt: a loop over words keeps it).
    #[tactic(auto, unfolding(meaning::specs::Sizes::counted))]
    pub fn count(&mut self, st: Seen, k: Kind)
        requires { Room 65534 self.old }
        ensures { self.new ≡ counted st k self.old }
    {
        let total = st.count_of(k) as usize; // kept: a cast, here and in past_total: an enum's number
        self.totals[total] += 1;
        if k.starts() {
            self.own = 0;
        } else if st.own_limit(k).is_some() {
            self.own += 1;
        }
    }

    // The total is past its size.
    #[tactic(auto, unfolding(meaning::specs::Sizes::limits))]
    fn past_total(&self, total: Total) -> bool
        ensures { result ≡ past_total self.now.totals (total_number total) }
    {
        LIMITS
            .get(total as usize)
            .is_some_and(|&limit| limit < self.totals[total as usize])
    }

    // A word of kind k and of so many bytes goes past a size; it is counted already.
    #[tactic(auto, unfolding(meaning::specs::Sizes::exceeds))]
    pub fn exceeds(&self, st: Seen, k: Kind, len: usize) -> bool
        ensures { (w : Word) → w.kind ≡ k → length w.text ≡ len
            → result ≡ meaning.exceeds st w self.now }
    {
        let long = (k == Kind::NAME) & (LONGEST_NAME < len);
        let past = self.past_total(st.count_of(k));
        let many = st.own_limit(k).is_some_and(|limit| limit < self.own);
        let deep = st.of_e(k) & (k == Kind::LPAREN) & (st.depth == NESTED_PARENTHESES);
        long | past | many | deep
    }
}
