// The recogniser of the policy grammar (meaning/specs/Grammar.antt): a table of states and a count of open parentheses.
// What is left of the grammar behind the words so far is `regex` of the state and the count. A word behind which nothing is left leads
// to no state: no text of the grammar begins with these words, which is refusal 3.
#![tactic(auto)]

ghost use Rattle.std.specs.Prelude.{◌≡◌, ◌+◌, ◌<◌, ◌^◌};
ghost use Rattle.meaning.specs.Grammar.{policy, nullable};
ghost use Rattle.grammar.specs.Table.{state_count};
ghost use Rattle.grammar.specs.States.{regex, next_table};

use kinds::Kind;

pub mod table; // the states, written by tools/states.py

// A state of the table, and how many more parentheses are open where it stands within those of an expression.
// kept: the state by its number: tools/states.py numbers the rows of the table, and a name for each is no plainer.
#[derive(Clone, Copy, Debug, PartialEq, Eq)]
pub struct State {
    pub s: u8,
    pub depth: usize,
    pub ghost known: { s < state_count },
}

impl State {
    // Before the first word: the whole grammar is left.
    #[tactic(auto, using(crate::proofs::Laws::start))]
    pub fn start() -> State
        ensures { (regex result.s result.depth ≡ policy) × (result.depth ≡ 0) }
    {
        State {
            s: table::START,
            depth: 0,
        }
    }

    // Whether the words so far are a whole text of the grammar.
    #[tactic(auto, using(crate::proofs::Laws::accepts))]
    pub fn accepting(self) -> bool
        ensures { result ≡ nullable (regex self.s self.depth) }
    {
        matches!(self.s, table::AFTER_USER | table::AFTER_CONSTRAIN)
    }
}

// Where words lead: the table of the states, made once and lent.
#[derive(Clone, Copy, Debug, PartialEq, Eq)]
pub struct Transitions {
    pub next: table::Next,
    pub ghost laid: { next ≡ next_table },
}

impl Transitions {
    ghost use Rattle.grammar.specs.Led.{Led};

    // The table, laid out from its entries.
    // kept: an entry is three bytes in one number: with an array of arrays the check stops at its limit of steps. The cast
    // takes the lowest of the three. 0 where a state has no such word: `step` answers an Option of it.
    pub fn new() -> Transitions
        ensures { result.next ≡ next_table }
    {
        let mut next = [0; table::TABLE_SIZE];
        for e in table::EDGES {
            next[e / 65536 * table::ROW + e / 256 % 256] = (e % 256) as u8;
        }
        Transitions { next }
    }

    // Behind one more word, of kind k: what is left there is what is left here behind it. No word has a kind from KINDS on.
    pub fn step(&self, st: State, k: Kind) -> Option<State>
        requires { st.depth + 1 < 2 ^ 64 }
        ensures { Led st k result }
    {
        let beyond = k.0 >= table::KINDS;
        if beyond {
            return None;
        }
        let s = st.s;
        let depth = st.depth;
        let n = self.next[usize::from(s) * table::ROW + usize::from(k.0)];
        if n == 0 {
            return None;
        }
        if s > table::LAST_INSIDE {
            return Some(State { s: n, depth: 0 });
        }
        if k == Kind::LPAREN {
            return Some(State {
                s: n,
                depth: depth + 1,
            });
        }
        // the closing parenthesis leads out; if it is not the last, it stands behind an operand of the expression around it
        if n <= table::LAST_INSIDE || depth == 0 {
            return Some(State { s: n, depth });
        }
        Some(State {
            s,
            depth: depth - 1,
        })
    }
}
