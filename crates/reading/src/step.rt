// The reading of a statement from word to word: `step` of meaning's Statements. Tests are joined by `&` and `|`, which look at both
// sides: so a test is one value, as in the definitions, and costs no branch.
ghost use Rattle.std.specs.Prelude.{◌≡◌, true};
ghost use Rattle.meaning.specs.Keywords.{k_open, k_name};
ghost use Rattle.meaning.specs.Statements as meaning;
ghost use Rattle.meaning.specs.Statements.{step_e, step_s};

use crate::Seen;
use crate::positions::{DEEPEST, Position, Sign};
use kinds::Kind;

// One parenthesis deeper, but no deeper than `DEEPEST`.
fn deeper(depth: u8) -> u8
    ensures { result ≡ meaning.deeper depth }
{
    if depth < DEEPEST { depth + 1 } else { depth }
}

// What u1 .. t2 compare.
#[tactic(auto, unfolding(meaning::specs::Statements::compared))]
fn compared(k: Kind) -> Position
    ensures { result ≡ meaning.compared k }
{
    if (Kind::U1..=Kind::U2).contains(&k) {
        Position::USERS
    } else if (Kind::R1..=Kind::R2).contains(&k) {
        Position::ROLES
    } else {
        Position::TYPES
    }
}

impl Seen {
    // The state behind the keyword k.
    pub fn begun(k: Kind) -> Seen
        ensures { result ≡ meaning.begun k }
    {
        Seen {
            kw: k,
            pos: Position::FIRST,
            sign: Sign::PLAIN,
            inside: false,
            depth: 0,
        }
    }

    // The state where no statement is open.
    pub fn outside() -> Seen
        ensures { result ≡ meaning.outside }
    {
        Seen::begun(Kind::BAD)
    }

    // Whether an expression is being read.
    pub fn in_e(self) -> bool
        ensures { result ≡ meaning.in_e self }
    {
        (Position::TEST..=Position::TYPES).contains(&self.pos)
    }

    // Whether the rest of a comparison is being read.
    fn comparing(self) -> bool
        ensures { result ≡ meaning.comparing self }
    {
        (Position::USERS..=Position::TYPES).contains(&self.pos)
    }

    // The state at another position of the statement, behind so many open parentheses.
    fn moved(self, pos: Position, depth: u8) -> Seen
        ensures { result ≡ meaning.moved self pos depth }
    {
        Seen {
            pos,
            depth,
            ..Seen::begun(self.kw)
        }
    }

    // The state behind `-` or `~`.
    fn signed(self, sign: Sign) -> Seen
        ensures { result ≡ meaning.signed self sign }
    {
        Seen { sign, ..self }
    }

    // The state in a braced list.
    fn opened(self) -> Seen
        ensures { result ≡ meaning.opened self }
    {
        Seen {
            inside: true,
            ..self
        }
    }

    // The position behind a part: behind the permissions of a constrain its expression begins.
    #[tactic(auto, unfolding(meaning::specs::Statements::behind))]
    fn behind(self) -> Position
        ensures { result ≡ meaning.behind self }
    {
        match (self.kw, self.pos) {
            (Kind::CONSTRAIN, Position::SECOND) => Position::TEST,
            (_, pos) if pos < Position::OVER => Position(pos.0 + 1),
            (_, pos) => pos,
        }
    }

    // The state after a word of kind k in the rest of a comparison, which ends with u1 .. t2, a name or the brace behind names.
    #[tactic(auto, unfolding(meaning::specs::Statements::step_e))]
    fn step_c(self, k: Kind) -> Seen
        requires { meaning.comparing self ≡ true }
        ensures { result ≡ step_e self k }
    {
        let depth = self.depth;
        let ends = k.is_term() | (k == Kind::CLOSE) | ((k == Kind::NAME) & !self.inside);
        match k {
            Kind::OPEN => self.opened(),
            _ if ends => self.moved(Position::TEST, depth),
            _ => self,
        }
    }

    // The state after a word of kind k in an expression.
    #[tactic(auto, unfolding(meaning::specs::Statements::step_e))]
    fn step_e(self, k: Kind) -> Seen
        ensures { result ≡ step_e self k }
    {
        if self.comparing() {
            return self.step_c(k);
        }
        let depth = self.depth;
        if k.is_term() {
            return self.moved(compared(k), depth);
        }
        match k {
            Kind::LPAREN => self.moved(Position::TEST, deeper(depth)),
            Kind::RPAREN if depth == 0 => self.moved(Position::BEHIND, 0),
            Kind::RPAREN => self.moved(Position::TEST, depth - 1),
            _ => self,
        }
    }

    // The state after `{` elsewhere: in a branch of an if, or in a list.
    #[tactic(auto, unfolding(meaning::specs::Statements::step_s))]
    fn at_open(self) -> Seen
        ensures { result ≡ step_s self k_open }
    {
        match self.kw {
            Kind::IF | Kind::ELSE => Seen::outside(),
            _ => self.opened(),
        }
    }

    // The state after a name, `self` or `*` elsewhere: a part ends with it, unless a list is open.
    #[tactic(auto, unfolding(meaning::specs::Statements::step_s))]
    fn at_name(self) -> Seen
        ensures { result ≡ step_s self k_name }
    {
        if !self.inside {
            return self.moved(self.behind(), 0);
        }
        if self.sign == Sign::MINUS {
            return self.signed(Sign::PLAIN);
        }
        self
    }

    // The state after a word of kind k elsewhere.
    #[tactic(auto, unfolding(meaning::specs::Statements::step_s))]
    fn step_s(self, k: Kind) -> Seen
        ensures { result ≡ step_s self k }
    {
        match k {
            Kind::OPEN => self.at_open(),
            Kind::CLOSE => self.moved(self.behind(), 0),
            Kind::LPAREN if self.kw == Kind::IF => self.moved(Position::TEST, 0),
            Kind::COLON => self.moved(Position::CLASS, 0),
            Kind::COMMA => self.moved(Position::SECOND, 0),
            Kind::ALIAS | Kind::INHERITS => self.moved(Position::THIRD, 0),
            Kind::MINUS => self.signed(Sign::MINUS),
            Kind::TILDE => self.signed(Sign::TILDE),
            Kind::NAME | Kind::SELF | Kind::STAR => self.at_name(),
            _ => self,
        }
    }

    // The state after a word of kind k.
    #[tactic(auto, unfolding(meaning::specs::Statements::step))]
    pub fn step(self, k: Kind) -> Seen
        ensures { result ≡ meaning.step self k }
    {
        if k.starts() {
            return Seen::begun(k);
        }
        if k == Kind::SEMI {
            return Seen::outside();
        }
        if self.in_e() {
            return self.step_e(k);
        }
        self.step_s(k)
    }
}
