// What a word says in its statement, and what the statement is, from the reading state and the word's kind: meaning's Statements.
ghost use Rattle.std.specs.Prelude.{◌≡◌};
ghost use Rattle.meaning.specs.Statements as meaning;
ghost use Rattle.kinds.specs.Kinds.{unless_none};

use crate::Seen;
use crate::positions::Position;
use kinds::Kind;

impl Seen {
    // Whether the word is one of an expression; an if's own pair of parentheses is not.
    #[tactic(auto, unfolding(meaning::specs::Statements::of_e))]
    pub fn of_e(self, k: Kind) -> bool
        ensures { result ≡ meaning.of_e self k }
    {
        let own = (self.kw == Kind::IF)
            & (self.pos == Position::TEST)
            & (k == Kind::RPAREN)
            & (self.depth == 0);
        self.in_e() & !k.starts() & (k != Kind::SEMI) & !own
    }

    // Whether this is a braced list where `class` and `role` name one: it says nothing.
    #[tactic(auto, unfolding(meaning::specs::Statements::idle))]
    fn idle(self) -> bool
        ensures { result ≡ meaning.idle self }
    {
        matches!(self.kw, Kind::CLASS | Kind::ROLE) & (self.pos == Position::FIRST) & self.inside
    }

    // Whether a word of kind k is one of the statement's items.
    #[tactic(auto, unfolding(meaning::specs::Statements::says))]
    pub fn says(self, k: Kind) -> bool
        ensures { result ≡ meaning.says self k }
    {
        self.kw.starts() & (self.kw != Kind::ELSE) & !self.idle() & (self.of_e(k) | k.saying())
    }

    // Whether a word of kind k ends the statement: the next one begins, `;`, or the brace behind an if's condition.
    #[tactic(auto, unfolding(meaning::specs::Statements::ends))]
    pub fn ends(self, k: Kind) -> bool
        ensures { result ≡ meaning.ends self k }
    {
        match k {
            Kind::SEMI => true,
            Kind::OPEN => matches!(self.kw, Kind::IF | Kind::ELSE),
            _ => k.starts(),
        }
    }

    // The form of the statement that a word of kind k ends; None where it is not whole.
    #[tactic(auto, unfolding(meaning::specs::Statements::form_at))]
    pub fn form_at(self, k: Kind) -> Option<Kind>
        ensures { result ≡ unless_none (meaning.form_at self k) }
    {
        let second = self.pos == Position::SECOND;
        match self.kw {
            Kind::CLASS if second && matches!(k, Kind::CLASS | Kind::COMMON) => Some(Kind::CLASS),
            Kind::CLASS => Some(Kind::PERMS),
            Kind::COMMON | Kind::IF => Some(self.kw),
            _ if k != Kind::SEMI => None,
            Kind::ROLE if second => Some(Kind::ROLE),
            Kind::ROLE => Some(Kind::ROLE_TYPES),
            Kind::ALLOW if self.pos == Position::THIRD => Some(Kind::ROLE_ALLOW),
            Kind::BAD => None,
            kw => Some(kw),
        }
    }
}
