// The kinds of words: numbers with names, those of meaning's Keywords. A kind is any byte, and most bytes are the kind of no word.
#![tactic(auto)]

ghost use Rattle.std.specs.Prelude.{◌≡◌, ℕ};
ghost use Rattle.meaning.specs.Keywords.{starts, is_term};
ghost use Rattle.meaning.specs.Statements.{saying};

use std::marker::Model;

// The kind of a word. Clauses read it as its number.
// kept: a number, in a type of its own, and no enum: `reading::Seen::step`, `Counts::count` and `exceeds` answer for every byte.
// Its `impl Model` is that of `Position`, `Sign` and `Scan` too: `rt ci` refuses an impl that a macro writes.
#[derive(Clone, Copy, Debug, PartialEq, Eq, PartialOrd, Ord)]
pub struct Kind(pub u8);

impl Model for Kind {
    ghost Value = { ℕ };

    ghost view = { λ k. k.0 };

    ghost inverse = { λ n. record { 0 = n } };
}

// Every contract speaks of kinds by meaning's names, so a wrong number here fails a proof.
impl Kind {
    // A byte that begins no word. As a keyword or a form it stands for none.
    pub const BAD: Kind = Kind(0);

    pub const NAME: Kind = Kind(1);

    // { } ( ) ; : , ~ * - ^ ! == != && ||
    pub const OPEN: Kind = Kind(2);

    pub const CLOSE: Kind = Kind(3);

    pub const LPAREN: Kind = Kind(4);

    pub const RPAREN: Kind = Kind(5);

    pub const SEMI: Kind = Kind(6);

    pub const COLON: Kind = Kind(7);

    pub const COMMA: Kind = Kind(8);

    pub const TILDE: Kind = Kind(9);

    pub const STAR: Kind = Kind(10);

    pub const MINUS: Kind = Kind(11);

    pub const CARET: Kind = Kind(12);

    pub const BANG: Kind = Kind(13);

    pub const SAME: Kind = Kind(14);

    pub const DIFFER: Kind = Kind(15);

    pub const BOTH: Kind = Kind(16);

    pub const EITHER: Kind = Kind(17);

    // Keywords: those that begin a statement stand from CLASS to CONSTRAIN. Those of which the code speaks.
    pub const CLASS: Kind = Kind(18);

    pub const COMMON: Kind = Kind(19);

    pub const ATTRIBUTE: Kind = Kind(20);

    pub const TYPE: Kind = Kind(21);

    pub const TYPEALIAS: Kind = Kind(22);

    pub const BOOL: Kind = Kind(24);

    pub const ROLE: Kind = Kind(27);

    pub const ROLE_TRANSITION: Kind = Kind(28);

    pub const TYPE_TRANSITION: Kind = Kind(29);

    pub const TYPE_MEMBER: Kind = Kind(31);

    pub const ALLOW: Kind = Kind(32);

    pub const NEVERALLOW: Kind = Kind(35);

    pub const IF: Kind = Kind(36);

    pub const ELSE: Kind = Kind(37);

    pub const USER: Kind = Kind(38);

    pub const CONSTRAIN: Kind = Kind(39);

    pub const INHERITS: Kind = Kind(40);

    pub const ALIAS: Kind = Kind(41);

    pub const TRUE: Kind = Kind(44);

    pub const FALSE: Kind = Kind(45);

    pub const SELF: Kind = Kind(46);

    pub const U1: Kind = Kind(50);

    pub const U2: Kind = Kind(51);

    pub const R1: Kind = Kind(52);

    pub const R2: Kind = Kind(53);

    pub const T2: Kind = Kind(55);

    // What stands behind the last word.
    pub const END: Kind = Kind(56);

    // Forms of statements that are no keyword's.
    pub const PERMS: Kind = Kind(57);

    pub const ROLE_TYPES: Kind = Kind(58);

    pub const ROLE_ALLOW: Kind = Kind(59);

    // Whether a statement begins with a word of this kind; `else` is one of these.
    pub fn starts(self) -> bool
        ensures { result ≡ starts self }
    {
        (Kind::CLASS..=Kind::CONSTRAIN).contains(&self)
    }

    // Whether it is that of u1 u2 r1 r2 t1 t2.
    pub fn is_term(self) -> bool
        ensures { result ≡ is_term self }
    {
        (Kind::U1..=Kind::T2).contains(&self)
    }

    // Whether a word of this kind says something outside expressions.
    pub fn saying(self) -> bool
        ensures { result ≡ saying self }
    {
        matches!(
            self,
            Kind::NAME | Kind::SELF | Kind::STAR | Kind::TRUE | Kind::FALSE
        )
    }
}
