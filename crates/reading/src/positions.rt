// The positions in a statement and what a name stands behind, under the names of meaning's Statements: numbers with types of their own.
ghost use Rattle.std.specs.Prelude.{◌≡◌, ℕ};

use std::marker::Model;

// A position in a statement. Clauses read it as its number.
// kept: a number and no enum: it is counted up behind each part, and `Seen::step` answers for every byte.
#[derive(Clone, Copy, Debug, PartialEq, Eq, PartialOrd, Ord)]
pub struct Position(pub u8);

impl Model for Position {
    ghost Value = { ℕ };

    ghost view = { λ p. p.0 };

    ghost inverse = { λ n. record { 0 = n } };
}

impl Position {
    pub const FIRST: Position = Position(0);

    pub const SECOND: Position = Position(1);

    pub const THIRD: Position = Position(2);

    pub const FOURTH: Position = Position(3);

    pub const CLASS: Position = Position(4);

    // Further parts are counted no further than this.
    pub const OVER: Position = Position(9);

    // In an expression, and in the rest of a comparison of users, roles or types.
    pub const TEST: Position = Position(10);

    pub const USERS: Position = Position(11);

    pub const ROLES: Position = Position(12);

    pub const TYPES: Position = Position(13);

    // Behind the expression of an if.
    pub const BEHIND: Position = Position(14);
}

// What a name stands behind: nothing, `-` or `~`. Clauses read it as its number.
// kept: a number and no enum: `Seen::step` answers for every byte, and rows hold any.
#[derive(Clone, Copy, Debug, PartialEq, Eq)]
pub struct Sign(pub u8);

impl Model for Sign {
    ghost Value = { ℕ };

    ghost view = { λ s. s.0 };

    ghost inverse = { λ n. record { 0 = n } };
}

impl Sign {
    pub const PLAIN: Sign = Sign(0);

    pub const MINUS: Sign = Sign(1);

    pub const TILDE: Sign = Sign(2);
}

// Open parentheses are counted no further than this.
pub const DEEPEST: u8 = 63;
