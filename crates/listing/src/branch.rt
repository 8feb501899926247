// Where a statement stands: outside ifs, or in a branch of one, as the number that a row has for it.
ghost use Rattle.std.specs.Prelude.{◌≡◌, ◌+◌, ◌<◌};
ghost use Rattle.meaning.specs.Statements as meaning;
ghost use Rattle.meaning.specs.Statements.{always, when_true, when_false};
ghost use Rattle.std.proofs.Common.{ap};
ghost use Rattle.listing.specs.Branches.{most, branch_of, branch_number, number-branch};

use std::marker::Model;

// The number of a branch. Clauses read it as the branch.
// kept: a number and no enum: a row holds any u16, and each is a branch; of an enum, the number of an if needs a bound before it fits
// a row.
#[derive(Clone, Copy, Debug)]
pub struct Branch(pub u16);

impl Model for Branch {
    ghost Value = { meaning.Branch };

    ghost view = { λ b. branch_of b.0 };

    ghost inverse = { λ b. record { 0 = branch_number b } };

    ghost inverse_ok = { λ a h. ap (λ n. record { 0 = n }) (number-branch a.0) };
}

impl Branch {
    // Outside ifs.
    #[tactic(auto, unfolding(crate::specs::Branches::branch_of))]
    pub fn always() -> Branch
        ensures { result ≡ always }
    {
        Branch(0)
    }

    // In the first branch of if i.
    #[tactic(auto, unfolding(crate::specs::Branches::branch_of))]
    pub fn when_true(i: usize) -> Branch
        requires { i < most }
        ensures { result ≡ when_true i }
    {
        // kept: a cast, here and in when_false: the number fits, and `try_from` gives a Result to unwrap.
        Branch((2 * i + 1) as u16)
    }

    // In the `else` of if i.
    #[tactic(auto, unfolding(crate::specs::Branches::branch_of))]
    pub fn when_false(i: usize) -> Branch
        requires { i + 1 < most }
        ensures { result ≡ when_false i }
    {
        Branch((2 * i + 2) as u16)
    }
}
