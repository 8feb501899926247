// What is carried from word to word.
ghost use Rattle.std.specs.Prelude.{◌≡◌, ◌<◌};
ghost use Rattle.meaning.specs.Statements.{always, outside};
ghost use Rattle.listing.specs.Branches.{most};
ghost use Rattle.listing.specs.Answers.{Passed};

use crate::branch::Branch;
use kinds::Kind;
use reading::Seen;

// The reading of a statement, the ifs begun, and the branch.
#[derive(Clone, Copy, Debug)]
pub struct Track {
    pub seen: Seen,
    pub ifs: usize,
    pub branch: Branch,
}

impl Track {
    // Before the first word.
    pub fn new() -> Track
        ensures { (result.seen ≡ outside) × (result.ifs ≡ 0) × (result.branch ≡ always) }
    {
        Track {
            seen: Seen::outside(),
            ifs: 0,
            branch: Branch::always(),
        }
    }

    // Behind one more word, of kind k.
    #[tactic(auto, unfolding(meaning::specs::Statements::branch_at))]
    pub fn next(&mut self, k: Kind)
        requires { self.old.ifs < most }
        ensures { Passed self.old self.new k }
    {
        match k {
            Kind::IF => {
                self.branch = Branch::when_true(self.ifs);
                self.ifs += 1;
            }
            Kind::ELSE => self.branch = Branch::when_false(self.ifs.saturating_sub(1)),
            Kind::CLOSE if !self.seen.inside => self.branch = Branch::always(),
            _ => {}
        }
        self.seen = self.seen.step(k);
    }
}
