// Two rules of which one stands.
ghost use Rattle.std.specs.Prelude.{◌≡◌, false};
ghost use Rattle.rules.specs.Pairs.{pair_acts, PairLaw};
ghost use Rattle.rules.specs.Bases.{Lawful};
ghost use Rattle.rules.specs.Choose.{pair_fixed};
ghost use Rattle.std.proofs.Common.{arith};
ghost use Rattle.std.proofs.lemmas.Bool.{cond_both};

use super::rule::Rule;

const MOST_CHOICES: u32 = 65_536;

// A pair's choices are the left's, then the right's, cut off after 65,536. It means what the rule that
// stands means: at first the left. The flag is no `Option`: the side that does not stand keeps its own pick.
#[derive(Drop)]
pub struct Pair<L, R> {
    left: L,
    right: R,
    on_right: bool,
}

impl<L: Rule, R: Rule> Pair<L, R> {
    pub fn new(left: L, right: R) -> Pair<L, R>
        ensures { result ≡ record { left = left; right = right; on_right = false } }
    {
        Pair {
            left,
            right,
            on_right: false,
        }
    }
}

impl<L: Rule, R: Rule> Rule for Pair<L, R> {
    ghost acts = { pair_acts L.Rule.acts R.Rule.acts };

    ghost lawful = { λ x. cond_both x.on_right _ _ Lawful (λ _. R.Rule.lawful x.right) (λ _. L.Rule.lawful x.left) };

    ghost some = { λ x. omega (arith, L.Rule.some x.left) };

    ghost few = { λ x. omega arith };

    ghost fixed = { λ x n below. pair_fixed L.Rule.acts R.Rule.acts x n (L.Rule.fixed x.left n) (R.Rule.fixed x.right _) below };

    fn count(&self) -> u32 {
        (self.left.count() + self.right.count()).min(MOST_CHOICES)
    }

    fn base(&self, least_start: u64, least_finish: u64) -> u64 {
        if self.on_right {
            self.right.base(least_start, least_finish)
        } else {
            self.left.base(least_start, least_finish)
        }
    }

    fn pick(&mut self, number: u64) -> bool {
        if number >= self.count() as u64 {
            return false;
        }
        let first = self.left.count() as u64;
        if number < first {
            self.on_right = false;
            self.left.pick(number)
        } else {
            self.on_right = true;
            self.right.pick(number - first)
        }
    }
}

// What a taken pick makes of a pair, in the terms of the two rules.
pub fn pair_law<L: Rule, R: Rule>()
    ensures { PairLaw L.Rule.acts R.Rule.acts }
{}
