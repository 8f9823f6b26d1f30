// What a rule is.
ghost use Rattle.std.specs.Prelude.{◌≡◌, ℕ, Bool};
ghost use Rattle.algebra.specs.Rankings.{MarkRanking, Ranks};

use queue::ranking::Ranking;
use refusals::Refusal;

// A rule ranks mark numbers, and means its `ranks`: a length, whether it is by weight, and which of two marks ranks before
// the other. It reads as many places as it is long and no more.
pub trait Rule: Ranking<u64> {
    ghost ranks: { Self → MarkRanking };

    fn places(&self) -> usize
        ensures { result ≡ (ranks self.now).n };

    fn is_by_weight(&self) -> bool
        ensures { result ≡ (ranks self.now).by_weight };

    ghost lawful: { (s : Self) → Ranks (ranks s) };

    ghost agrees: { (s : Self) (u v : ℕ) → Self.Ranking.before s u v ≡ (ranks s).before u v };
}

// A rule, or the refusal of one with a lawful rule beside it. A value with an array in it goes beside its refusal, and
// never inside a Result.
#[derive(Clone, Copy)]
pub struct RuleMade<R> {
    pub rule: R,
    pub refused: Option<Refusal>,
}
