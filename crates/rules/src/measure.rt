// Rules that compare marks by a sum over their places.
ghost use Rattle.std.specs.Prelude.{◌≡◌, ℕ, ◌%◌, ◌^◌, ◌≤◌, Bool, true, refl};
ghost use Rattle.algebra.specs.Marks.{weight};
ghost use Rattle.algebra.specs.Rankings.{Counts, measure, by_measure};
ghost use Rattle.algebra.proofs.Rankings.{by_measure_ranks};
ghost use Rattle.rules.specs.Orders.{ranks_orders};

use crate::basic::low;
use crate::rule::Rule;
use marks::mark::Mark;
use queue::ranking::Ranking;

// A sum over a mark's first places, of what each makes of its symbol.
pub trait Measure {
    const BY_WEIGHT: bool;

    ghost BY_WEIGHT: { Bool };

    ghost n: { Self → ℕ };

    ghost share: { Self → ℕ → ℕ → ℕ };

    fn places(&self) -> usize
        ensures { result ≡ n self.now };

    fn of(&self, mark: Mark) -> u32
        ensures { result ≡ measure (n self.now) (share self.now) mark.number };

    ghost sized: { (s : Self) → (1 ≤ n s) × (n s ≤ 24) };

    ghost counts: { (s : Self) → Counts (n s) (share s) };

    ghost weighs: { (s : Self) → BY_WEIGHT ≡ true → (u : ℕ) → measure (n s) (share s) u ≡ weight (n s) u };
}

// The smaller measure first, then the smaller number. The measure holds the length, since a fact on costs needs it there.
#[derive(Clone, Copy)]
pub struct Measured<M> {
    pub measure: M,
}

impl<M: Measure> Measured<M> {
    // What a mark is compared by.
    fn key(&self, number: u64) -> (u32, u64)
        ensures measured { result.0 ≡ measure (M.n self.now.measure) (M.share self.now.measure) number }
        ensures low { result.1 ≡ number % 4 ^ M.n self.now.measure }
    {
        (
            self.measure.of(Mark { number }),
            low(number, self.measure.places()),
        )
    }
}

impl<M: Measure> Ranking<u64> for Measured<M> {
    ghost before = { λ s. (by_measure (M.n s.measure) M.BY_WEIGHT (M.share s.measure)).before };

    ghost orders = { λ s. ranks_orders _ (by_measure_ranks _ _ _ (M.sized s.measure).0 (M.sized s.measure).1 (M.counts s.measure) (M.weighs s.measure)) };

    fn before(&self, u: u64, v: u64) -> bool {
        self.key(u) < self.key(v)
    }
}

impl<M: Measure> Rule for Measured<M> {
    ghost ranks = { λ s. by_measure (M.n s.measure) M.BY_WEIGHT (M.share s.measure) };

    ghost lawful = { λ s. by_measure_ranks _ _ _ (M.sized s.measure).0 (M.sized s.measure).1 (M.counts s.measure) (M.weighs s.measure) };

    ghost agrees = { λ s u v. refl };

    fn places(&self) -> usize {
        self.measure.places()
    }

    fn is_by_weight(&self) -> bool {
        M::BY_WEIGHT
    }
}
