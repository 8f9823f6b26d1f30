// The rules plain and weight.
ghost use Rattle.std.specs.Prelude.{◌≡◌, ◌%◌, ◌^◌, true, false};
ghost use Rattle.std.proofs.Common.{sym};
ghost use Rattle.std.proofs.lemmas.Bool.{true≢false};
ghost use Rattle.algebra.specs.Rankings.{first, plain, by_weight, cost_share};
ghost use Rattle.rules.specs.Making.{Made, size_refusal};
ghost use Rattle.algebra.proofs.Rankings.{cost_counts, ones_weigh};

use crate::length::Length;
use crate::measure::{Measure, Measured};
use crate::rule::Rule;
use marks::mark::{Mark, PLACES};
use refusals::Refusal;

// The first n places of a mark, and nothing past them.
pub fn low(number: u64, n: usize) -> u64
    ensures { result ≡ number % 4 ^ n }
{
    if n >= PLACES {
        return number;
    }
    number & ((1 << (2 * n)) - 1)
}

// The smaller of a and b first, and where they are equal the smaller of u and v.
pub fn is_first(a: u32, b: u32, u: u64, v: u64) -> bool
    ensures { result ≡ first a b u v }
{
    (a, u) < (b, v)
}

// The lighter mark first, then the smaller number, of the first n places: for every n, where a rule has 1 to 24.
pub fn weight_before(n: usize, u: u64, v: u64) -> bool
    ensures { result ≡ (by_weight n).before u v }
{
    let u = Mark { number: low(u, n) };
    let v = Mark { number: low(v, n) };
    is_first(u.weight(), v.weight(), u.number, v.number)
}

// No place counts.
#[derive(Clone, Copy)]
pub struct Nothing {
    places: Length,
}

impl Measure for Nothing {
    const BY_WEIGHT: bool = false;

    ghost BY_WEIGHT = { false };

    ghost n = { λ s. s.places.n };

    ghost share = { λ _. cost_share (λ _. 0) };

    ghost sized = { λ s. s.places.size };

    ghost counts = { λ s. cost_counts s.places.n (λ _. 0) };

    ghost weighs = { λ _ h. absurd (true≢false (sym h)) };

    fn places(&self) -> usize {
        self.places.get()
    }

    #[tactic(auto, using(algebra::proofs::Rankings::free_cost))]
    fn of(&self, _mark: Mark) -> u32 {
        0
    }
}

// The smaller mark number first.
pub type Plain = Measured<Nothing>;

impl From<Length> for Plain {
    ghost from_gives = { λ places rule. rule.measure.places ≡ places };

    fn from(places: Length) -> Plain {
        Measured {
            measure: Nothing { places },
        }
    }
}

impl Plain {
    pub fn new(n: usize) -> Result<Plain, Refusal>
        ensures { Made (size_refusal n) (λ rule. (rule.measure.places.n ≡ n) × (⟦<Plain as Rule>⟧.ranks rule ≡ plain n)) result }
    {
        Ok(Plain::from(Length::try_from(n)?))
    }
}

// Each place that is filled counts 1.
#[derive(Clone, Copy)]
pub struct Ones {
    places: Length,
}

impl Measure for Ones {
    const BY_WEIGHT: bool = true;

    ghost BY_WEIGHT = { true };

    ghost n = { λ s. s.places.n };

    ghost share = { λ _. cost_share (λ _. 1) };

    ghost sized = { λ s. s.places.size };

    ghost counts = { λ s. cost_counts s.places.n (λ _. 1) };

    ghost weighs = { λ s _. ones_weigh s.places.n };

    fn places(&self) -> usize {
        self.places.get()
    }

    #[tactic(auto, using(algebra::proofs::Rankings::weight_cost))]
    fn of(&self, mark: Mark) -> u32 {
        let number = low(mark.number, self.places.get());
        Mark { number }.weight()
    }
}

// The lighter mark first, then the smaller number.
pub type Weight = Measured<Ones>;

impl From<Length> for Weight {
    ghost from_gives = { λ places rule. rule.measure.places ≡ places };

    fn from(places: Length) -> Weight {
        Measured {
            measure: Ones { places },
        }
    }
}

// A `new` of its own, as plain has: each promises another ranking.
impl Weight {
    pub fn new(n: usize) -> Result<Weight, Refusal>
        ensures { Made (size_refusal n) (λ rule. (rule.measure.places.n ≡ n) × (⟦<Weight as Rule>⟧.ranks rule ≡ by_weight n)) result }
    {
        Ok(Weight::from(Length::try_from(n)?))
    }
}
