// The rule cost.
ghost use Rattle.std.specs.Prelude.{◌≡◌, ℕ, ◌≤◌, min, true, false, length, None, slice_index, take};
ghost use Rattle.std.proofs.Common.{sym};
ghost use Rattle.std.proofs.lemmas.Bool.{true≢false};
ghost use Rattle.algebra.specs.Rankings.{cost_of, cost_share, by_cost};
ghost use Rattle.rules.specs.Making.{Made, cost_refusal};
ghost use Rattle.algebra.proofs.Rankings.{cost_counts};

use crate::basic::{is_first, low};
use crate::length::Length;
use crate::lists::{first_above, padded};
use crate::measure::{Measure, Measured};
use crate::rule::{Rule, RuleMade};
use marks::mark::{Mark, PLACES};
use refusals::Refusal;

// A number for each place, which counts where the place is filled.
#[derive(Clone, Copy)]
pub struct Costs {
    places: Length,
    // In fixed memory, for a host with no heap.
    costs: [u16; 24],
    ghost long: { length costs ≡ 24 },
    ghost affordable: { (k : ℕ) → slice_index costs k ≤ 1000 },
    // So that the same costs of the same places are equal.
    ghost past: { (k : ℕ) → places.n ≤ k → slice_index costs k ≡ 0 },
}

// The sum of the costs of the nonzero places of a mark's first n. A place past the list costs nothing.
pub fn cost_of_first(n: usize, costs: &[u16], mark: Mark) -> u32
    ensures { result ≡ cost_of n (λ i. slice_index costs.now i) mark.number }
{
    cost_of(&costs[..n.min(costs.len())], mark)
}

// The smaller sum of costs first, then the smaller number, of the first n places: for every n and list, where a rule has 1 to
// 24 places and as many costs up to 1,000.
pub fn cost_before(n: usize, costs: &[u16], u: u64, v: u64) -> bool
    ensures { result ≡ (by_cost n false (λ i. slice_index costs.now i)).before u v }
{
    let cost_u = cost_of_first(n, costs, Mark { number: u });
    let cost_v = cost_of_first(n, costs, Mark { number: v });
    is_first(cost_u, cost_v, low(u, n), low(v, n))
}

// The sum of the costs of a mark's nonzero places, of 32 at most.
pub fn cost_of(costs: &[u16], mark: Mark) -> u32
    ensures { result ≡ cost_of (min (length costs.now) 32) (λ i. slice_index costs.now i) mark.number }
{
    let mut sum = 0;
    let counted = &costs[..costs.len().min(PLACES)];
    // A chain would zip places, filter, map and sum, for the same two lines.
    for (place, cost) in counted.iter().enumerate() {
        if mark.symbol(place) != 0 {
            sum += u32::from(*cost);
        }
    }
    sum
}

impl Measure for Costs {
    const BY_WEIGHT: bool = false;

    ghost BY_WEIGHT = { false };

    ghost n = { λ s. s.places.n };

    ghost share = { λ s. cost_share (λ i. slice_index s.costs i) };

    ghost sized = { λ s. s.places.size };

    ghost counts = { λ s. cost_counts s.places.n (λ i. slice_index s.costs i) };

    ghost weighs = { λ _ h. absurd (true≢false (sym h)) };

    fn places(&self) -> usize {
        self.places.get()
    }

    fn of(&self, mark: Mark) -> u32 {
        cost_of(&self.costs[..self.places.get()], mark)
    }
}

// The smaller sum of costs first, then the smaller number.
pub type Cost = Measured<Costs>;

// The tests of a rule by cost, in their order.
#[tactic(auto, using(crate::proofs::Above::none_above))]
fn tested(n: usize, costs: &[u16]) -> Result<Length, Refusal>
    ensures { Made (cost_refusal n costs.now) (λ places. (places.n ≡ n) × (length costs.now ≡ n) × ((k : ℕ) → slice_index costs.now k ≤ 1000)) result }
{
    let places = Length::try_from(n)?;
    if costs.len() != n {
        return Err(Refusal::RuleShape);
    }
    if let Some(place) = first_above(1000, costs) {
        return Err(Refusal::CostInList(place + 1));
    }
    Ok(places)
}

fn priced(places: Length, costs: &[u16]) -> Cost
    requires short { length costs.now ≤ places.n }
    requires affordable { (k : ℕ) → slice_index costs.now k ≤ 1000 }
    ensures places { result.measure.places ≡ places }
    ensures costs { (k : ℕ) → slice_index result.measure.costs k ≡ slice_index costs.now k }
{
    Measured {
        measure: Costs {
            places,
            costs: padded(0, costs),
        },
    }
}

impl Cost {
    // A number from 0 to 1,000 for each of n places. Beside a refusal stands a rule of one place.
    pub fn new(n: usize, costs: &[u16]) -> RuleMade<Cost>
        ensures refused { result.refused ≡ cost_refusal n costs.now }
        ensures rule { result.refused ≡ None → (result.rule.measure.places.n ≡ n) × ((k : ℕ) → slice_index result.rule.measure.costs k ≡ slice_index costs.now k) }
        ensures ranks { ⟦<Cost as Rule>⟧.ranks result.rule ≡ by_cost result.rule.measure.places.n false (λ i. slice_index result.rule.measure.costs i) }
    {
        match tested(n, costs) {
            Ok(places) => RuleMade {
                rule: priced(places, costs),
                refused: None,
            },
            Err(refusal) => RuleMade {
                rule: priced(Length::one(), &[]),
                refused: Some(refusal),
            },
        }
    }

    // The costs of its places.
    pub fn costs(&self) -> &[u16]
        ensures { result.now ≡ take self.now.measure.places.n self.now.measure.costs }
    {
        &self.measure.costs[..self.measure.places.get()]
    }

    // The cost of a place, counted from 0; 0 where there is none.
    pub fn cost(&self, place: usize) -> u16
        ensures { result ≡ slice_index self.now.measure.costs place }
    {
        self.costs().get(place).copied().unwrap_or(0)
    }
}
