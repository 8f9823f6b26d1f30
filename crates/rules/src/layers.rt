// Layers: rules that hold another rule, the one below, and rank by it.
ghost use Rattle.std.specs.Prelude.{◌≡◌, ℕ, ◌%◌, ◌^◌, ◌≤◌, ◌==◌, Some, None, nat_le, slice_index, refl};
ghost use Rattle.std.specs.List.{list_all};
ghost use Rattle.algebra.specs.Digits.{total};
ghost use Rattle.algebra.specs.Rankings.{mirrored as turned_of, mirror, wiped, erased};
ghost use Rattle.refusals.specs.declared.Refusal.{Refusal};
ghost use Rattle.rules.specs.Making.{erased_refusal};
ghost use Rattle.algebra.proofs.Layers.{mirror_ranks, erased_ranks};
ghost use Rattle.rules.specs.Orders.{ranks_orders};

use crate::basic::low;
use crate::lists::padded;
use crate::rule::{Rule, RuleMade};
use marks::mark::Mark;
use queue::ranking::Ranking;
use refusals::Refusal;

// Both marks turned end for end.
#[derive(Clone, Copy)]
pub struct Mirror<R> {
    pub below: R,
}

// The first n places of a mark, the last one first.
fn turned(number: u64, n: usize) -> u64
    requires { n ≤ 24 }
    ensures { result ≡ turned_of n number }
{
    let mark = Mark { number };
    Mark::from_fn(n, |i| mark.symbol(n - 1 - i)).number
}

impl<R: Rule> Ranking<u64> for Mirror<R> {
    ghost before = { λ s. (mirror (R.Rule.ranks s.below)).before };

    ghost orders = { λ s. ranks_orders _ (mirror_ranks _ (R.Rule.lawful s.below)) };

    fn before(&self, u: u64, v: u64) -> bool {
        let n = self.below.places();
        self.below.before(turned(u, n), turned(v, n))
    }
}

impl<R: Rule> Rule for Mirror<R> {
    ghost ranks = { λ s. mirror (R.Rule.ranks s.below) };

    ghost lawful = { λ s. mirror_ranks _ (R.Rule.lawful s.below) };

    ghost agrees = { λ s u v. refl };

    fn places(&self) -> usize {
        self.below.places()
    }

    fn is_by_weight(&self) -> bool {
        self.below.is_by_weight()
    }
}

// Whether no byte is above the limit.
fn none_above(limit: u8, bytes: &[u8]) -> bool
    ensures { result ≡ list_all (λ byte. nat_le byte limit) bytes.now }
{
    bytes.iter().all(|byte| *byte <= limit)
}

// Which places are erased: 1 for one that is. The bytes as they are given and no flags, in fixed memory, for a host with no
// heap.
#[derive(Clone, Copy)]
struct Erasures {
    bytes: [u8; 24],
}

// A rule below gives its length as a number, so that it is at most 24 is asked here and no `Length`.
impl Erasures {
    // Whether each of the first n places stays.
    fn are_none(&self, n: usize) -> bool
        requires { n ≤ 24 }
        ensures { result ≡ (total n (λ i. slice_index self.now.bytes i) == 0) }
    {
        none_above(0, &self.bytes[..n])
    }

    // The first n places of a mark, with 0 at the erased ones.
    fn wipe(&self, n: usize, number: u64) -> u64
        requires { n ≤ 24 }
        ensures { result ≡ wiped n (λ i. slice_index self.now.bytes i) number }
    {
        let mark = Mark { number };
        let kept = |i| if self.bytes[i] == 0 {
            mark.symbol(i)
        } else {
            0
        };
        Mark::from_fn(n, kept).number
    }
}

// Erased places blanked; where that leaves the marks equal, the smaller number first.
#[derive(Clone, Copy)]
pub struct Erased<R> {
    below: R,
    gone: Erasures,
}

fn erased_refusal(n: usize, bytes: &[u8]) -> Option<Refusal>
    ensures { result ≡ erased_refusal n bytes.now }
{
    if bytes.len() == n && none_above(1, bytes) {
        None
    } else {
        Some(Refusal::RuleShape)
    }
}

impl<R: Rule> Erased<R> {
    // A byte for each place of the rule below, 1 for an erased one and 0 otherwise. Beside a refusal stands a layer that erases
    // no place.
    pub fn new(below: R, bytes: &[u8]) -> RuleMade<Erased<R>>
        ensures refused { result.refused ≡ erased_refusal (R.Rule.ranks below).n bytes.now }
        ensures below { result.rule.below ≡ below }
        ensures gone { result.refused ≡ None → (k : ℕ) → slice_index result.rule.gone.bytes k ≡ slice_index bytes.now k }
        ensures blank { (e : Refusal) → result.refused ≡ Some e → (k : ℕ) → slice_index result.rule.gone.bytes k ≡ 0 }
    {
        let refused = erased_refusal(below.places(), bytes);
        let bytes = match refused {
            None => padded(0, bytes),
            Some(_) => padded(0, &[]),
        };
        RuleMade {
            rule: Erased {
                below,
                gone: Erasures { bytes },
            },
            refused,
        }
    }

    // What a mark is compared by: what is left of it, then its number.
    fn key(&self, number: u64) -> (u64, u64)
        ensures left { result.0 ≡ wiped (R.Rule.ranks self.now.below).n (λ i. slice_index self.now.gone.bytes i) number }
        ensures low { result.1 ≡ number % 4 ^ (R.Rule.ranks self.now.below).n }
    {
        let n = self.below.places();
        (self.gone.wipe(n, number), low(number, n))
    }
}

impl<R: Rule> Ranking<u64> for Erased<R> {
    ghost before = { λ s. (erased (λ i. slice_index s.gone.bytes i) (R.Rule.ranks s.below)).before };

    ghost orders = { λ s. ranks_orders _ (erased_ranks (λ i. slice_index s.gone.bytes i) _ (R.Rule.lawful s.below)) };

    fn before(&self, u: u64, v: u64) -> bool {
        let (left_u, low_u) = self.key(u);
        let (left_v, low_v) = self.key(v);
        self.below.before(left_u, left_v) || left_u == left_v && low_u < low_v
    }
}

impl<R: Rule> Rule for Erased<R> {
    ghost ranks = { λ s. erased (λ i. slice_index s.gone.bytes i) (R.Rule.ranks s.below) };

    ghost lawful = { λ s. erased_ranks (λ i. slice_index s.gone.bytes i) _ (R.Rule.lawful s.below) };

    ghost agrees = { λ s u v. refl };

    fn places(&self) -> usize {
        self.below.places()
    }

    fn is_by_weight(&self) -> bool {
        self.below.is_by_weight() && self.gone.are_none(self.below.places())
    }
}
