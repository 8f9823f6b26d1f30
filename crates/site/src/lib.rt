// A rule as a library's own people would write it: the smaller sum of the symbols first, then the smaller number.
#![tactic(auto)]

ghost use Rattle.std.specs.Prelude.{◌≡◌, ◌%◌, ◌^◌, false, refl};
ghost use Rattle.algebra.specs.Rankings.{measure, by_measure};
ghost use Rattle.rules.specs.Making.{Made, size_refusal};
ghost use Rattle.rules.specs.Orders.{ranks_orders};
ghost use Rattle.site.specs.Laws.{symbol_sum_ranks};

use marks::mark::Mark;
use queue::ranking::Ranking;
use refusals::Refusal;
use rules::basic::low;
use rules::length::Length;
use rules::rule::Rule;

#[cfg(test)]
mod tests;

// It meets `Rule` itself, to show that a rule from outside can, though as a sum it could be a `Measure`.
#[derive(Clone, Copy)]
pub struct SymbolSum {
    places: Length,
}

impl SymbolSum {
    pub fn new(n: usize) -> Result<SymbolSum, Refusal>
        ensures { Made (size_refusal n) (λ rule. rule.places.n ≡ n) result }
    {
        Ok(SymbolSum {
            places: Length::try_from(n)?,
        })
    }

    // What a mark is compared by: the sum of its symbols, and its number.
    fn key(&self, number: u64) -> (u32, u64)
        ensures sum { result.0 ≡ measure self.now.places.n (λ _ symbol. symbol) number }
        ensures low { result.1 ≡ number % 4 ^ self.now.places.n }
    {
        let n = self.places.get();
        let mark = Mark { number };
        let mut sum = 0;
        // A chain over `0..n` that ends in `sum` was tried: neither its bound nor its value was found.
        for place in 0..n {
            sum += u32::from(mark.symbol(place));
        }
        (sum, low(number, n))
    }
}

impl Ranking<u64> for SymbolSum {
    ghost before = { λ s. (by_measure s.places.n false (λ _ symbol. symbol)).before };

    ghost orders = { λ s. ranks_orders _ (symbol_sum_ranks s.places.n s.places.size.0 s.places.size.1) };

    fn before(&self, u: u64, v: u64) -> bool {
        self.key(u) < self.key(v)
    }
}

impl Rule for SymbolSum {
    ghost ranks = { λ s. by_measure s.places.n false (λ _ symbol. symbol) };

    ghost lawful = { λ s. symbol_sum_ranks s.places.n s.places.size.0 s.places.size.1 };

    ghost agrees = { λ s u v. refl };

    fn places(&self) -> usize {
        self.places.get()
    }

    fn is_by_weight(&self) -> bool {
        false
    }
}
