// Check values and check numbers, for every alphabet. Places and values count from 0 here.
ghost use Rattle.std.specs.Prelude.{◌≡◌, ℕ, ◌<◌, true, ◌==◌};
ghost use Rattle.algebra.specs.Checks.{check_value, check_number};
ghost use Rattle.checkfile.specs.Contents.{checks_of};

use checkfile::code::Code;
use marks::alphabet::Alphabet;
use marks::mark::Mark;

// A code as read over an alphabet, which sums its check symbols.
#[derive_where(Clone, Copy)]
pub struct Checks<'a, A> {
    pub alphabet: &'a A,
    pub code: &'a Code,
}

impl<'a, A: Alphabet> Checks<'a, A> {
    // The sum over all places of symbol times check symbol j.
    pub fn value(&self, mark: Mark, j: usize) -> u8
        ensures { result ≡ check_value A.symbols (checks_of self.now.code.now) mark.number j }
    {
        let mut sum = 0;
        // A `fold` over the places was tried: what its closure reads through these references, the search does not find.
        for i in 0..self.code.n() {
            let share = self.alphabet.product(mark.symbol(i), self.code.check(i, j));
            sum = self.alphabet.sum(sum, share);
        }
        sum
    }

    // The check values as digits in base q.
    pub fn number(&self, mark: Mark) -> usize
        ensures { result ≡ check_number A.symbols (checks_of self.now.code.now) mark.number }
    {
        // A loop, since number and power go along together.
        let mut number = 0;
        let mut power = 1;
        for j in 0..self.code.r() {
            number += usize::from(self.value(mark, j)) * power;
            power *= usize::from(A::Q);
        }
        number
    }

    // A code word is a mark whose check number is 0: every check value is 0 then, and only then.
    pub fn is_code_word(&self, mark: Mark) -> bool
        ensures number { result ≡ (check_number A.symbols (checks_of self.now.code.now) mark.number == 0) }
        ensures lawful { result ≡ true → (j : ℕ) → j < self.now.code.now.sizes.r → check_value A.symbols (checks_of self.now.code.now) mark.number j ≡ 0 }
        ensures only { ((j : ℕ) → j < self.now.code.now.sizes.r → check_value A.symbols (checks_of self.now.code.now) mark.number j ≡ 0) → result ≡ true }
    {
        self.number(mark) == 0
    }
}
