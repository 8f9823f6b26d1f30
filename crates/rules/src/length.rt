// How many places of a mark a rule reads.
ghost use Rattle.std.specs.Prelude.{◌≡◌, ◌≤◌};
ghost use Rattle.rules.specs.Making.{Made, size_refusal};

use refusals::Refusal;

#[derive(Clone, Copy, PartialEq, Eq, Debug)]
pub struct Length {
    n: usize,
    ghost size: { (1 ≤ n) × (n ≤ 24) },
}

impl TryFrom<usize> for Length {
    type Error = Refusal;

    ghost try_from_gives = { λ n made. Made (size_refusal n) (λ length. length.n ≡ n) made };

    fn try_from(n: usize) -> Result<Length, Refusal> {
        if n == 0 || n > 24 {
            return Err(Refusal::RuleShape);
        }
        Ok(Length { n })
    }
}

impl Length {
    pub fn one() -> Length
        ensures { result.n ≡ 1 }
    {
        Length { n: 1 }
    }

    pub fn get(self) -> usize
        ensures value { result ≡ self.n }
        ensures least { 1 ≤ result }
        ensures most { result ≤ 24 }
    {
        self.n
    }
}
