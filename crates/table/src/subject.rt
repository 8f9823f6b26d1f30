// What a table corrects by.
ghost use Rattle.std.specs.Prelude.{◌≡◌};

use checkfile::code::Code;
use cosets::checks::Checks;
use marks::alphabet::Alphabet;
use refusals::Refusal;
use rules::rule::Rule;

// An alphabet, a rule and a code that fit one another.
pub(crate) struct Subject<'a, A: Alphabet, R: Rule> {
    pub(crate) checks: Checks<'a, A>,
    pub(crate) rule: &'a R,
    ghost count: { A.symbols.q ≡ checks.code.now.sizes.q },
    ghost places: { (R.Rule.ranks rule.now).n ≡ checks.code.now.sizes.places.n },
}

impl<'a, A: Alphabet, R: Rule> Subject<'a, A, R> {
    ghost use Rattle.std.specs.Prelude.{Some, MatchResult};
    ghost use Rattle.table.specs.Answers.{open_refusal};

    pub(crate) fn new(
        alphabet: &'a A,
        rule: &'a R,
        code: &'a Code,
    ) -> Result<Subject<'a, A, R>, Refusal>
        ensures { MatchResult result (λ subject. (subject.checks.alphabet.now ≡ alphabet.now) × (subject.checks.code.now ≡ code.now) × (subject.rule.now ≡ rule.now)) (λ refusal. open_refusal code.now (R.Rule.ranks rule.now).n A.symbols.q ≡ Some refusal) }
    {
        if rule.places() != code.n() || A::Q != code.q() {
            return Err(Refusal::OtherCode);
        }
        Ok(Subject {
            checks: Checks { alphabet, code },
            rule,
        })
    }
}

// It only borrows what it speaks of, where a derive would ask `A: Drop`.
impl<'a, A: Alphabet, R: Rule> Drop for Subject<'a, A, R> {
    fn drop(self) {
        let Self { checks: _, rule: _ } = self;
    }
}
