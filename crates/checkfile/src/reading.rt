// Reading a check table file.
ghost use Rattle.std.specs.Prelude.{◌≡◌, [], ◌∷◌, length};
ghost use Rattle.checkfile.specs.Contents.{Read};
ghost use Rattle.checkfile.specs.Steps.{TableAt, RuleAt};
ghost use Rattle.checkfile.specs.Tests.{Judged, tests, rule_offset};

use crate::code::Code;
use crate::fields::Reader;
use crate::lent::{LentRule, LentTable};
use crate::rule::FileRule;
use crate::sizes::Sizes;
use refusals::Refusal;
use rules::length::Length;

fn split(file: &[u8]) -> Result<(LentTable<'_>, LentRule<'_>), Refusal>
    ensures { Judged (tests file.now) (λ p. TableAt file.now 0 p.0 (rule_offset file.now) × RuleAt p.0.sizes.places file.now (rule_offset file.now) p.1 (length file.now)) result }
{
    let mut reader = Reader::new(file);
    let table = reader.table()?;
    let rule = reader.rule(table.sizes.places)?;
    Ok((table, rule))
}

// What a file gives: a code and a rule, or a refusal with a blank code and rule beside it. A code has an array, which no
// `Result` is to hold.
#[derive(Clone, Copy)]
pub struct Reading {
    pub code: Code,
    pub rule: FileRule,
    pub refused: Option<Refusal>,
}

// What stands beside a refusal: one place of bits with the check symbol 0.
fn blank_table() -> LentTable<'static>
    ensures { (result.sizes.q ≡ 2) × (result.sizes.places.n ≡ 1) × (result.sizes.r ≡ 1) × (result.symbols.now ≡ 0 ∷ []) }
{
    LentTable {
        sizes: Sizes {
            q: 2,
            places: Length::one(),
            r: 1,
        },
        symbols: &[0],
    }
}

pub fn read(file: &[u8]) -> Reading
    ensures { Read file.now result.code result.rule result.refused }
{
    match split(file) {
        Ok((table, rule)) => Reading {
            code: Code::new(&table),
            rule: FileRule::new(&rule),
            refused: None,
        },
        Err(refusal) => Reading {
            code: Code::new(&blank_table()),
            rule: FileRule::new(&LentRule::Plain(Length::one())),
            refused: Some(refusal),
        },
    }
}
