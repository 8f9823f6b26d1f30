// A lent file, taken field by field: a tag, a length of two bytes with the high one first, and the contents.
ghost use Rattle.std.specs.Prelude.{◌≡◌, ℕ, ◌+◌, ◌*◌, ◌/◌, ◌<◌, ◌≤◌, ◌++◌, length, take, drop, slice_index, nat_le, nat_lt, position};
ghost use Rattle.checkfile.specs.Tests.{field_tests, count_tests, sizes_tests, table_tests, rule_tests, cost_tests, end_tests, last_tests, byte, pair};
ghost use Rattle.checkfile.specs.Layout.{kind_of};

use crate::kind::Kind;
use crate::lent::{LentCosts, LentRule, LentTable, numbers};
use crate::sizes::Sizes;
use marks::mark::first_outside;
use refusals::Refusal;
use rules::length::Length;
use rules::lists::first_above;

// A lent file and an offset into it, the form of every reader here.
#[derive(Drop)]
pub(crate) struct Reader<'a> {
    file: &'a [u8],
    offset: usize,
    ghost within: { offset ≤ length file.now },
}

// A field's contents, with the offset of the first byte.
#[derive(Drop)]
struct Field<'a> {
    contents: &'a [u8],
    offset: usize,
}

impl<'a> Reader<'a> {
    ghost use Rattle.checkfile.specs.Steps.{Reads, FieldAt, SizesAt, TableAt, PricesAt, RuleAt};

    pub(crate) fn new(file: &'a [u8]) -> Reader<'a>
        ensures { (result.file.now ≡ file.now) × (result.offset ≡ 0) }
    {
        Reader { file, offset: 0 }
    }

    fn rest(&self) -> &'a [u8]
        ensures value { result.now ≡ drop self.now.offset self.now.file.now }
        ensures len { length result.now + self.now.offset ≡ length self.now.file.now }
        ensures places { (k : ℕ) → slice_index result.now k ≡ byte self.now.file.now (self.now.offset + k) }
    {
        &self.file[self.offset..]
    }

    // The next field, which has to have this tag and this length.
    fn field(&mut self, tag: u8, size: usize) -> Result<Field<'a>, Refusal>
        ensures { Reads self.old self.new (λ file at. field_tests file at tag size) (FieldAt size) result }
    {
        let at = self.offset;
        let [found, hi, lo, rest @ ..] = self.rest() else {
            return Err(Refusal::CutOff(at));
        };
        if *found != tag {
            return Err(Refusal::OtherTag(at));
        }
        if usize::from(u16::from_be_bytes([*hi, *lo])) != size {
            return Err(Refusal::OtherLength(at));
        }
        if rest.len() < size {
            return Err(Refusal::CutOff(at));
        }
        self.offset = at + 3 + size;
        Ok(Field {
            contents: &rest[0..size],
            offset: at + 3,
        })
    }

    // q, the count of symbols.
    fn count(&mut self) -> Result<u8, Refusal>
        ensures { Reads self.old self.new count_tests (λ file at q next. (q ≡ byte file (at + 3)) × (2 ≤ q) × (q ≤ 4) × (next ≡ at + 4)) result }
    {
        let field = self.field(1, 1)?;
        match field.contents[0] {
            q @ 2..=4 => Ok(q),
            _ => Err(Refusal::SymbolCount(field.offset)),
        }
    }

    // The count of symbols, and those of places and of check symbols a place.
    fn sizes(&mut self) -> Result<Sizes, Refusal>
        ensures { Reads self.old self.new sizes_tests SizesAt result }
    {
        let q = self.count()?;
        let field = self.field(2, 2)?;
        Sizes::new(q, field.contents[0], field.contents[1]).ok_or(Refusal::Size(field.offset))
    }

    // The sizes and the check symbols.
    pub(crate) fn table(&mut self) -> Result<LentTable<'a>, Refusal>
        ensures { Reads self.old self.new table_tests TableAt result }
    {
        let sizes = self.sizes()?;
        let field = self.field(3, sizes.table())?;
        match first_outside(sizes.q, field.contents) {
            Some(k) => Err(Refusal::CheckSymbol(field.offset + k)),
            None => Ok(LentTable {
                sizes,
                symbols: field.contents,
            }),
        }
    }

    fn kind(&mut self) -> Result<Kind, Refusal>
        ensures { Reads self.old self.new rule_tests (λ file at kind next. (kind ≡ kind_of (byte file (at + 3))) × (next ≡ at + 4)) result }
    {
        let field = self.field(4, 1)?;
        Kind::try_from(field.contents[0]).map_err(|_| Refusal::RuleByte(field.offset))
    }

    fn costs(&mut self, places: Length) -> Result<LentCosts<'a>, Refusal>
        ensures { Reads self.old self.new (λ file at. cost_tests file at places.n) (PricesAt places) result }
    {
        let field = self.field(5, 2 * places.get())?;
        match first_above(1000, &numbers(field.contents)) {
            Some(k) => Err(Refusal::CostInFile(field.offset + 2 * k)),
            None => Ok(LentCosts {
                places,
                bytes: field.contents,
            }),
        }
    }

    fn end(&self) -> Result<(), Refusal>
        ensures { Reads self.now self.now end_tests (λ file at _ next. next ≡ length file) result }
    {
        if self.offset < self.file.len() {
            return Err(Refusal::Surplus(self.offset));
        }
        Ok(())
    }

    // The rule with its costs, if it has any, and then nothing.
    pub(crate) fn rule(&mut self, places: Length) -> Result<LentRule<'a>, Refusal>
        ensures { Reads self.old self.new (λ file at. last_tests file at places.n) (RuleAt places) result }
    {
        let rule = match self.kind()? {
            Kind::Plain => LentRule::Plain(places),
            Kind::Weight => LentRule::Weight(places),
            Kind::Cost => LentRule::Cost(self.costs(places)?),
        };
        self.end()?;
        Ok(rule)
    }
}
