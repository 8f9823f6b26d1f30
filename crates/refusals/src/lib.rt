// Why a call declines. `listed` gives each refusal its number, layer and place.
#![tactic(auto)]

ghost use Rattle.std.specs.Prelude.{◌≡◌, Some};
ghost use Rattle.refusals.specs.Refusals.{listed, refused_text};

use std::fmt;

#[derive(Clone, Copy, PartialEq, Eq, Debug)]
pub enum Refusal {
    // Reading a file, by an offset in it.
    CutOff(usize),
    OtherTag(usize),
    OtherLength(usize),
    SymbolCount(usize),
    Size(usize),
    CheckSymbol(usize),
    RuleByte(usize),
    CostInFile(usize),
    Surplus(usize),
    // Making a rule.
    RuleShape,
    CostInList(usize),
    // Writing a file.
    RuleOfOtherCode,
    FileTooShort,
    // The table.
    OtherCode,
    Amount,
    Scratch,
    MarkLength,
    MarkSymbol(usize),
    Buffer,
    NotSettled,
    NotFinished,
    NotByWeight,
    TooHeavy,
    RunTooShort,
    OutOfRange,
    // The queue.
    QueueFull,
}

impl Refusal {
    pub fn number(self) -> u8
        ensures { result ≡ (listed self).number }
    {
        match self {
            Refusal::CutOff(_) => 1,
            Refusal::OtherTag(_) => 2,
            Refusal::OtherLength(_) => 3,
            Refusal::SymbolCount(_) => 4,
            Refusal::Size(_) => 5,
            Refusal::CheckSymbol(_) => 6,
            Refusal::RuleByte(_) => 7,
            Refusal::CostInFile(_) | Refusal::CostInList(_) => 8,
            Refusal::Surplus(_) => 9,
            Refusal::OtherCode | Refusal::RuleOfOtherCode => 10,
            Refusal::Amount => 11,
            Refusal::Scratch => 12,
            Refusal::MarkLength => 13,
            Refusal::MarkSymbol(_) => 14,
            Refusal::Buffer => 15,
            Refusal::NotSettled => 16,
            Refusal::NotFinished => 17,
            Refusal::NotByWeight => 18,
            Refusal::TooHeavy => 19,
            Refusal::RunTooShort | Refusal::FileTooShort => 20,
            Refusal::OutOfRange => 21,
            Refusal::RuleShape => 22,
            Refusal::QueueFull => 23,
        }
    }

    // 1 fields, 2 file values, 3 rules, 4 the table, 5 the queue.
    pub fn layer(self) -> u8
        ensures { result ≡ (listed self).layer }
    {
        match self {
            Refusal::CutOff(_)
            | Refusal::OtherTag(_)
            | Refusal::OtherLength(_)
            | Refusal::Surplus(_)
            | Refusal::RuleOfOtherCode
            | Refusal::FileTooShort => 1,
            Refusal::SymbolCount(_)
            | Refusal::Size(_)
            | Refusal::CheckSymbol(_)
            | Refusal::RuleByte(_)
            | Refusal::CostInFile(_) => 2,
            Refusal::RuleShape | Refusal::CostInList(_) => 3,
            Refusal::QueueFull => 5,
            _ => 4,
        }
    }

    pub fn place(self) -> usize
        ensures { result ≡ (listed self).place }
    {
        match self {
            Refusal::CutOff(at)
            | Refusal::OtherTag(at)
            | Refusal::OtherLength(at)
            | Refusal::SymbolCount(at)
            | Refusal::Size(at)
            | Refusal::CheckSymbol(at)
            | Refusal::RuleByte(at)
            | Refusal::CostInFile(at)
            | Refusal::Surplus(at)
            | Refusal::CostInList(at)
            | Refusal::MarkSymbol(at) => at,
            _ => 0,
        }
    }
}

impl fmt::Display for Refusal {
    ghost output = { λ refusal. Some (refused_text refusal) };

    fn fmt<W: fmt::Write>(&self, f: &mut fmt::Formatter<W>) -> fmt::Result {
        write!(
            f,
            "refused {} {} {}",
            self.number(),
            self.layer(),
            self.place()
        )
    }
}
