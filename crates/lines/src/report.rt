// The lines that a program reports.
ghost use Rattle.std.specs.Prelude.{◌≡◌, Some};
ghost use Rattle.std.specs.Option.{option_map};
ghost use Rattle.lines.specs.Report.{digit_of, digits_of, report_text, checks_refused, table_line, verdict_of};

use refusals::Refusal;
use std::convert::AsSlice;
use std::fmt::{self, Display};

// A number of more digits than one shows as a question mark.
fn digit(symbol: u8) -> char
    ensures { result ≡ digit_of symbol }
{
    char::from_digit(u32::from(symbol), 10).unwrap_or('?')
}

// Symbols, one digit each.
#[derive(Clone, Copy)]
pub struct Digits<'a>(pub &'a [u8]);

impl Display for Digits<'_> {
    ghost output = { λ symbols. Some (digits_of symbols.0.now) };

    fn fmt<W: fmt::Write>(&self, f: &mut fmt::Formatter<W>) -> fmt::Result {
        for symbol in self.0 {
            f.write_char(digit(*symbol))?;
        }
        Ok(())
    }
}

// A word for the check number 0, which is the number of a coset and no kind.
fn verdict(check_number: usize) -> &'static str
    ensures { result.now ≡ verdict_of check_number }
{
    if check_number == 0 {
        "lawful"
    } else {
        "unlawful"
    }
}

// What is reported of a line of input: the check number and check values of its mark, or why it is none. An enum of its own
// and no `Result`, so that each case prints by one format.
#[derive(Drop)]
pub enum Report<V> {
    Checked {
        line: usize,
        check_number: usize,
        values: V,
    },
    Refused {
        line: usize,
        refusal: Refusal,
    },
}

impl<V: AsSlice<u8>> Display for Report<V> {
    ghost output = { λ report. Some (report_text V.items report) };

    fn fmt<W: fmt::Write>(&self, f: &mut fmt::Formatter<W>) -> fmt::Result {
        match self {
            Report::Checked {
                line,
                check_number,
                values,
            } => {
                let values = Digits(values.as_slice());
                let verdict = verdict(*check_number);
                write!(f, "{line} {check_number} {values} {verdict}")
            }
            Report::Refused { line, refusal } => write!(f, "{line} {refusal}"),
        }
    }
}

// What is reported of a check table file that is refused.
#[derive(Clone, Copy)]
pub struct ChecksRefused(pub Refusal);

impl Display for ChecksRefused {
    ghost output = { λ checks. Some (checks_refused checks.0) };

    fn fmt<W: fmt::Write>(&self, f: &mut fmt::Formatter<W>) -> fmt::Result {
        write!(f, "checks {}", self.0)
    }
}

// What is reported of a check table: its sizes and its rule.
#[derive(Drop)]
pub struct TableLine<R> {
    pub q: u8,
    pub n: usize,
    pub r: usize,
    pub rule: R,
}

impl<R: Display> Display for TableLine<R> {
    ghost output = { λ table. option_map (table_line table.q table.n table.r) (R.output table.rule) };

    fn fmt<W: fmt::Write>(&self, f: &mut fmt::Formatter<W>) -> fmt::Result {
        write!(f, "table {} {} {} {}", self.q, self.n, self.r, self.rule)
    }
}

#[cfg(test)]
mod tests {
    use super::*;
    use std::test::Fail;

    #[test]
    fn digits_stand_side_by_side(rt: HostRuntime) -> Result<(), Fail> {
        let digits = Digits(&[0, 3, 9, 10]).to_string(rt.alloc())?;
        assert_eq!(rt; digits.as_str(), "039?");
        Ok(())
    }

    #[test]
    fn a_refusal_has_its_number_layer_and_place(rt: HostRuntime) -> Result<(), Fail> {
        let refusal = Refusal::MarkSymbol(12);
        let report = Report::<&[u8]>::Refused { line: 7, refusal };
        assert_eq!(rt; report.to_string(rt.alloc())?.as_str(), "7 refused 14 4 12");
        assert_eq!(rt;
            ChecksRefused(refusal).to_string(rt.alloc())?.as_str(),
            "checks refused 14 4 12"
        );
        Ok(())
    }

    #[test]
    fn a_table_has_its_sizes_and_rule(rt: HostRuntime) -> Result<(), Fail> {
        let table = TableLine {
            q: 3,
            n: 13,
            r: 3,
            rule: "weight",
        };
        assert_eq!(rt;
            table.to_string(rt.alloc())?.as_str(),
            "table 3 13 3 weight"
        );
        Ok(())
    }

    #[test]
    fn only_check_number_0_is_lawful(rt: HostRuntime) -> Result<(), Fail> {
        let lawful = Report::Checked {
            line: 1,
            check_number: 0,
            values: [0, 0].as_slice(),
        };
        assert_eq!(rt; lawful.to_string(rt.alloc())?.as_str(), "1 0 00 lawful");
        let unlawful = Report::Checked {
            line: 20,
            check_number: 5,
            values: [1, 2].as_slice(),
        };
        assert_eq!(rt;
            unlawful.to_string(rt.alloc())?.as_str(),
            "20 5 12 unlawful"
        );
        Ok(())
    }
}
