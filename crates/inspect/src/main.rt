// Shows the sizes of a check table file, and for each line of input its check values and whether it is lawful.
#![tactic(auto)]

ghost use Rattle.std.specs.Prelude.{◌≡◌, ◌+◌, ◌<◌, IfOk, vec_items};
ghost use Rattle.checkfile.specs.Contents.{checks_of};
ghost use Rattle.lines.specs.Report.{report_text};
ghost use Rattle.inspect.specs.Inspection.{values_of, symbols_of, inspected};

use checkfile::code::Code;
use checkfile::reading::read;
use cosets::checks::Checks;
use lines::input::{Lines, first_lines, symbols};
use lines::report::{ChecksRefused, Report, TableLine};
use marks::alphabet::{Alphabet, Bits, Quads, Thirds};
use marks::mark::Mark;
use std::alloc::{AllocError, Global};
use std::io::{BufReader, ErrorKind};
use std::{fs, io};

const MOST_LINES: usize = 1000;

// A table's code, with the heap for what is read of a line.
#[derive(Drop)]
struct Inspector<'a> {
    heap: Global,
    code: &'a Code,
}

impl Inspector<'_> {
    fn check_values<A: Alphabet>(
        &self,
        checks: &Checks<'_, A>,
        mark: Mark,
    ) -> Result<Vec<u8>, AllocError>
        ensures { IfOk result (λ values. values.items ≡ values_of A.symbols (checks_of checks.now.code.now) mark.number) }
    {
        (0..checks.code.r())
            .map(|j| checks.value(mark, j))
            .collect(self.heap)
    }

    fn report_over<A: Alphabet>(
        &self,
        alphabet: &A,
        line: usize,
        characters: &[u8],
    ) -> Result<Report<Vec<u8>>, AllocError>
        ensures { IfOk result (λ report. report_text vec_items report ≡ inspected A.symbols (checks_of self.now.code.now) line characters.now) }
    {
        let symbols = symbols(self.heap, characters)?;
        let checks = Checks {
            alphabet,
            code: self.code,
        };
        match Mark::read::<A>(self.code.n(), symbols.as_slice()) {
            Ok(mark) => Ok(Report::Checked {
                line,
                check_number: checks.number(mark),
                values: self.check_values(&checks, mark)?,
            }),
            Err(refusal) => Ok(Report::Refused { line, refusal }),
        }
    }

    // The report of a line, which is counted from 0, over the alphabet that has as many symbols as the code.
    fn report(&self, index: usize, characters: &[u8]) -> Result<Report<Vec<u8>>, AllocError>
        requires { index < 1000 }
        ensures { IfOk result (λ report. report_text vec_items report ≡ inspected (symbols_of self.now.code.now.sizes.q) (checks_of self.now.code.now) (index + 1) characters.now) }
    {
        let line = index + 1;
        // An arm for 4 and one that is never reached would be no plainer: a code has 2, 3 or 4 symbols.
        match self.code.q() {
            2 => self.report_over(&Bits, line, characters),
            3 => self.report_over(&Thirds, line, characters),
            _ => self.report_over(&Quads, line, characters),
        }
    }
}

fn inspect_lines(rt: &HostRuntime, code: &Code, input: &[u8]) -> anyhow::Result<()> {
    let inspector = Inspector {
        heap: rt.alloc(),
        code,
    };
    for (index, characters) in Lines::new(input).enumerate().take(MOST_LINES) {
        let report = inspector.report(index, characters)?;
        println!(rt; "{report}")?;
    }
    Ok(())
}

// An absent file counts as an empty one.
fn checks_file(rt: &HostRuntime) -> io::Result<Vec<u8>> {
    match fs::read(rt, "checks.tab") {
        Err(e) if e.kind() == ErrorKind::NotFound => Ok(Vec::new(rt.alloc())),
        answer => answer,
    }
}

fn run(rt: &HostRuntime) -> anyhow::Result<()> {
    let heap = rt.alloc();
    let file = checks_file(rt)?;
    let reading = read(file.as_slice());
    if let Some(refusal) = reading.refused {
        println!(rt; "{}", ChecksRefused(refusal))?;
        return Ok(());
    }
    let code = &reading.code;
    let table = TableLine {
        q: code.q(),
        n: code.n(),
        r: code.r(),
        rule: reading.rule.kind(),
    };
    println!(rt; "{table}")?;
    let input = first_lines(heap, &mut BufReader::new(heap, rt.stdin())?, MOST_LINES)?;
    inspect_lines(rt, code, input.as_slice())
}

fn main(rt: HostRuntime) -> anyhow::Result<()> {
    run(&rt)
}
