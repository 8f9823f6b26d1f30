// A table, its opening and its growth.
ghost use Rattle.table.specs.Records.{scheme_over, Kept, Kept-prop};

use crate::growing::scratch_size;
use crate::records::Records;
use crate::subject::Subject;
use checkfile::code::Code;
use marks::alphabet::Alphabet;
use refusals::Refusal;
use rules::rule::Rule;

// The most cosets that a code has, and the most that one call may settle.
pub const MOST: usize = 256;

#[derive(Drop)]
pub struct Table<A: Alphabet, R: Rule> {
    pub(crate) alphabet: A,
    pub(crate) rule: R,
    pub(crate) code: Code,
    pub(crate) records: Records,
    ghost kept: { Kept (scheme_over A.symbols code (R.Rule.ranks rule)) records } by { Kept-prop (scheme_over A.symbols code (R.Rule.ranks rule)) records },
}

// A table, or the refusal of one with a table beside it that was not opened. A table has arrays, which no `Result` is to hold.
#[derive(Drop)]
pub struct Opened<A: Alphabet, R: Rule> {
    pub table: Table<A, R>,
    pub refused: Option<Refusal>,
}

impl<A: Alphabet, R: Rule> Table<A, R> {
    ghost use Rattle.std.specs.Prelude.{◌≡◌, length, false, is_ok};
    ghost use Rattle.table.specs.Answers.{open_refusal, grow_answer, growth, unless_refused};
    ghost use Rattle.table.specs.Tables.{scheme_of, settled_of, refusal_of, Over, Grown};

    // A table with no leader settled.
    pub fn open(code: Code, rule: R, alphabet: A) -> Opened<A, R>
        ensures refused { result.refused ≡ open_refusal code (R.Rule.ranks rule).n A.symbols.q }
        ensures subject { Over code rule alphabet result.table }
        ensures settled { settled_of result.table ≡ 0 }
    {
        let refused = Subject::new(&alphabet, &rule, &code).err();
        Opened {
            table: Table {
                alphabet,
                rule,
                code,
                records: Records::new(),
            },
            refused,
        }
    }

    // Settles further leaders in ranking order, as many as wanted or all that remain. A table that was not opened refuses
    // as its opening did.
    pub fn grow(&mut self, amount: usize, scratch: &mut [u64]) -> Result<(), Refusal>
        ensures answer { result ≡ unless_refused (refusal_of self.old) (grow_answer (scheme_of self.old) amount (length scratch.old)) }
        ensures grown { Grown (growth result amount) self.old self.new }
        ensures refused { is_ok result ≡ false → (self.new ≡ self.old) × (scratch.new ≡ scratch.old) }
    {
        let subject = Subject::new(&self.alphabet, &self.rule, &self.code)?;
        if amount > MOST {
            return Err(Refusal::Amount);
        }
        if scratch.len() < scratch_size(&self.code) {
            return Err(Refusal::Scratch);
        }
        subject.grow(&mut self.records, amount, scratch);
        Ok(())
    }
}
