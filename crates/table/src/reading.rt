// What a table tells: how many leaders are settled, and which; and the correction of a mark.
ghost use Rattle.std.specs.Prelude.{◌≡◌, ◌≤◌, length, IfOk};
ghost use Rattle.algebra.specs.Marks.{number_of, bytes_of, minus};
ghost use Rattle.leaders.specs.Leaders.{leader_of, leader_number};
ghost use Rattle.leaders.specs.Schemes.{MarkOf};
ghost use Rattle.marks.specs.Reading.{reading};
ghost use Rattle.table.specs.Answers.{tally_answer, leader_answer, settled_number, find_answer, written, correction_of, corrected_of};
ghost use Rattle.table.specs.Tables.{scheme_of, settled_of};

use crate::table::Table;
use cosets::checks::Checks;
use marks::alphabet::Alphabet;
use marks::mark::Mark;
use refusals::Refusal;
use rules::rule::Rule;

impl<A: Alphabet, R: Rule> Table<A, R> {
    // How many leaders are settled, and whether every coset is.
    pub fn tally(&self) -> (usize, bool)
        ensures { result ≡ tally_answer (scheme_of self.now) (settled_of self.now) }
    {
        (self.records.settled, self.records.finished)
    }

    // The mark number of leader j, counted from 1.
    pub fn leader(&self, j: usize) -> Result<u64, Refusal>
        ensures { result ≡ leader_answer (scheme_of self.now) (settled_of self.now) j }
    {
        if j == 0 || j > self.records.settled {
            return Err(Refusal::OutOfRange);
        }
        Ok(self.records.leaders[j - 1])
    }

    // The mark of the table that the bytes spell.
    fn sound_mark(&self, bytes: &[u8]) -> Result<Mark, Refusal>
        ensures value { result ≡ reading A.symbols self.now.code.sizes.places.n bytes.now }
        ensures sound { IfOk result (λ mark. (mark.number ≡ number_of bytes.now) × MarkOf (scheme_of self.now) mark.number) }
    {
        Mark::read::<A>(self.code.n(), bytes)
    }

    // The number of the leader of the mark's coset, where it is settled.
    fn settled_number(&self, mark: Mark) -> Result<usize, Refusal>
        requires { MarkOf (scheme_of self.now) mark.number }
        ensures value { result ≡ settled_number (scheme_of self.now) (settled_of self.now) mark.number }
        ensures settled { IfOk result (λ number. (number ≡ leader_number (scheme_of self.now) mark.number) × (number ≤ settled_of self.now)) }
    {
        let check = Checks {
            alphabet: &self.alphabet,
            code: &self.code,
        }
        .number(mark);
        let number = self.records.number(check).ok_or(Refusal::NotSettled)?;
        Ok(usize::from(number))
    }

    // Writes the leader with that number, which is the mark's, and the mark minus it.
    fn write_correction(
        &self,
        mark: Mark,
        number: usize,
        correction: &mut [u8],
        corrected: &mut [u8],
    )
        requires number { (number ≡ leader_number (scheme_of self.now) mark.number) × (number ≤ settled_of self.now) }
        requires long { (length correction.old ≡ self.now.code.sizes.places.n) × (length corrected.old ≡ self.now.code.sizes.places.n) }
        ensures correction { correction.new ≡ bytes_of self.now.code.sizes.places.n (leader_of (scheme_of self.now) mark.number) }
        ensures corrected { corrected.new ≡ bytes_of self.now.code.sizes.places.n (minus A.symbols self.now.code.sizes.places.n mark.number (leader_of (scheme_of self.now) mark.number)) }
    {
        let leader = Mark {
            number: self.records.leaders[number - 1],
        };
        leader.write(correction);
        mark.minus(&self.alphabet, self.code.n(), leader)
            .write(corrected);
    }

    // Writes the correction of a mark, which is its coset's leader, and the corrected mark; answers the leader's number.
    pub fn find(
        &self,
        mark: &[u8],
        correction: &mut [u8],
        corrected: &mut [u8],
    ) -> Result<usize, Refusal>
        ensures answer { result ≡ find_answer (scheme_of self.now) (settled_of self.now) mark.now (length correction.old) (length corrected.old) }
        ensures correction { correction.new ≡ written (scheme_of self.now) result (correction_of (scheme_of self.now) mark.now) correction.old }
        ensures corrected { corrected.new ≡ written (scheme_of self.now) result (corrected_of (scheme_of self.now) mark.now) corrected.old }
    {
        let seen = self.sound_mark(mark)?;
        if correction.len() != self.code.n() || corrected.len() != self.code.n() {
            return Err(Refusal::Buffer);
        }
        let number = self.settled_number(seen)?;
        self.write_correction(seen, number, correction, corrected);
        Ok(number)
    }
}
