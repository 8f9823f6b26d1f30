// Makes the calls of a history, one after the other.
ghost use Rattle.std.specs.Prelude.{◌≡◌, ℕ, ◌+◌, ◌<◌, ◌≤◌, min, true, false, None, length, is_ok, vec_len};
ghost use Rattle.history.specs.Histories.{growth_of, opened_by, Made};
ghost use Rattle.history.specs.Promises.{History};
ghost use Rattle.table.specs.Answers.{open_refusal};
ghost use Rattle.table.specs.Records.{scheme_over};
ghost use Rattle.table.specs.Tables.{scheme_of, settled_of, refusal_of, Grown};

use crate::entry::{Answer, Call, Entry};
use checkfile::code::Code;
use marks::alphabet::Alphabet;
use refusals::Refusal;
use rules::rule::Rule;
use table::table::{Opened, Table};

// Makes one call, and notes its answer.
fn make<A: Alphabet, R: Rule>(table: &mut Table<A, R>, entry: &mut Entry)
    requires { refusal_of table.old ≡ None }
    ensures grown { Grown (growth_of (scheme_of table.old) entry.old) table.old table.new }
    ensures made { Made (scheme_of table.old) (settled_of table.old) entry.old entry.new }
{
    // A call is data, which the definition of a history names, where a closure would hide it.
    let answer = match entry.call {
        Call::Grow(amount) => table
            .grow(amount, entry.scratch.as_mut_slice())
            .map(|()| Answer::Grown),
        Call::Tally => {
            let (count, finished) = table.tally();
            Ok(Answer::Tally(count, finished))
        }
        Call::Find => table
            .find(
                entry.mark.as_slice(),
                entry.first.as_mut_slice(),
                entry.second.as_mut_slice(),
            )
            .map(Answer::Found),
        Call::Leader(j) => table.leader(j).map(Answer::Leader),
    };
    entry.answer = Some(answer);
}

// Opens a table and makes every call in turn. Each answer and refusal, and every buffer afterwards, follows from the code, the
// rule, the alphabet, the amounts accepted before the call, and the call alone.
pub fn replay<A: Alphabet + Drop, R: Rule + Drop>(
    code: Code,
    rule: R,
    alphabet: A,
    entries: &mut [Entry],
) -> Result<(), Refusal>
    ensures opened { result ≡ opened_by (open_refusal code (R.Rule.ranks rule).n A.symbols.q) }
    ensures refused { is_ok result ≡ false → entries.new ≡ entries.old }
    ensures history { is_ok result ≡ true → History (scheme_over A.symbols code (R.Rule.ranks rule)) entries.old entries.new }
{
    let Opened { mut table, refused } = Table::open(code, rule, alphabet);
    if let Some(refusal) = refused {
        return Err(refusal);
    }
    // By an index and no `iter_mut`: docs/DESIGN-PASS.md says why, at the loops.
    for i in 0..entries.len() {
        make(&mut table, &mut entries[i]);
    }
    Ok(())
}
