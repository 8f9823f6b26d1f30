// What a table has settled.
ghost use Rattle.std.specs.Prelude.{◌≡◌, ◌<◌, None, slice_index_or};
ghost use Rattle.table.specs.Records.{nothing_settled, recorded};

use crate::table::MOST;

// What is written as each coset is settled: its leader's mark number, in ranking order, and under its check number the
// leader's number. A plain inner struct of fixed memory, since the host has no heap.
#[derive(Drop)]
pub(crate) struct Records {
    pub(crate) settled: usize,
    // Beside the count, since how many cosets there are shows only where no leader is left.
    pub(crate) finished: bool,
    pub(crate) leaders: [u64; MOST],
    pub(crate) numbers: [Option<u16>; MOST],
}

impl Records {
    pub(crate) fn new() -> Records
        ensures { result ≡ nothing_settled }
    {
        Records {
            settled: 0,
            finished: false,
            leaders: [0; MOST],
            numbers: [None; MOST],
        }
    }

    // Writes the record of one more leader, which has that check number.
    pub(crate) fn write(&mut self, leader: u64, check: usize)
        requires { (self.old.settled < 256) × (check < 256) }
        ensures { self.new ≡ recorded self.old leader check }
    {
        let settled = self.settled;
        self.leaders[settled] = leader;
        self.numbers[check] = Some(settled as u16 + 1);
        self.settled = settled + 1;
    }

    // The number of the leader with that check number, where it is settled.
    pub(crate) fn number(&self, check: usize) -> Option<u16>
        ensures { result ≡ slice_index_or self.now.numbers check None }
    {
        self.numbers.get(check).copied().flatten()
    }
}
