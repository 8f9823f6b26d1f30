// Growing a table: leaders are settled one by one, in ranking order.
ghost use Rattle.std.specs.Prelude.{◌≡◌, ℕ, ◌+◌, ◌-◌, ◌*◌, ◌^◌, ◌<◌, ◌≤◌, min, length, ◌==◌};
ghost use Rattle.algebra.specs.Digits.{digit};
ghost use Rattle.leaders.specs.Growth.{Sprout};
ghost use Rattle.leaders.specs.Leaders.{leaders, coset_count};
ghost use Rattle.leaders.specs.Schemes.{MarkOf};
ghost use Rattle.queue.specs.Contents.{count_of, places_of};
ghost use Rattle.table.specs.Answers.{scratch_for, scratch_size};
ghost use Rattle.table.specs.Queues.{Joined, PutBelow, SproutBelow, sprout_count, Pending, Growing, Next, NextIs, Height};
ghost use Rattle.table.specs.Records.{Settled, Kept};
ghost use Rattle.table.specs.Subjects.{scheme_of};

use crate::records::Records;
use crate::subject::Subject;
use checkfile::code::Code;
use marks::alphabet::Alphabet;
use marks::mark::Mark;
use queue::queue::Queue;
use rules::rule::Rule;

// The place after a mark's last nonzero one, of n places. A loop: what is proved of `rev().find(..)` leaves out that the
// places past the one found hold 0.
fn height(mark: Mark, n: usize) -> usize
    requires { (j : ℕ) → n ≤ j → digit mark.number j ≡ 0 }
    ensures value { Height mark.number result }
    ensures bound { result ≤ n }
{
    for place in (0..n).rev() {
        if mark.symbol(place) != 0 {
            return place + 1;
        }
    }
    0
}

// How many numbers of 64 bits a grow's scratch has at least.
pub fn scratch_size(code: &Code) -> usize
    ensures { result ≡ scratch_for code.now.sizes.q code.now.sizes.places.n code.now.sizes.r }
{
    let q = usize::from(code.q());
    code.n() * (q - 1) * q.pow(code.r() as u32) + 1
}

// Subject, records and queue stay apart: a struct of all three would owe with each call that it keeps the subject and the
// memory that it was lent, and that a sprout waits or has its coset settled can hold in two ways, so it is no fact for a type.
// That a mark is one of the table is asked where it is needed, since a mark does not know its table.
impl<'a, A: Alphabet, R: Rule> Subject<'a, A, R> {
    // Queues the mark with each nonzero symbol put at the place. There is room for them.
    fn queue_symbols(&self, queue: &mut Queue<'_, u64>, mark: Mark, place: usize)
        requires mark { MarkOf (scheme_of self.now) mark.number }
        requires place { place < self.now.checks.code.now.sizes.places.n }
        requires room { count_of queue.old + (A.symbols.q - 1) ≤ length (places_of queue.old) }
        ensures { Joined (scheme_of self.now) (PutBelow (scheme_of self.now) mark.number place A.symbols.q) (A.symbols.q - 1) queue.old queue.new }
    {
        for symbol in 1..A::Q {
            queue
                .put(self.rule, mark.set(place, symbol).number)
                .unwrap();
        }
    }

    // Queues the mark's sprouts. There is room for them.
    fn queue_sprouts(&self, queue: &mut Queue<'_, u64>, mark: Mark)
        requires mark { MarkOf (scheme_of self.now) mark.number }
        requires room { count_of queue.old + sprout_count (scheme_of self.now) ≤ length (places_of queue.old) }
        ensures { Joined (scheme_of self.now) (Sprout (scheme_of self.now) mark.number) (sprout_count (scheme_of self.now)) queue.old queue.new }
    {
        for place in height(mark, self.checks.code.n())..self.checks.code.n() {
            self.queue_symbols(queue, mark, place);
        }
    }

    // Queues what waits: the sprouts of the settled leaders, or 0 where none is settled.
    fn queue_pending(&self, records: &Records, queue: &mut Queue<'_, u64>)
        requires settled { Settled (scheme_of self.now) records.now }
        requires empty { count_of queue.old ≡ 0 }
        requires room { scratch_size (scheme_of self.now) ≤ length (places_of queue.old) }
        ensures { Pending (scheme_of self.now) records.now.settled records.now.settled queue.new }
    {
        if records.settled == 0 {
            queue.put(self.rule, 0).unwrap();
        }
        for leader in &records.leaders[..records.settled] {
            self.queue_sprouts(queue, Mark { number: *leader });
        }
    }

    // Takes marks from the queue until one has a coset that is not settled: the next leader.
    fn next_leader(&self, records: &Records, queue: &mut Queue<'_, u64>) -> Option<u64>
        requires { Growing (scheme_of self.now) records.now queue.old }
        ensures { Next (scheme_of self.now) records.now.settled queue.new result }
    {
        while let Some(number) = queue.take(self.rule) {
            let check = self.checks.number(Mark { number });
            if records.number(check).is_none() {
                return Some(number);
            }
        }
        None
    }

    // Writes the record of the next leader, and queues its sprouts.
    fn settle(&self, records: &mut Records, queue: &mut Queue<'_, u64>, number: u64)
        requires settled { Settled (scheme_of self.now) records.old }
        requires next { NextIs (scheme_of self.now) records.old.settled queue.old number }
        ensures count { records.new.settled ≡ records.old.settled + 1 }
        ensures growing { Growing (scheme_of self.now) records.new queue.new }
    {
        let mark = Mark { number };
        let check = self.checks.number(mark);
        records.write(number, check);
        self.queue_sprouts(queue, mark);
    }

    // Settles further leaders, as many as wanted or all that remain.
    fn settle_next(&self, records: &mut Records, queue: &mut Queue<'_, u64>, amount: usize)
        requires { Growing (scheme_of self.now) records.old queue.old }
        ensures count { records.new.settled ≡ min (coset_count (scheme_of self.now)) (records.old.settled + amount) }
        ensures growing { Growing (scheme_of self.now) records.new queue.new }
    {
        for _ in 0..amount {
            let Some(number) = self.next_leader(records, queue) else {
                return;
            };
            self.settle(records, queue, number);
        }
    }

    // Settles further leaders, as many as wanted or all that remain. The queue lives in the scratch.
    pub(crate) fn grow(&self, records: &mut Records, amount: usize, scratch: &mut [u64])
        requires settled { Settled (scheme_of self.now) records.old }
        requires room { scratch_size (scheme_of self.now) ≤ length scratch.old }
        ensures count { records.new.settled ≡ min (coset_count (scheme_of self.now)) (records.old.settled + amount) }
        ensures kept { Kept (scheme_of self.now) records.new }
    {
        let mut queue = Queue::new(scratch);
        self.queue_pending(records, &mut queue);
        self.settle_next(records, &mut queue, amount);
        let all = self.next_leader(records, &mut queue).is_none();
        records.finished = all;
    }
}
