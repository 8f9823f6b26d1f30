// Lines taken heaviest first, and numbers taken smallest first.
ghost use Rattle.std.specs.Ordering.{is_lt};
ghost use Rattle.std.proofs.lemmas.List.MinMax.{ranks_by};

use crate::queue::Queue;
use crate::ranking::Ranking;
use refusals::Refusal;
use std::cmp::Reverse;
use std::test::Fail;

// The heavier record is the lesser one, and of two that weigh the same the one of the lower line.
#[derive(Clone, Copy, PartialEq, Eq, PartialOrd, Ord, Debug)]
struct Record {
    weight: Reverse<u32>,
    line: usize,
}

impl Record {
    fn new(line: usize, weight: u32) -> Record {
        Record {
            weight: Reverse(weight),
            line,
        }
    }
}

// The least item comes first.
struct Least;

impl<T: Ord + Copy> Ranking<T> for Least {
    ghost before = { λ _ a b. is_lt (T.cmp a b) };

    ghost orders = { λ _. ranks_by T.Ord.total (λ item. item) };

    fn before(&self, a: T, b: T) -> bool {
        a.cmp(&b).is_lt()
    }
}

#[test]
fn records_come_heaviest_first(rt: HostRuntime) -> Result<(), Fail> {
    let mut places = [Record::new(9, 9); 3];
    let mut queue = Queue::new(&mut places);
    queue.put(&Least, Record::new(3, 5))?;
    queue.put(&Least, Record::new(1, 7))?;
    queue.put(&Least, Record::new(2, 5))?;
    assert_eq!(rt;
        queue.put(&Least, Record::new(4, 8)),
        Err(Refusal::QueueFull)
    );
    assert_eq!(rt; queue.len(), 3);
    assert_eq!(rt; queue.take(&Least), Some(Record::new(1, 7)));
    queue.put(&Least, Record::new(4, 1))?;
    assert_eq!(rt; queue.take(&Least), Some(Record::new(2, 5)));
    assert_eq!(rt; queue.take(&Least), Some(Record::new(3, 5)));
    assert_eq!(rt; queue.take(&Least), Some(Record::new(4, 1)));
    assert_eq!(rt; queue.take(&Least), None);
    Ok(())
}

#[test]
fn numbers_come_smallest_first(rt: HostRuntime) -> Result<(), Fail> {
    let mut places = [0; 7];
    let mut queue = Queue::new(&mut places);
    for number in [5, 3, 8, 1, 9, 2, 3] {
        queue.put(&Least, number)?;
    }
    for number in [1, 2, 3, 3, 5, 8, 9] {
        assert_eq!(rt; queue.take(&Least), Some(number));
    }
    assert_eq!(rt; queue.len(), 0);
    Ok(())
}
