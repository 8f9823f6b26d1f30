// Marks over the three alphabets, and over a lawful one that is none of them.
ghost use Rattle.std.proofs.Common.{lit≤};

use crate::alphabet::{Bits, Modular, Quads, Thirds};
use crate::mark::Mark;
use refusals::Refusal;
use std::test::Fail;

#[test]
fn a_mark_is_read_and_written(rt: HostRuntime) -> Result<(), Fail> {
    assert_eq!(rt; Mark::read::<Bits>(6, &[0, 1, 0, 1, 0, 0])?.number, 68);
    assert_eq!(rt; Mark::read::<Bits>(6, &[1, 0, 0, 0, 1, 0])?.number, 257);
    let mut buffer = [7; 4];
    Mark { number: 57 }.write(&mut buffer);
    assert_eq!(rt; &buffer, &[1, 2, 3, 0]);
    Ok(())
}

#[test]
fn other_lengths_and_symbols_are_refused(rt: HostRuntime) -> Result<(), Fail> {
    assert_eq!(rt; Mark::read::<Bits>(3, &[0, 2]), Err(Refusal::MarkLength));
    assert_eq!(rt;
        Mark::read::<Bits>(3, &[0, 1, 2]),
        Err(Refusal::MarkSymbol(3))
    );
    assert_eq!(rt;
        Mark::read::<Thirds>(3, &[3, 1, 4]),
        Err(Refusal::MarkSymbol(1))
    );
    assert_eq!(rt; Mark::read::<Quads>(2, &[3, 3])?.number, 15);
    assert_eq!(rt; Mark::read::<Quads>(33, &[0; 33]), Err(Refusal::MarkLength));
    Ok(())
}

#[test]
fn places_are_set_and_counted(rt: HostRuntime) {
    let mark = Mark { number: 0 }.set(0, 3).set(23, 1).set(31, 2);
    assert_eq!(rt; mark.symbol(31), 2);
    assert_eq!(rt; mark.weight(), 3);
    assert_eq!(rt; mark.blank(31).blank(23).number, 3);
    assert_eq!(rt; mark.set(32, 1), mark);
}

#[test]
fn marks_add_place_by_place(rt: HostRuntime) {
    let threes = Mark { number: 15 };
    let ones = Mark { number: 5 };
    assert_eq!(rt; threes.plus(&Quads, 2, ones).number, 10);
    assert_eq!(rt; threes.plus(&Clock, 2, ones).number, 0);
    assert_eq!(rt; ones.minus(&Clock, 2, threes).number, 10);
    assert_eq!(rt; ones.plus(&Thirds, 1, ones).number, 2);
    assert_eq!(rt; ones.minus(&Bits, 2, ones).number, 0);
}

// Four symbols that add modulo 4: lawful, and none of the three alphabets.
#[derive(Clone, Copy)]
struct Clock;

impl Modular for Clock {
    const COUNT: u8 = 4;

    ghost COUNT = { 4 };

    ghost bounded = { (lit≤ tt, lit≤ tt) };
}
