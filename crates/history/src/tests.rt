// Histories over the table S, of bits: six places and five check symbols, by weight.
use crate::calls::replay;
use crate::entry::{Answer, Call, Entry};
use checkfile::reading::read;
use marks::alphabet::{Bits, Thirds};
use refusals::Refusal;
use std::alloc::{AllocError, Global};
use std::test::Fail;
use table::table::{Opened, Table};

const S: [u8; 46] = [
    1, 0, 1, 2, 2, 0, 2, 6, 5, 3, 0, 30, 1, 1, 0, 0, 0, 1, 0, 0, 1, 0, 1, 0, 0, 0, 1, 0, 1, 1, 0,
    0, 0, 0, 1, 1, 0, 0, 0, 0, 1, 1, 4, 0, 1, 2,
];

// A call with a mark, and with buffers and scratch that hold something else already.
fn entry(
    heap: Global,
    call: Call,
    mark: &[u8],
    room: usize,
    scratch: usize,
) -> Result<Entry, AllocError> {
    Ok(Entry {
        call,
        mark: mark.to_vec(heap)?,
        first: vec![in heap; 9; room]?,
        second: vec![in heap; 8; room]?,
        scratch: vec![in heap; 7; scratch]?,
        answer: None,
    })
}

#[test]
fn find_waits_for_its_leader(rt: HostRuntime) -> Result<(), Fail> {
    let heap = rt.alloc();
    let seen = [1, 0, 0, 0, 1, 0];
    let mut entries = [
        entry(heap, Call::Grow(7), &[], 0, 193)?,
        entry(heap, Call::Tally, &[], 0, 0)?,
        entry(heap, Call::Find, &seen, 6, 0)?,
        entry(heap, Call::Grow(20), &[], 0, 193)?,
        entry(heap, Call::Tally, &[], 0, 0)?,
        entry(heap, Call::Find, &seen, 6, 0)?,
        entry(heap, Call::Leader(16), &[], 0, 0)?,
    ];
    let reading = read(&S);
    assert_eq!(rt;
        replay(reading.code, reading.rule, Bits, &mut entries),
        Ok(())
    );
    let [grown, early, unsettled, more, late, found, last] = entries;
    assert_eq!(rt; grown.answer, Some(Ok(Answer::Grown)));
    assert_eq!(rt; early.answer, Some(Ok(Answer::Tally(7, false))));
    assert_eq!(rt; unsettled.answer, Some(Err(Refusal::NotSettled)));
    assert_eq!(rt; unsettled.first.as_slice(), [9; 6].as_slice());
    assert_eq!(rt; more.answer, Some(Ok(Answer::Grown)));
    assert_eq!(rt; late.answer, Some(Ok(Answer::Tally(16, true))));
    assert_eq!(rt; found.answer, Some(Ok(Answer::Found(11))));
    assert_eq!(rt; found.first.as_slice(), [0, 1, 0, 1, 0, 0].as_slice());
    assert_eq!(rt; found.second.as_slice(), [1, 1, 0, 1, 1, 0].as_slice());
    assert_eq!(rt; last.answer, Some(Ok(Answer::Leader(1280))));
    Ok(())
}

#[test]
fn a_refused_call_leaves_its_memory(rt: HostRuntime) -> Result<(), Fail> {
    let heap = rt.alloc();
    let mut entries = [
        entry(heap, Call::Grow(257), &[], 0, 193)?,
        entry(heap, Call::Grow(7), &[], 0, 192)?,
        entry(heap, Call::Find, &[1, 1, 1, 1, 1], 6, 0)?,
        entry(heap, Call::Find, &[1, 1, 1, 1, 2, 2], 6, 0)?,
        entry(heap, Call::Find, &[1, 1, 1, 1, 1, 1], 5, 0)?,
        entry(heap, Call::Leader(1), &[], 0, 0)?,
    ];
    let reading = read(&S);
    assert_eq!(rt;
        replay(reading.code, reading.rule, Bits, &mut entries),
        Ok(())
    );
    let [amount, scratch, short, symbol, buffer, leader] = entries;
    assert_eq!(rt; amount.answer, Some(Err(Refusal::Amount)));
    assert_eq!(rt; scratch.answer, Some(Err(Refusal::Scratch)));
    assert_eq!(rt; scratch.scratch.as_slice(), [7; 192].as_slice());
    assert_eq!(rt; short.answer, Some(Err(Refusal::MarkLength)));
    assert_eq!(rt; symbol.answer, Some(Err(Refusal::MarkSymbol(5))));
    assert_eq!(rt; symbol.second.as_slice(), [8; 6].as_slice());
    assert_eq!(rt; buffer.answer, Some(Err(Refusal::Buffer)));
    assert_eq!(rt; leader.answer, Some(Err(Refusal::OutOfRange)));
    Ok(())
}

#[test]
fn an_alphabet_of_other_symbols_opens_nothing(rt: HostRuntime) -> Result<(), Fail> {
    let mut entries = [entry(rt.alloc(), Call::Tally, &[], 0, 0)?];
    let reading = read(&S);
    assert_eq!(rt;
        replay(reading.code, reading.rule, Thirds, &mut entries),
        Err(Refusal::OtherCode)
    );
    assert_eq!(rt; entries[0].answer, None);
    Ok(())
}

#[test]
fn a_table_over_another_alphabet_stays_empty(rt: HostRuntime) -> Result<(), Fail> {
    let reading = read(&S);
    let Opened { mut table, refused } = Table::open(reading.code, reading.rule, Thirds);
    let mut first = [9; 6];
    let mut second = [8; 6];
    assert_eq!(rt; refused, Some(Refusal::OtherCode));
    let mut scratch = [7; 512];
    assert_eq!(rt; table.grow(1, &mut scratch), Err(Refusal::OtherCode));
    assert_eq!(rt; table.grow(257, &mut scratch), Err(Refusal::OtherCode));
    assert_eq!(rt; table.grow(1, &mut []), Err(Refusal::OtherCode));
    assert_eq!(rt; scratch, [7; 512]);
    assert_eq!(rt; table.tally(), (0, false));
    assert_eq!(rt; table.leader(1), Err(Refusal::OutOfRange));
    assert_eq!(rt;
        table.find(&[1, 1, 1, 1, 2, 2], &mut first, &mut second),
        Err(Refusal::NotSettled)
    );
    assert_eq!(rt; first, [9; 6]);
    assert_eq!(rt; second, [8; 6]);
    Ok(())
}
