// Files that are read and refused at their exact places, and files that are written.
use crate::kind::Kind;
use crate::reading::read;
use crate::writing::write;
use queue::ranking::Ranking;
use refusals::Refusal;
use rules::layers::Mirror;
use rules::rule::Rule;
use std::alloc::{AllocError, Global};
use std::test::Fail;

// Six places of five bits under the rule weight.
const S: [u8; 46] = [
    1, 0, 1, 2, 2, 0, 2, 6, 5, 3, 0, 30, 1, 1, 0, 0, 0, 1, 0, 0, 1, 0, 1, 0, 0, 0, 1, 0, 1, 1, 0,
    0, 0, 0, 1, 1, 0, 0, 0, 0, 1, 1, 4, 0, 1, 2,
];

// Two places of one bit under the rule cost, with the costs 1,000 and 7.
const PRICED: [u8; 25] = [
    1, 0, 1, 2, 2, 0, 2, 2, 1, 3, 0, 2, 1, 0, 4, 0, 1, 3, 5, 0, 4, 3, 232, 0, 7,
];

#[test]
fn a_file_is_read(rt: HostRuntime) {
    let reading = read(&S);
    assert_eq!(rt; reading.refused, None);
    assert_eq!(rt;
        (reading.code.q(), reading.code.n(), reading.code.r()),
        (2, 6, 5)
    );
    assert_eq!(rt;
        (
            reading.code.check(0, 1),
            reading.code.check(1, 1),
            reading.code.check(5, 4),
        ),
        (1, 0, 1)
    );
    assert_eq!(rt; (reading.rule.kind(), reading.rule.n()), (Kind::Weight, 6));
    let priced = read(&PRICED);
    assert_eq!(rt; priced.refused, None);
    assert_eq!(rt; (priced.rule.kind(), priced.rule.n()), (Kind::Cost, 2));
    assert_eq!(rt;
        (
            priced.rule.cost(0),
            priced.rule.cost(1),
            priced.rule.cost(2),
        ),
        (1000, 7, 0)
    );
}

#[test]
fn every_cut_is_refused_at_its_tag(rt: HostRuntime) {
    for size in 0..46 {
        let tag = if size < 4 {
            0
        } else if size < 9 {
            4
        } else if size < 42 {
            9
        } else {
            42
        };
        assert_eq!(rt; read(&S[0..size]).refused, Some(Refusal::CutOff(tag)));
    }
}

#[test]
fn one_wrong_byte_is_refused(rt: HostRuntime) {
    let wrong = [
        (0, 2, Refusal::OtherTag(0)),
        (1, 1, Refusal::OtherLength(0)),
        (2, 2, Refusal::OtherLength(0)),
        (3, 1, Refusal::SymbolCount(3)),
        (3, 5, Refusal::SymbolCount(3)),
        (4, 3, Refusal::OtherTag(4)),
        (6, 3, Refusal::OtherLength(4)),
        (7, 0, Refusal::Size(7)),
        (7, 25, Refusal::Size(7)),
        (8, 0, Refusal::Size(7)),
        (8, 9, Refusal::Size(7)),
        (9, 4, Refusal::OtherTag(9)),
        (11, 31, Refusal::OtherLength(9)),
        (12, 2, Refusal::CheckSymbol(12)),
        (41, 2, Refusal::CheckSymbol(41)),
        (42, 5, Refusal::OtherTag(42)),
        (44, 2, Refusal::OtherLength(42)),
        (45, 0, Refusal::RuleByte(45)),
        (45, 4, Refusal::RuleByte(45)),
        (45, 3, Refusal::CutOff(46)),
    ];
    for (at, byte, refusal) in wrong {
        let mut file = S;
        assert!(rt; at < 46);
        file[at] = byte;
        assert_eq!(rt; read(&file).refused, Some(refusal));
    }
}

#[test]
fn costs_are_refused_at_their_high_byte(rt: HostRuntime) {
    let mut file = PRICED;
    file[22] = 233;
    assert_eq!(rt; read(&file).refused, Some(Refusal::CostInFile(21)));
    file[22] = 232;
    file[23] = 4;
    assert_eq!(rt; read(&file).refused, Some(Refusal::CostInFile(23)));
    file[18] = 6;
    assert_eq!(rt; read(&file).refused, Some(Refusal::OtherTag(18)));
}

fn with_zeros(heap: Global, q: u8, n: u8, r: u8, more: &[u8]) -> Result<Vec<u8>, AllocError> {
    let size = u16::from(n) * u16::from(r);
    let mut file = Vec::new(heap);
    file.extend_from_slice(&[1, 0, 1, q, 2, 0, 2, n, r, 3])?;
    file.extend_from_slice(&size.to_be_bytes())?;
    for _ in 0..size {
        file.push(0)?;
    }
    file.extend_from_slice(&[4, 0, 1, 1])?;
    file.extend_from_slice(more)?;
    Ok(file)
}

#[test]
fn sizes_pass_up_to_the_limits(rt: HostRuntime) -> Result<(), Fail> {
    let heap = rt.alloc();
    let passing = [(2, 24, 8), (2, 1, 1), (3, 12, 5), (4, 8, 4)];
    for (q, n, r) in passing {
        assert_eq!(rt;
            read(with_zeros(heap, q, n, r, &[])?.as_slice()).refused,
            None
        );
    }
    let beyond = [
        (2, 25, 8),
        (2, 24, 9),
        (3, 13, 5),
        (3, 12, 6),
        (4, 9, 4),
        (4, 8, 5),
        (2, 255, 255),
    ];
    for (q, n, r) in beyond {
        assert_eq!(rt;
            read(with_zeros(heap, q, n, r, &[])?.as_slice()).refused,
            Some(Refusal::Size(7))
        );
    }
    Ok(())
}

// A table of zeros with the rule whose bytes are given from its tag on.
fn with_rule(heap: Global, q: u8, n: u8, r: u8, rule: &[u8]) -> Result<Vec<u8>, AllocError> {
    let mut file = with_zeros(heap, q, n, r, &[])?;
    file.truncate(file.len().saturating_sub(4));
    file.extend_from_slice(rule)?;
    Ok(file)
}

// Marks are written by their numbers; 68 is 010100 and 257 is 100010.
#[test]
fn the_rule_of_a_file_ranks_marks(rt: HostRuntime) -> Result<(), Fail> {
    let heap = rt.alloc();
    let plain = read(with_rule(heap, 2, 6, 1, &[4, 0, 1, 1])?.as_slice()).rule;
    assert!(rt; plain.before(21, 64) && !plain.before(64, 21) && !plain.before(64, 64));
    assert!(rt; plain.places() == 6 && !plain.is_by_weight());
    let weight = read(with_rule(heap, 2, 6, 1, &[4, 0, 1, 2])?.as_slice()).rule;
    assert!(rt; weight.before(64, 21) && weight.before(68, 257) && !weight.before(257, 68));
    assert!(rt; weight.places() == 6 && weight.is_by_weight());
    // The costs are 5, 0 and 5.
    let priced = with_rule(heap, 2, 3, 1, &[4, 0, 1, 3, 5, 0, 6, 0, 5, 0, 0, 0, 5])?;
    let cost = read(priced.as_slice()).rule;
    assert!(rt; cost.before(12, 1) && cost.before(1, 16) && !cost.before(16, 1));
    assert!(rt; cost.places() == 3 && !cost.is_by_weight());
    // Turned, 100100 is 001001, 1040, and 010010 is itself, 260.
    let turned = Mirror { below: weight };
    assert!(rt; turned.before(260, 65) && !turned.before(65, 260) && turned.is_by_weight());
    Ok(())
}

#[test]
fn nothing_may_follow(rt: HostRuntime) -> Result<(), Fail> {
    let mut file = S.to_vec(rt.alloc())?;
    file.push(0)?;
    assert_eq!(rt; read(file.as_slice()).refused, Some(Refusal::Surplus(46)));
    assert_eq!(rt;
        read(with_zeros(rt.alloc(), 2, 1, 1, &[5, 0, 2, 0, 0])?.as_slice()).refused,
        Some(Refusal::Surplus(17))
    );
    Ok(())
}

#[test]
fn what_was_read_is_written(rt: HostRuntime) {
    let reading = read(&S);
    let mut buffer = [9; 48];
    assert_eq!(rt; write(&reading.code, &reading.rule, &mut buffer), Ok(46));
    assert_eq!(rt; &buffer[0..46], &S[0..46]);
    assert_eq!(rt; &buffer[46..48], [9, 9].as_slice());
    let priced = read(&PRICED);
    let mut exact = [9; 25];
    assert_eq!(rt; write(&priced.code, &priced.rule, &mut exact), Ok(25));
    assert_eq!(rt; &exact, &PRICED);
}

#[test]
fn a_refused_write_leaves_the_buffer(rt: HostRuntime) {
    let reading = read(&S);
    let other = read(&PRICED);
    let mut buffer = [9; 45];
    assert_eq!(rt;
        write(&reading.code, &reading.rule, &mut buffer),
        Err(Refusal::FileTooShort)
    );
    assert_eq!(rt;
        write(&reading.code, &other.rule, &mut buffer),
        Err(Refusal::RuleOfOtherCode)
    );
    assert_eq!(rt;
        write(&other.code, &reading.rule, &mut buffer),
        Err(Refusal::RuleOfOtherCode)
    );
    assert_eq!(rt; &buffer, &[9; 45]);
}
