// Ties under each rule and layer. Marks are written by their numbers; 68 is 010100 and 257 is 100010.
use crate::basic::{Plain, Weight};
use crate::cost::Cost;
use crate::layers::{Erased, Mirror};
use crate::rule::Rule;
use queue::queue::Queue;
use queue::ranking::Ranking;
use refusals::Refusal;
use std::test::Fail;

#[test]
fn plain_and_weight_break_ties_by_number(rt: HostRuntime) -> Result<(), Fail> {
    let plain = Plain::new(6)?;
    assert!(rt; plain.before(21, 64) && !plain.before(64, 64) && !plain.is_by_weight());
    // What lies past the sixth place is not read.
    assert!(rt; plain.before(4096 + 3, 4));
    let weight = Weight::new(6)?;
    assert!(rt; weight.before(64, 21) && !weight.before(21, 64));
    assert!(rt; weight.before(68, 257) && !weight.before(257, 68) && weight.is_by_weight());
    Ok(())
}

#[test]
fn costs_are_summed_over_nonzero_places(rt: HostRuntime) {
    let made = Cost::new(3, &[5, 0, 5]);
    assert_eq!(rt; made.refused, None);
    assert!(rt; made.rule.before(4, 1) && made.rule.before(12, 1));
    assert!(rt; made.rule.before(1, 16) && !made.rule.before(16, 1));
    assert_eq!(rt; Cost::new(3, &[5, 0]).refused, Some(Refusal::RuleShape));
    assert_eq!(rt; Cost::new(25, &[0; 25]).refused, Some(Refusal::RuleShape));
    assert_eq!(rt;
        Cost::new(2, &[1000, 1001]).refused,
        Some(Refusal::CostInList(2))
    );
}

#[test]
fn a_mirror_turns_ties_round(rt: HostRuntime) -> Result<(), Fail> {
    let rule = Mirror {
        below: Weight::new(6)?,
    };
    // 65 is 100100, which turned is 001001, 1040; 260 is 010010, which turned is itself.
    assert!(rt; rule.before(260, 65) && !rule.before(65, 260));
    assert!(rt; rule.is_by_weight() && rule.places() == 6);
    let twice = Mirror { below: rule };
    assert!(rt; twice.before(65, 260));
    Ok(())
}

#[test]
fn erased_places_do_not_count(rt: HostRuntime) -> Result<(), Fail> {
    let made = Erased::new(Weight::new(6)?, &[1, 0, 0, 1, 0, 0]);
    assert_eq!(rt; made.refused, None);
    // 100100 has no symbol left, so it ranks before 010000, and after 000100 by its number.
    assert!(rt; made.rule.before(65, 4) && made.rule.before(64, 65) && !made.rule.is_by_weight());
    assert_eq!(rt;
        Erased::new(Weight::new(2)?, &[0, 2]).refused,
        Some(Refusal::RuleShape)
    );
    assert_eq!(rt;
        Erased::new(Weight::new(2)?, &[0, 1, 0]).refused,
        Some(Refusal::RuleShape)
    );
    assert!(rt; Erased::new(Weight::new(2)?, &[0, 0]).rule.is_by_weight());
    Ok(())
}

#[test]
fn lengths_are_from_1_to_24(rt: HostRuntime) {
    assert!(rt; Plain::new(0).is_err() && Plain::new(25).is_err() && Plain::new(24).is_ok());
    assert!(rt; Weight::new(0).is_err() && Weight::new(25).is_err() && Weight::new(1).is_ok());
}

#[test]
fn a_queue_takes_marks_by_a_rule(rt: HostRuntime) -> Result<(), Fail> {
    let rule = Weight::new(6)?;
    let mut places = [0; 3];
    let mut queue = Queue::new(&mut places);
    queue.put(&rule, 257)?;
    queue.put(&rule, 68)?;
    queue.put(&rule, 1024)?;
    assert_eq!(rt; queue.put(&rule, 0), Err(Refusal::QueueFull));
    assert_eq!(rt; queue.take(&rule), Some(1024));
    assert_eq!(rt; queue.take(&rule), Some(68));
    assert_eq!(rt; queue.take(&rule), Some(257));
    assert_eq!(rt; queue.take(&rule), None);
    Ok(())
}
