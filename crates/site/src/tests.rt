// The rule alone, and under both layers.
use crate::SymbolSum;
use queue::ranking::Ranking;
use rules::layers::{Erased, Mirror};
use rules::rule::Rule;
use std::test::Fail;

#[test]
fn the_smaller_sum_ranks_first_then_the_smaller_number(rt: HostRuntime) -> Result<(), Fail> {
    let rule = SymbolSum::new(3)?;
    // 1 1 0 sums to 2 and so does 0 2 0; 3 0 0 sums to 3.
    assert!(rt; rule.before(5, 8) && rule.before(8, 3) && rule.before(5, 3));
    assert!(rt; !rule.before(8, 5) && !rule.before(5, 5));
    // What lies past the third place does not count.
    assert!(rt; rule.before(64 + 1, 5) && !rule.before(64, 0));
    assert!(rt; rule.places() == 3 && !rule.is_by_weight());
    assert!(rt; SymbolSum::new(0).is_err() && SymbolSum::new(25).is_err());
    Ok(())
}

#[test]
fn layers_stand_on_it(rt: HostRuntime) -> Result<(), Fail> {
    let rule = SymbolSum::new(3)?;
    // 1 1 0 turned is 0 1 1, 20; 0 2 0 turned is itself, 8.
    assert!(rt; Mirror { below: rule }.before(8, 5));
    // Without the first place 1 1 0 sums to 1 and 0 2 0 to 2.
    let erased = Erased::new(rule, &[1, 0, 0]);
    assert!(rt; erased.rule.before(7, 8) && !erased.rule.is_by_weight());
    Ok(())
}
