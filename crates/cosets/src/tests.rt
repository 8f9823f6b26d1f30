// Check values over bits and quads.
use crate::checks::Checks;
use checkfile::reading::read;
use marks::alphabet::{Bits, Quads};
use marks::mark::Mark;
use std::test::Fail;

#[test]
fn six_places_of_bits(rt: HostRuntime) -> Result<(), Fail> {
    let file = [
        1, 0, 1, 2, 2, 0, 2, 6, 5, 3, 0, 30, 1, 1, 0, 0, 0, 1, 0, 0, 1, 0, 1, 0, 0, 0, 1, 0, 1, 1,
        0, 0, 0, 0, 1, 1, 0, 0, 0, 0, 1, 1, 4, 0, 1, 2,
    ];
    let reading = read(&file);
    assert_eq!(rt; reading.refused, None);
    let checks = Checks {
        alphabet: &Bits,
        code: &reading.code,
    };
    let mark = Mark::read::<Bits>(6, &[1, 0, 0, 0, 1, 0])?;
    assert_eq!(rt; checks.value(mark, 3), 1);
    assert_eq!(rt; checks.value(mark, 4), 0);
    assert_eq!(rt; checks.number(mark), 15);
    assert!(rt; !checks.is_code_word(mark));
    let word = Mark::read::<Bits>(6, &[1, 1, 0, 1, 1, 0])?;
    assert!(rt; checks.is_code_word(word));
    Ok(())
}

#[test]
fn two_places_of_quads(rt: HostRuntime) -> Result<(), Fail> {
    let reading = read(&[1, 0, 1, 4, 2, 0, 2, 2, 1, 3, 0, 2, 1, 2, 4, 0, 1, 2]);
    assert_eq!(rt; reading.refused, None);
    let checks = Checks {
        alphabet: &Quads,
        code: &reading.code,
    };
    let mark = Mark::read::<Quads>(2, &[3, 3])?;
    assert_eq!(rt; checks.number(mark), 2);
    let word = Mark::read::<Quads>(2, &[1, 3])?;
    assert!(rt; checks.is_code_word(word));
    Ok(())
}
