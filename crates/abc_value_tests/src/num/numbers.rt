//! Numbers against values that were computed elsewhere, with unbounded fractions.

use abc_num::NumFault::{DivisionByZero, Overflow};
use abc_num::*;

/// The greatest whole number.
const MOST: i128 = i128::MAX;

/// A numerator and a denominator.
type Ratio = (i128, i128);

fn number(value: Ratio) -> Result<Num, NumFault> {
    Num::ratio(value.0, value.1)
}

fn ratio(x: &Num) -> Ratio {
    (
        x.numerator().to_whole().unwrap_or(0),
        x.denominator().to_whole().unwrap_or(0),
    )
}

#[test]
fn ratios(rt: HostRuntime) {
    let rows: &[(&str, Ratio, Result<Ratio, NumFault>)] = &[
        ("reduced", (6, -4), Ok((-3, 2))),
        ("both negative", (-6, -4), Ok((3, 2))),
        ("by zero", (0, 0), Err(DivisionByZero)),
        ("the least parts", (i128::MIN, i128::MIN), Ok((1, 1))),
        ("the least numerator", (i128::MIN, 1), Err(Overflow)),
        (
            "the least numerator, halved",
            (i128::MIN, -2),
            Ok((1 << 126, 1)),
        ),
        ("the least denominator", (1, i128::MIN), Err(Overflow)),
        (
            "parts past 63 bits that are reduced",
            (1 << 100, 3 << 98),
            Ok((4, 3)),
        ),
    ];
    for &(name, parts, value) in rows {
        assert_eq!(rt; number(parts).map(|z| ratio(&z)), value, "{name}");
    }
}

#[test]
fn whole_numbers(rt: HostRuntime) -> Result<(), NumFault> {
    for n in [0, 1, -1, MOST, -MOST] {
        assert_eq!(rt; Num::whole(n).map(|x| x.to_whole()), Ok(Some(n)), "{n}");
    }
    assert_eq!(rt; Num::whole(i128::MIN), Err(Overflow));
    assert_eq!(rt; number((1, 2))?.to_whole(), None);
    Ok(())
}
