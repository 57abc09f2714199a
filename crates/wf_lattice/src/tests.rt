//! Words of ints and of references, and what filters leave of them.

ghost use Rattle.std.specs.Prelude.{◌<◌};

use crate::filter::filtered;
use crate::int_word::{IntValue, IntWord};
use crate::view::{Nulls, RefView};
use std::test::Fail;
use wf_base::{Cmp, TypeId};

fn word(value: IntValue) -> IntWord {
    match value {
        IntValue::Empty => IntWord::empty(),
        IntValue::Is(c) => IntWord::of(c),
        IntValue::Any => IntWord::any(),
    }
}

/// A parameter after a call with 5, after one with 6, and after both.
#[test]
fn two_constants_are_any(rt: HostRuntime) -> Result<(), Fail> {
    let five = IntWord::of(5);
    let six = IntWord::of(6);
    assert_eq!(rt; five.0, 0xFFFF_FFFA_0000_0005);
    assert_eq!(rt; six.0, 0xFFFF_FFF9_0000_0006);
    assert_eq!(rt; five.join(six).0, 0xFFFF_FFFB_0000_0007);
    assert_eq!(rt; five.join(six).value(), IntValue::Any);
    assert_eq!(rt; five.join(five), five);
    assert_eq!(rt; IntWord::empty().join(six), six);
    Ok(())
}

/// Words and their values; a word with a position in no half is empty.
#[test]
fn words_have_values(rt: HostRuntime) -> Result<(), Fail> {
    let cases = [
        (0, IntValue::Empty),
        (0xFFFF_FFFF_0000_0000, IntValue::Is(0)),
        (0x0000_0000_FFFF_FFFF, IntValue::Is(-1)),
        (0x8000_0000_7FFF_FFFF, IntValue::Is(2147483647)),
        (0x7FFF_FFFF_8000_0000, IntValue::Is(-2147483648)),
        (0xFFFF_FFFB_0000_0007, IntValue::Any),
        (0xFFFF_FFFF_FFFF_FFFF, IntValue::Any),
        (0xFFFF_FFF0_0000_0005, IntValue::Empty),
        (0x0000_0001_0000_0001, IntValue::Any),
    ];
    for (i, (bits, value)) in cases.into_iter().enumerate() {
        assert_eq!(rt; IntWord(bits).value(), value, "at {i}");
    }
    Ok(())
}

/// What each comparison leaves: of two constants, of any and a constant, of a constant and any, of empty.
#[test]
fn comparisons_refine(rt: HostRuntime) -> Result<(), Fail> {
    let cases = [
        (Cmp::Eq, 3, 3, true),
        (Cmp::Eq, 3, 4, false),
        (Cmp::Ne, 3, 3, false),
        (Cmp::Ne, 3, -3, true),
        (Cmp::Lt, -4, 3, true),
        (Cmp::Lt, 3, 3, false),
        (Cmp::Ge, 3, 3, true),
        (Cmp::Ge, 2, 3, false),
        (Cmp::Gt, 4, 3, true),
        (Cmp::Gt, 3, 3, false),
        (Cmp::Le, 3, 3, true),
        (Cmp::Le, 4, 3, false),
    ];
    for (i, (cmp, a, b, holds)) in cases.into_iter().enumerate() {
        let left = if holds {
            IntValue::Is(a)
        } else {
            IntValue::Empty
        };
        assert_eq!(rt;
            IntWord::of(a).refine(cmp, IntWord::of(b)).value(),
            left,
            "at {i}"
        );
        assert_eq!(rt; cmp.negated().holds(a, b), !holds, "at {i}");
        assert_eq!(rt; cmp.exchanged().holds(b, a), holds, "at {i}");
    }
    Ok(())
}

/// The same where one of the two is any or empty.
#[test]
fn any_is_refined(rt: HostRuntime) -> Result<(), Fail> {
    let three = IntValue::Is(3);
    let cases = [
        (IntValue::Any, Cmp::Eq, three, three),
        (IntValue::Any, Cmp::Ne, three, IntValue::Any),
        (IntValue::Any, Cmp::Lt, three, IntValue::Any),
        (IntValue::Any, Cmp::Ge, three, IntValue::Any),
        (three, Cmp::Eq, IntValue::Any, three),
        (three, Cmp::Ne, IntValue::Any, three),
        (IntValue::Any, Cmp::Gt, IntValue::Any, IntValue::Any),
        (IntValue::Empty, Cmp::Le, three, IntValue::Empty),
        (IntValue::Any, Cmp::Eq, IntValue::Empty, IntValue::Empty),
        (three, Cmp::Ne, IntValue::Empty, IntValue::Empty),
    ];
    for (i, (a, cmp, b, left)) in cases.into_iter().enumerate() {
        assert_eq!(rt; word(a).refine(cmp, word(b)).value(), left, "at {i}");
    }
    Ok(())
}

/// The default of a switch.
#[test]
fn keys_are_taken_off(rt: HostRuntime) -> Result<(), Fail> {
    let cases = [
        (IntValue::Is(2), IntValue::Empty),
        (IntValue::Is(-2), IntValue::Is(-2)),
        (IntValue::Any, IntValue::Any),
        (IntValue::Empty, IntValue::Empty),
    ];
    for (i, (a, left)) in cases.into_iter().enumerate() {
        assert_eq!(rt; word(a).not_in(&[1, 2]).value(), left, "at {i}");
        assert_eq!(rt; word(a).not_in(&[]).value(), a, "at {i}");
    }
    Ok(())
}

/// A field that holds null and the types 1 and 2 isn't over 2 types, and is over 1.
#[test]
fn more_types_than_the_threshold_saturate(rt: HostRuntime) -> Result<(), Fail> {
    let field = [0b1110];
    let two = RefView::new(&field, 2);
    assert_eq!(rt; two.is_saturated(), false);
    assert_eq!(rt; two.is_empty(), false);
    assert_eq!(rt; RefView::new(&field, 1).is_saturated(), true);
    Ok(())
}

/// The types of a value that are made, under either threshold.
#[test]
fn values_mean_what_is_made(rt: HostRuntime) -> Result<(), Fail> {
    let cases = [
        (2, 0, true),
        (2, 1, false),
        (2, 2, true),
        (2, 3, false),
        (1, 3, true),
        (1, 1, false),
        (1, 70, false),
    ];
    for (i, (threshold, t, holds)) in cases.into_iter().enumerate() {
        let made = RefView::new(&[0b111000], threshold);
        assert_eq!(rt;
            RefView::new(&[0b1110], threshold).holds(TypeId(t), made),
            holds,
            "at {i}"
        );
    }
    Ok(())
}

/// Whether a bit of a word is set.
fn has(bits: u64, place: u32) -> bool
    requires { place < 64 }
{
    (bits >> place) & 1 == 1
}

/// What a filter leaves, worked out type by type, where there are three types and the threshold is 1.
fn left_by_types(v: u64, inst: u64, mask: u64, nulls: Nulls) -> u64 {
    let saturated = has(v, 0) || (v & 0b11100).count_ones() > 1;
    let mut left = 0;
    for place in 2..5 {
        let meant = (saturated || has(v, place)) && has(inst, place);
        if meant && has(mask, place) && nulls != Nulls::Only {
            left |= 1u64 << place;
        }
    }
    if left.count_ones() > 1 {
        left |= 1;
    }
    if (saturated || has(v, 1)) && nulls != Nulls::Drop {
        left |= 2;
    }
    left
}

/// Every value of one word with every set of types made, against that.
#[test]
fn filters_leave_what_is_meant(rt: HostRuntime) -> Result<(), Fail> {
    for v in 0..32u64 {
        for made in 0..8u64 {
            for nulls in [Nulls::Keep, Nulls::Drop, Nulls::Only] {
                let inst = [made * 4];
                let value = [v];
                for mask in [0, 0b00100, 0b11000, 0b11100] {
                    let mut into = [0];
                    filtered(
                        RefView::new(&value, 1),
                        RefView::new(&inst, 1),
                        &[mask],
                        nulls,
                        &mut into,
                    );
                    assert_eq!(rt;
                        into[0],
                        left_by_types(v, inst[0], mask, nulls),
                        "at {v} {made} {mask}"
                    );
                }
            }
        }
    }
    Ok(())
}

/// A filter joins into what is there, and counts over all words.
#[test]
fn filters_join(rt: HostRuntime) -> Result<(), Fail> {
    let value = [0b1000, 1 << 63];
    let all = [u64::MAX, u64::MAX];
    let mut into = [0b100000, 4];
    filtered(
        RefView::new(&value, 1),
        RefView::new(&all, 1),
        &all,
        Nulls::Drop,
        &mut into,
    );
    assert_eq!(rt; into[0], u64::MAX - 2);
    assert_eq!(rt; into[1], u64::MAX);
    Ok(())
}
