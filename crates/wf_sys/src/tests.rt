//! Values, compared and joined.

use crate::flow::Flow;
use std::test::Fail;

/// Two values, whether the first is below the second, and their join.
#[test]
fn values_are_compared_and_joined(rt: HostRuntime) -> Result<(), Fail> {
    let cases = [
        (Flow::Empty, Flow::Empty, true, Flow::Empty),
        (Flow::Empty, Flow::Set, true, Flow::Set),
        (Flow::Set, Flow::Empty, false, Flow::Set),
        (Flow::Set, Flow::Set, true, Flow::Set),
        (Flow::Empty, Flow::Is(-1), true, Flow::Is(-1)),
        (Flow::Is(3), Flow::Empty, false, Flow::Is(3)),
        (Flow::Is(3), Flow::Is(3), true, Flow::Is(3)),
        (Flow::Is(3), Flow::Is(-3), false, Flow::Any),
        (
            Flow::Is(-2147483648),
            Flow::Is(2147483647),
            false,
            Flow::Any,
        ),
        (Flow::Is(0), Flow::Any, true, Flow::Any),
        (Flow::Any, Flow::Is(0), false, Flow::Any),
        (Flow::Any, Flow::Any, true, Flow::Any),
        (Flow::Empty, Flow::Any, true, Flow::Any),
    ];
    for (i, (a, b, below, join)) in cases.into_iter().enumerate() {
        assert_eq!(rt; a.is_below(b), below, "at {i}");
        assert_eq!(rt; a.join(b), join, "at {i}");
        assert_eq!(rt; a.is_empty(), a == Flow::Empty, "at {i}");
    }
    Ok(())
}
