// Values that have to be equal.
use std::fmt::Debug;
use std::process::Abort;

/// Asserts that a value is the wanted one. A failure prints where in the test it is, and both values.
pub(crate) fn compare<T: PartialEq + Debug, W: Debug + Drop>(
    rt: &impl Abort,
    found: &T,
    wanted: &T,
    place: W,
) {
    assert!(rt;
        *found == *wanted,
        "{place:?}: it is {found:?}, and not {wanted:?}"
    );
}

/// Asserts that two values are equal, by one call: `assert_eq!` writes out many steps in the test, and the check of a test
/// takes as long as it has steps. The place is the text of the first value, or what is given behind the two.
macro_rules! assert_same {
    ($rt:expr; $found:expr, $wanted:expr $(,)?) => {
        $crate::same::compare(&$rt, &$found, &$wanted, stringify!($found))
    };
    ($rt:expr; $found:expr, $wanted:expr, $place:expr $(,)?) => {
        $crate::same::compare(&$rt, &$found, &$wanted, $place)
    };
}

pub(crate) use assert_same;
