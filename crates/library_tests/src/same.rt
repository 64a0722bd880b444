ghost use Rattle.std.specs.Prelude.{◌≡◌, true};

use std::fmt::Debug;
use std::process::Abort;

/// Both values have to be the same. A failure tells them, and at which row of a table they were found.
pub(crate) fn same<R: Abort, T: PartialEq + Debug, A: Debug>(
    rt: &R,
    found: &T,
    expected: &T,
    at: &A,
) {
    assert!(rt;
        found == expected,
        "{found:?} and not {expected:?} at {at:?}"
    );
}

/// It has to be so. A failure tells what was not.
pub(crate) fn holds<R: Abort>(rt: &R, is_so: bool, what: &str)
    ensures { is_so ≡ true }
{
    assert!(rt; is_so, "{what}");
}
