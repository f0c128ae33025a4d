// What a helper of several tests asks; the test that called it ends where that does not hold.
use std::fmt::Debug;
use std::test::Fail;

pub(crate) fn check(holds: bool) -> Result<(), Fail> {
    if holds {
        Ok(())
    } else {
        Err(Fail::new("not as expected"))
    }
}

pub(crate) fn check_eq<T: PartialEq + Debug + Drop>(found: T, expected: T) -> Result<(), Fail> {
    if found == expected {
        Ok(())
    } else {
        Err(Fail::new(format_args!("{found:?} in place of {expected:?}")))
    }
}
