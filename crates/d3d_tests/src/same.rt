// What each test ends in.
use std::fmt::Debug;
use std::process::Abort;

// An answer is as it must be; a failure prints the row's name.
pub(crate) fn same<T: PartialEq + Debug>(rt: &impl Abort, got: &T, want: &T, shows: &str) {
    assert_eq!(rt; got, want, "{shows}");
}
