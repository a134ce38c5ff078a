ghost use Rattle.std.specs.Prelude.{◌≡◌, IsTrue};
ghost use Rattle.call_log.specs.Body.{fits, call_of};

use crate::call::Call;
use crate::decode::call_from;

/// A record of the log. `at` is its place in the input, in bytes. Its body fits its kind.
#[derive(Clone, Copy, Debug, PartialEq, Eq)]
pub struct Item<'a> {
    pub kind: u16,
    pub context: u16,
    pub at: u64,
    pub body: &'a [u8],
    ghost whole: { IsTrue (fits kind body.now) },
}

impl<'a> Item<'a> {
    ghost use Rattle.call_log.specs.View.{call_view};

    /// The call that the record spells.
    pub fn call(&self) -> Call<'a>
        ensures { call_view result ≡ call_of self.now.kind self.now.body.now }
    {
        call_from(self.kind, self.body)
    }
}
