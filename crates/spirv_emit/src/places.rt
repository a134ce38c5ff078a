// Where numbers and variables have their ids.

ghost use Rattle.std.specs.Prelude.{◌≡◌, ◌<◌, ◌^◌};
ghost use Rattle.spirv_emit.specs.Layout.{variable};
ghost use Rattle.spirv_emit.specs.Emits.{layout_of};

use crate::ids::FIRST_NUMBER;
use crate::plan::Plan;

impl Plan {
    /// The id of a number.
    pub fn number(&self, number: u32) -> u32
        ensures { result ≡ (layout_of self.now).number number }
    {
        FIRST_NUMBER + self.numbers.place(number) as u32
    }

    /// The id of the function's first variable.
    pub fn first_variable(&self) -> u32
        ensures value { result ≡ (layout_of self.now).first_variable }
        ensures small { result < 2 ^ 31 }
    {
        FIRST_NUMBER + self.numbers.len() as u32
    }

    /// The id of a variable of the function.
    pub fn variable(&self, number: u32) -> u32
        requires { number < 2 ^ 20 }
        ensures { result ≡ variable (layout_of self.now) number }
    {
        self.first_variable() + number
    }
}
