use call_log::Call;
use dx_types::CallNo;

/// A call of a command list, with its number in the log. Its bytes are lent from the log.
#[derive(Clone, Copy, Debug, PartialEq, Eq)]
pub struct Numbered<'a> {
    pub number: CallNo,
    pub call: Call<'a>,
}
