// The token bytes of a call.

ghost use Rattle.std.specs.Prelude.{◌≡◌, [], unwrap_or};
ghost use Rattle.call_log.specs.Grammar.{calls_of};
ghost use Rattle.call_log.specs.View.{call_view};
ghost use Rattle.d3d_checks.specs.Created.{token_words};
ghost use Rattle.d3d_model.specs.InOrder.{call_at};
ghost use Rattle.pipe_cache.specs.Created.{tokens_by};

use call_log::{Call, Log};
use dx_types::CallNo;

fn tokens_of<'a>(call: Call<'a>) -> &'a [u8]
    ensures { result.now ≡ unwrap_or (token_words (call_view call.entry)) [] }
{
    match call {
        Call::CreateShader { words, .. } => words,
        _ => &[],
    }
}

/// The token bytes of call n of a log; none where it creates no shader.
pub(crate) fn tokens<'a>(log: &'a Log<'_>, n: CallNo) -> &'a [u8]
    ensures { result.now ≡ tokens_by (call_at (calls_of log.now.frames) n) }
{
    match log.item(n) {
        Some(item) => tokens_of(item.call()),
        None => &[],
    }
}
