ghost use Rattle.std.specs.Prelude.{◌≡◌};
ghost use Rattle.call_log.specs.View.{call_view};
ghost use Rattle.d3d_checks.specs.Accepted.{is_draw};
ghost use Rattle.d3d_plan.specs.Ends.{FoundFirst, is_draw_record};

use call_log::{Call, Log};
use dx_types::CallNo;

/// The first draw of a log, if it has one, and its kind.
pub(crate) fn first_draw(log: &Log<'_>) -> Option<(CallNo, u16)>
    ensures { FoundFirst is_draw_record log.now.frames result }
{
    'calls: for i in 0..log.count() {
        let Some(item) = log.item(i + 1) else {
            return None;
        };
        if is_draw(&item.call()) {
            return Some((i + 1, item.kind));
        }
    }
    None
}

fn is_draw(call: &Call<'_>) -> bool
    ensures { result ≡ is_draw (call_view call.now) }
{
    matches!(call, Call::Draw { .. })
}
