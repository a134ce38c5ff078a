//! The line of an order.

ghost use Rattle.std.specs.Prelude.{IfOk, IfErr};
ghost use Rattle.vk_trace.specs.OrderLine.{IsOrderOf, NoOrder};
ghost use Rattle.vk_trace.specs.Reading.{WhenBad};

use crate::trace_end::Stop;
use crate::words::Words;
use std::alloc::Global;

/// The places that an order names in its line, which stands without its line feed: `order` and one place or more, each
/// behind one blank.
pub fn read_order(alloc: Global, text: &[u8]) -> Result<Vec<u32>, Stop>
    ensures found { IfOk result (λ places. IsOrderOf text.now places.items) }
    ensures bad { IfErr result (λ e. WhenBad e (NoOrder text.now)) }
{
    let mut words = Words::new(text, b' ');
    let Some(()) = words.key(b"order") else {
        return Err(Stop::Bad);
    };
    let mut places = Vec::new(alloc);
    'places: while let None = words.end() {
        let Some(place) = words.small() else {
            return Err(Stop::Bad);
        };
        if places.push(place).is_err() {
            return Err(Stop::NoMemory);
        }
    }
    if places.is_empty() {
        return Err(Stop::Bad);
    }
    Ok(places)
}
