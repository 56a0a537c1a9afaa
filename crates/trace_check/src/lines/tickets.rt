//! The serve tickets of the replies that a call took.
ghost use Rattle.std.specs.Prelude.{◌≡◌, option_map, length};
ghost use Rattle.trace_check.specs.Lines.{alone, took_at, tickets_of};

use crate::lines::fields::tick_of;
use crate::lines::parts::{first_part, next_part};
use stale_model::{MOST_REPLICAS, Took};

// A reply at this ticket, of which no more is known.
fn alone(serve: u64) -> Took
    ensures { result ≡ alone serve }
{
    Took {
        replica: 0,
        serve,
        stamp: 0,
        value: 0,
    }
}

/// The replies at the tickets that a field is, with zeros in the places after them, and how many they are.
pub(crate) fn taken_of(field: &[u8]) -> Option<([Took; MOST_REPLICAS], u32)>
    ensures { result ≡ option_map (λ tickets. (took_at tickets, length tickets)) (tickets_of field.now) }
{
    let (first, mut rest) = first_part(field, b';');
    let mut took = [alone(0); MOST_REPLICAS];
    took[0] = alone(tick_of(first)?);
    let mut count = 1;
    while let Some((part, after)) = next_part(rest, b';') {
        if count == MOST_REPLICAS {
            return None;
        }
        took[count] = alone(tick_of(part)?);
        count += 1;
        rest = after;
    }
    Some((took, count as u32))
}
