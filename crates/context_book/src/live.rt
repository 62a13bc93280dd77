//! Points in time whose numbers rise: how many are live, and where a number stands among them.
ghost use Rattle.std.specs.Prelude.{◌≡◌, count_by};
ghost use Rattle.context_book.specs.Books.{Rises, lives};
ghost use Rattle.context_book.specs.Places.{IsBorder, IsPlace, IsPlaceOf};

use crate::Context;
use es_types::Moment;

/// How many are live.
pub fn count_live(contexts: &[Context], now: Moment) -> u64
    ensures { result ≡ count_by (lives now) contexts.now }
{
    contexts.iter().filter(|c| c.is_live(now)).count() as u64
}

/// The place of the live one of a number.
pub fn place_of_live(contexts: &[Context], number: u64, now: Moment) -> Option<usize>
    requires { Rises contexts.now }
    ensures { IsPlace contexts.now number now result }
{
    let at = place_of(contexts, number)?;
    let context = &contexts[at];
    if context.is_live(now) { Some(at) } else { None }
}

/// The place of a number.
fn place_of(contexts: &[Context], number: u64) -> Option<usize>
    requires { Rises contexts.now }
    ensures { IsPlaceOf contexts.now number result }
{
    contexts
        .binary_search_by_key(&number, |context| context.number)
        .ok()
}

/// How many have lower numbers.
pub fn place_for(contexts: &[Context], number: u64) -> usize
    requires { Rises contexts.now }
    ensures { IsBorder contexts.now number result }
{
    contexts.partition_point(|context| context.number < number)
}
