//! The moments that requests hand in.
ghost use Rattle.std.specs.Prelude.{◌≡◌};
ghost use Rattle.es_route.specs.Moments.{is_unreadable, moment_of, told_moment};

use es_types::{LAST_MOMENT, Moment};
use http_wire::{Request, number};

fn moment_of(text: &[u8]) -> Option<Moment>
    ensures { result ≡ moment_of text.now }
{
    match number(text, 16, LAST_MOMENT) {
        Some(millis) => Moment::make(millis),
        None => None,
    }
}

/// The moment that a request hands in, where it hands in one that is readable.
pub fn told_moment(request: &Request) -> Option<Moment>
    ensures { result ≡ told_moment request.now }
{
    match &request.moment {
        Some(text) => moment_of(text.as_slice()),
        None => None,
    }
}

/// Whether a request hands in what isn't readable.
pub fn is_unreadable(request: &Request) -> bool
    ensures { result ≡ is_unreadable request.now }
{
    request.moment.is_some() && told_moment(request).is_none()
}
