//! Why a reply refuses its event.
ghost use Rattle.std.specs.Prelude.{◌≡◌, is_some};
ghost use Rattle.es_rest.specs.Scripts.{missing, refusal, text_of};

use es_types::Text;
use list_machine::Reply;
use reply_json::RestFault;

/// What a request names, as its refusal prints it.
#[derive(Drop)]
pub enum Named {
    Index(Text),
    /// A context, by its id as it was sent.
    Context(Text),
}

// What is named isn't there.
fn missing(named: Named) -> RestFault
    ensures { result ≡ missing named }
{
    match named {
        Named::Index(name) => RestFault::NoIndex(name),
        Named::Context(id) => RestFault::NoContext(id),
    }
}

fn text_of(named: Named) -> Text
    ensures { result ≡ text_of named }
{
    match named {
        Named::Index(name) => name,
        Named::Context(id) => id,
    }
}

/// Why a reply refuses its event, where it does.
pub fn refusal(named: Named, reply: &Reply) -> Option<RestFault>
    ensures { result ≡ refusal named reply.now }
{
    match reply {
        Reply::Spent => Some(RestFault::Spent),
        Reply::NoIndex => Some(missing(named)),
        Reply::Exists => Some(RestFault::Exists(text_of(named))),
        Reply::BadDoc(fault) => Some(RestFault::BadDoc(*fault)),
        Reply::BadQuery => Some(RestFault::BadQuery),
        Reply::BadSort => Some(RestFault::BadSort),
        Reply::BadAfter => Some(RestFault::BadAfter),
        Reply::Missing => Some(missing(named)),
        Reply::TooMany { limit } => Some(RestFault::TooMany(*limit)),
        Reply::ShardFull => Some(RestFault::ShardFull),
        _ => None,
    }
}

/// Whether a reply refuses its event.
pub fn is_refused(reply: &Reply) -> bool
    ensures { (named : Named) → result ≡ is_some (refusal named reply.now) }
{
    match reply {
        Reply::Spent
        | Reply::NoIndex
        | Reply::Exists
        | Reply::Missing
        | Reply::BadDoc(_)
        | Reply::BadQuery
        | Reply::BadSort
        | Reply::BadAfter
        | Reply::TooMany { limit: _ }
        | Reply::ShardFull => true,
        _ => false,
    }
}
