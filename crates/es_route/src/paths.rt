//! What the parts of a path say.
ghost use Rattle.std.specs.Prelude.{◌≡◌, ◌==◌, ◌<◌, IfSome, length, position};
ghost use Rattle.es_route.specs.Answers.{Answers};
ghost use Rattle.es_route.specs.Paths.{decoded, id_in, index_in, is_own_word, part, slash};

use es_types::Text;
use http_wire::Request;
use percent_encoding::{DecodeError, percent_decode};
use reply_json::RestFault;
use std::alloc::Global;

fn slash_in(path: &[u8]) -> Option<usize>
    ensures at { result ≡ position (λ b. b == slash) path.now }
    ensures within { IfSome result (λ at. at < length path.now) }
{
    path.iter().position(|b| *b == b'/')
}

// The bytes of a path after so many slashes, up to the next one.
fn part(path: &[u8], count: usize) -> &[u8]
    ensures { result.now ≡ part count path.now }
{
    let slash = slash_in(path);
    if count == 0 {
        return match slash {
            Some(at) => &path[..at],
            None => path,
        };
    }
    match slash {
        Some(at) => part(&path[at + 1..], count - 1),
        None => part(&[], count - 1),
    }
}

// A part of a path without its escapes. One that is no text then is a fault of the parameter `name`.
fn decoded(alloc: Global, name: &str, part: &[u8]) -> Result<Text, RestFault>
    ensures { Answers result (decoded name.now part.now) }
{
    match percent_decode(part).decode_utf8(alloc) {
        Ok(text) => Ok(Text::of(text.into_owned(alloc)?)),
        Err(DecodeError::OutOfMemory) => Err(RestFault::NoMemory),
        Err(DecodeError::Utf8(_)) => {
            let name = String::from_str(alloc, name)?;
            Err(RestFault::BadParam(Text::of(name)))
        }
    }
}

fn path_part(request: &Request, count: usize) -> &[u8]
    ensures { result.now ≡ part count request.now.path }
{
    part(request.path.as_str().as_bytes(), count)
}

/// Whether the index's part of the path is one of the service's own words.
pub fn is_own_word(request: &Request) -> bool
    ensures { result ≡ is_own_word (part 1 request.now.path) }
{
    match path_part(request, 1) {
        [first, ..] => *first == b'_',
        [] => false,
    }
}

/// The name of the index that a path has, without its escapes. One that is no text is a fault of the parameter `index`.
pub fn index_in(alloc: Global, request: &Request) -> Result<Text, RestFault>
    ensures { Answers result (index_in request.now) }
{
    decoded(alloc, "index", path_part(request, 1))
}

/// The id of the document that a path has, without its escapes. One that is no text is a fault of the parameter `id`.
pub fn id_in(alloc: Global, request: &Request) -> Result<Text, RestFault>
    ensures { Answers result (id_in request.now) }
{
    decoded(alloc, "id", path_part(request, 3))
}
