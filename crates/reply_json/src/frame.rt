//! The head of a response, and its body after it.
ghost use Rattle.std.specs.Prelude.{◌≡◌, ◌∷◌, [], IfOk, codes, decimal, length, string_bytes, unwrap_or};
ghost use Rattle.http.specs.StatusCode.{reason_phrase};
ghost use Rattle.reply_json.specs.Frame.{close_line, crlf, frame};
ghost use Rattle.reply_json.specs.Pieces.{joined};

use es_types::{Bytes, NoMemory};
use http::StatusCode;
use std::alloc::Global;

const UNKNOWN: &str = "<unknown status code>";

#[tactic(auto, using(crate::proofs::Printed::no_phrase))]
fn phrase(status: u16) -> &'static str
    ensures { result.now ≡ unwrap_or (reason_phrase status) (codes "<unknown status code>") }
{
    match StatusCode::from_u16(status) {
        Ok(code) => code.canonical_reason().unwrap_or(UNKNOWN),
        Err(_) => UNKNOWN,
    }
}

fn close_line(last: bool) -> &'static str
    ensures { result.now ≡ close_line last }
{
    if last { "connection: close\r\n" } else { "" }
}

fn head(
    alloc: Global,
    status: u16,
    phrase: &str,
    len: usize,
    close: &str,
) -> Result<String, NoMemory>
    ensures { IfOk result (λ s. string_bytes s ≡
        joined (codes "HTTP/1.1 " ∷ decimal status ∷ codes " " ∷ phrase.now ∷ crlf
        ∷ codes "content-type: application/json" ∷ crlf ∷ codes "content-length: " ∷ decimal len ∷ crlf ∷ close.now
        ∷ crlf ∷ [])) }
{
    format!(in alloc;
        "HTTP/1.1 {status} {phrase}\r\ncontent-type: application/json\r\ncontent-length: {len}\r\n{close}\r\n"
    )
}

/// The response of this status with this body, which may be the last of its connection.
pub fn frame(alloc: Global, status: u16, body: &[u8], last: bool) -> Result<Bytes, NoMemory>
    ensures { IfOk result (λ bytes. bytes ≡ frame status body.now last) }
{
    let head = head(alloc, status, phrase(status), body.len(), close_line(last))?;
    let head = head.as_bytes();
    let mut bytes = Vec::with_capacity(alloc, head.len() + body.len())?;
    bytes.extend_from_slice(head)?;
    bytes.extend_from_slice(body)?;
    Ok(Bytes::of(bytes))
}
