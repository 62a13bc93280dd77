//! Sessions as texts: requests, each with the response that it has to have.
use crate::run::Status;
use crate::tests::endings::{NO_FAULTS, replayed};
use std::alloc::Global;
use std::process::Abort;
use std::test::Fail;

// The bytes of a session's requests, and those of their responses.
#[derive(Drop)]
pub(crate) struct Session {
    pub requests: Vec<u8>,
    pub responses: Vec<u8>,
}

fn phrase(status: &str) -> &'static str {
    match status {
        "200" => "OK",
        "201" => "Created",
        "400" => "Bad Request",
        "404" => "Not Found",
        "429" => "Too Many Requests",
        "501" => "Not Implemented",
        _ => "",
    }
}

// The header of a moment, where the line begins with one (`@5 GET /`), and the rest of the line.
fn moment_of<'a>(alloc: Global, line: &'a str) -> Result<(String, &'a str), Fail> {
    let Some(rest) = line.strip_prefix("@") else {
        return Ok((String::new(alloc), line));
    };
    let (moment, rest) = rest.split_once(' ').ok_or("a moment")?;
    Ok((format!(in alloc; "x-moment: {moment}\r\n")?, rest))
}

// A method, a target and perhaps a body, which goes on in `more`.
pub(crate) fn push_request(
    alloc: Global,
    out: &mut Vec<u8>,
    line: &str,
    more: &str,
) -> Result<(), Fail> {
    let (moment, line) = moment_of(alloc, line)?;
    let (method, rest) = line.split_once(' ').ok_or("a method")?;
    let (target, body) = rest.split_once(' ').unwrap_or((rest, ""));
    let length = body.len().saturating_add(more.len());
    let head = format!(in alloc;
        "{method} {target} HTTP/1.1\r\n{moment}content-length: {length}\r\n\r\n"
    )?;
    out.extend_from_slice(head.as_bytes())?;
    out.extend_from_slice(body.as_bytes())?;
    out.extend_from_slice(more.as_bytes())?;
    Ok(())
}

// The body of a response, or of the fault that `type: reason` stands for.
fn body_of(alloc: Global, status: &str, said: &str) -> Result<String, Fail> {
    match said.split_once(": ") {
        Some((kind, reason)) if !said.starts_with('{') => Ok(format!(in alloc;
            "{{\"error\":{{\"root_cause\":[{{\"type\":\"{kind}\",\"reason\":\"{reason}\"}}],\"type\":\"{kind}\",\"reason\":\"{reason}\"}},\"status\":{status}}}"
        )?),
        _ => Ok(String::from_str(alloc, said)?),
    }
}

// A status and a body.
pub(crate) fn push_response(alloc: Global, out: &mut Vec<u8>, line: &str) -> Result<(), Fail> {
    let (status, said) = line.split_once(' ').ok_or("a status")?;
    let body = body_of(alloc, status, said)?;
    let length = body.len();
    let phrase = phrase(status);
    let head = format!(in alloc;
        "HTTP/1.1 {status} {phrase}\r\ncontent-type: application/json\r\ncontent-length: {length}\r\n\r\n"
    )?;
    out.extend_from_slice(head.as_bytes())?;
    out.extend_from_slice(body.as_bytes())?;
    Ok(())
}

fn is_response(line: &str) -> bool {
    match line.as_bytes() {
        [first, ..] => first.is_ascii_digit(),
        [] => false,
    }
}

// A line that begins with two spaces is one of the request's body, with its line feed.
pub(crate) fn read_session(alloc: Global, text: &str) -> Result<Session, Fail> {
    let mut session = Session {
        requests: Vec::new(alloc),
        responses: Vec::new(alloc),
    };
    let mut request = String::new(alloc);
    let mut body = String::new(alloc);
    for line in text.lines() {
        if let Some(more) = line.strip_prefix("  ") {
            body.push_str(more)?;
            body.push_str("\n")?;
        } else if is_response(line) {
            push_request(
                alloc,
                &mut session.requests,
                request.as_str(),
                body.as_str(),
            )?;
            push_response(alloc, &mut session.responses, line)?;
            body.clear();
        } else {
            request.clear();
            request.push_str(line)?;
        }
    }
    Ok(session)
}

// Replays the requests in pieces of that many bytes.
pub(crate) fn replays(
    rt: &impl Abort,
    alloc: Global,
    session: &Session,
    piece: u32,
) -> Result<(), Fail> {
    let (status, written) = replayed(alloc, &session.requests, piece, &NO_FAULTS)?;
    assert!(rt; status == Status::Done);
    assert!(rt;
        written.as_slice() == session.responses.as_slice(),
        "in pieces of {piece}"
    );
    Ok(())
}

pub(crate) fn plays(rt: &impl Abort, alloc: Global, text: &str) -> Result<(), Fail> {
    let session = read_session(alloc, text)?;
    for piece in [1, 7, 4096] {
        replays(rt, alloc, &session, piece)?;
    }
    Ok(())
}

// Six equal documents in two shards, and a point in time of them.
pub(crate) const SIX_EQUAL: &str = r#"
PUT /t {"settings":{"number_of_shards":2},"mappings":{"properties":{"n":{"type":"long"},"k":{"type":"keyword"}}}}
200 {"acknowledged":true,"shards_acknowledged":true,"index":"t"}
PUT /t/_doc/a {"n":7}
201 {"_index":"t","_id":"a","result":"created","_seq_no":0}
PUT /t/_doc/b {"n":7}
201 {"_index":"t","_id":"b","result":"created","_seq_no":0}
PUT /t/_doc/c {"n":7}
201 {"_index":"t","_id":"c","result":"created","_seq_no":1}
PUT /t/_doc/d {"n":7}
201 {"_index":"t","_id":"d","result":"created","_seq_no":1}
PUT /t/_doc/e {"n":7}
201 {"_index":"t","_id":"e","result":"created","_seq_no":2}
PUT /t/_doc/f {"n":7}
201 {"_index":"t","_id":"f","result":"created","_seq_no":2}
POST /t/_refresh
200 {"_shards":{"total":2,"successful":2,"failed":0}}
POST /t/_pit?keep_alive=1m
200 {"id":"UAAAAAAAAAAB"}
"#;
