//! Replies, as lines of text say them.
use es_types::{DocCause, Value};
use list_machine::{Answer, Reply, Wrote};
use std::alloc::Global;
use std::fmt;
use std::test::Fail;

#[derive(Drop)]
struct ValueText<'a> {
    value: &'a Value,
}

impl fmt::Display for ValueText<'_> {
    fn fmt<W: fmt::Write>(&self, f: &mut fmt::Formatter<W>) -> fmt::Result {
        match self.value {
            Value::Key(key) => write!(f, " {}", key.as_str()),
            Value::Long(number) => write!(f, " {number}"),
            Value::Missing => write!(f, " missing"),
        }
    }
}

// How many documents match, then each hit with what it shows, in how many steps the shards were brought together where those
// are more than one, and how many shards were skipped.
#[derive(Drop)]
pub(crate) struct PageText<'a> {
    pub(crate) answer: &'a Answer,
}

impl fmt::Display for PageText<'_> {
    fn fmt<W: fmt::Write>(&self, f: &mut fmt::Formatter<W>) -> fmt::Result {
        let answer = self.answer;
        write!(f, "{} of {}", answer.hits.as_slice().len(), answer.total)?;
        for hit in answer.hits.as_slice() {
            write!(
                f,
                " {} {}",
                hit.index.text().as_str(),
                hit.id.text().as_str()
            )?;
            for value in hit.shown.as_slice() {
                write!(f, "{}", ValueText { value })?;
            }
        }
        if answer.phases > 1 {
            write!(f, " in {} steps", answer.phases)?;
        }
        let counts = &answer.counts;
        if counts.skipped > 0 {
            write!(f, " skipped {} of {}", counts.skipped, counts.total)?;
        }
        Ok(())
    }
}

fn wrote(done: Wrote) -> &'static str {
    match done {
        Wrote::Created => "created",
        Wrote::Updated => "updated",
        Wrote::Deleted => "deleted",
        Wrote::NotFound => "not found",
    }
}

fn cause(cause: DocCause) -> &'static str {
    match cause {
        DocCause::Kind => "kind",
        DocCause::TooLong => "long",
    }
}

#[derive(Drop)]
struct ReplyText<'a> {
    reply: &'a Reply,
}

impl fmt::Display for ReplyText<'_> {
    fn fmt<W: fmt::Write>(&self, f: &mut fmt::Formatter<W>) -> fmt::Result {
        match self.reply {
            Reply::Done => write!(f, "done"),
            Reply::Wrote { result: done, seq } => write!(f, "{} {seq}", wrote(*done)),
            Reply::Sealed(numbers) => write!(f, "sealed {:?}", numbers.as_slice()),
            Reply::Opened { number } => write!(f, "opened {number}"),
            Reply::Found(answer) => write!(f, "{}", PageText { answer }),
            Reply::Closed { freed } => write!(f, "closed {freed}"),
            Reply::Spent => write!(f, "spent"),
            Reply::NoIndex => write!(f, "no index"),
            Reply::Exists => write!(f, "exists"),
            Reply::Missing => write!(f, "missing"),
            Reply::BadDoc(fault) => write!(f, "{} {}", cause(fault.cause), fault.field),
            Reply::BadQuery => write!(f, "bad query"),
            Reply::BadSort => write!(f, "bad sort"),
            Reply::BadAfter => write!(f, "bad after"),
            Reply::TooMany { limit } => write!(f, "too many {limit}"),
            Reply::ShardFull => write!(f, "shard full"),
        }
    }
}

// The drop of a reply stands here alone, since a proof has it again at each return of a function that owns one.
pub(crate) fn said(alloc: Global, reply: Reply) -> Result<String, Fail> {
    Ok(format!(in alloc; "{}", ReplyText { reply: &reply })?)
}
