//! The body of a refusal.
ghost use Rattle.std.specs.Prelude.{◌≡◌, ◌∷◌, [], IfOk, codes, decimal, string_bytes};
ghost use Rattle.reply_json.specs.Faults.{cause_members, cause_text, fault_status, fault_text, fault_type, limit_word, reason};
ghost use Rattle.reply_json.specs.Pieces.{joined};

use crate::fault::RestFault;
use crate::pieces::quoted;
use es_types::{DocCause, DocFault, LimitName, NoMemory};
use std::alloc::Global;

/// The status code of a fault.
pub fn fault_status(fault: &RestFault) -> u16
    ensures { result ≡ fault_status fault.now }
{
    match fault {
        RestFault::NotBuilt => 501,
        RestFault::BadParam(_) => 400,
        RestFault::BadBody => 400,
        RestFault::Limit(_) => 400,
        RestFault::BadId => 400,
        RestFault::Spent => 429,
        RestFault::NoIndex(_) => 404,
        RestFault::Exists(_) => 400,
        RestFault::BadDoc(_) => 400,
        RestFault::BadQuery => 400,
        RestFault::BadSort => 400,
        RestFault::BadAfter => 400,
        RestFault::NoContext(_) => 404,
        RestFault::TooMany(_) => 429,
        RestFault::ShardFull => 429,
        RestFault::NoMemory => 503,
    }
}

fn fault_type(fault: &RestFault) -> &'static str
    ensures { result.now ≡ fault_type fault.now }
{
    match fault {
        RestFault::NotBuilt => "not_built_exception",
        RestFault::BadParam(_) => "illegal_argument_exception",
        RestFault::BadBody => "parsing_exception",
        RestFault::Limit(_) => "illegal_argument_exception",
        RestFault::BadId => "illegal_argument_exception",
        RestFault::Spent => "history_full_exception",
        RestFault::NoIndex(_) => "index_not_found_exception",
        RestFault::Exists(_) => "resource_already_exists_exception",
        RestFault::BadDoc(_) => "document_parsing_exception",
        RestFault::BadQuery => "query_shard_exception",
        RestFault::BadSort => "query_shard_exception",
        RestFault::BadAfter => "illegal_argument_exception",
        RestFault::NoContext(_) => "search_context_missing_exception",
        RestFault::TooMany(_) => "too_many_contexts_exception",
        RestFault::ShardFull => "shard_full_exception",
        RestFault::NoMemory => "no_memory_exception",
    }
}

// A name between two texts.
fn around(alloc: Global, before: &str, name: &str, after: &str) -> Result<String, NoMemory>
    ensures { IfOk result (λ s. string_bytes s ≡ joined (before.now ∷ name.now ∷ after.now ∷ [])) }
{
    format!(in alloc; "{before}{name}{after}")
}

fn bad_doc(alloc: Global, fault: DocFault) -> Result<String, NoMemory>
    ensures { IfOk result (λ s. string_bytes s ≡ joined (codes "field [" ∷ decimal fault.field ∷ codes "] has a value " ∷ cause_text fault.cause ∷ [])) }
{
    let field = fault.field;
    let cause = cause_text(fault.cause);
    format!(in alloc; "field [{field}] has a value {cause}")
}

fn cause_text(cause: DocCause) -> &'static str
    ensures { result.now ≡ cause_text cause }
{
    match cause {
        DocCause::Kind => "of another kind",
        DocCause::TooLong => "that is too long",
    }
}

fn limit_word(name: LimitName) -> &'static str
    ensures { result.now ≡ limit_word name }
{
    match name {
        LimitName::Moment => "moment",
        LimitName::Index => "index",
        LimitName::Id => "id",
        LimitName::Shards => "shards",
        LimitName::Fields => "fields",
        LimitName::KeepAlive => "keep_alive",
        LimitName::Batch => "batch",
        LimitName::Pit => "pit",
        LimitName::From => "from",
        LimitName::Window => "window",
        LimitName::Slice => "slice",
        LimitName::Sort => "sort",
    }
}

fn over_limit(alloc: Global, limit: u64) -> Result<String, NoMemory>
    ensures { IfOk result (λ s. string_bytes s ≡ joined (codes "limit [" ∷ decimal limit ∷ codes "]" ∷ [])) }
{
    format!(in alloc; "limit [{limit}]")
}

fn reason(alloc: Global, fault: &RestFault) -> Result<String, NoMemory>
    ensures { IfOk result (λ s. string_bytes s ≡ reason fault.now) }
{
    match fault {
        RestFault::NotBuilt => String::from_str(alloc, "not built"),
        RestFault::BadParam(name) => around(alloc, "bad parameter [", name.as_str(), "]"),
        RestFault::BadBody => String::from_str(alloc, "bad body"),
        RestFault::Limit(name) => around(alloc, "limit [", limit_word(*name), "]"),
        RestFault::BadId => String::from_str(alloc, "bad id"),
        RestFault::Spent => String::from_str(alloc, "history is full"),
        RestFault::NoIndex(name) => around(alloc, "no such index [", name.as_str(), "]"),
        RestFault::Exists(name) => around(alloc, "index [", name.as_str(), "] exists"),
        RestFault::BadDoc(doc) => bad_doc(alloc, *doc),
        RestFault::BadQuery => String::from_str(alloc, "a query value of another kind"),
        RestFault::BadSort => String::from_str(alloc, "no mapping for a sort field"),
        RestFault::BadAfter => String::from_str(alloc, "search_after does not fit the sort"),
        RestFault::NoContext(id) => around(alloc, "no context [", id.as_str(), "]"),
        RestFault::TooMany(limit) => over_limit(alloc, *limit),
        RestFault::ShardFull => String::from_str(alloc, "shard is full"),
        RestFault::NoMemory => String::from_str(alloc, "no memory"),
    }
}

fn members_text(alloc: Global, kind: &str, said: &str) -> Result<String, NoMemory>
    ensures { IfOk result (λ s. string_bytes s ≡ joined (codes "\"type\":\"" ∷ kind.now ∷ codes "\",\"reason\":" ∷ said.now ∷ [])) }
{
    format!(in alloc; "\"type\":\"{kind}\",\"reason\":{said}")
}

/// The members that say why a request or an item is refused.
#[tactic(auto, unfolding(crate::specs::Faults::cause_members))]
pub fn cause_members(alloc: Global, fault: &RestFault) -> Result<String, NoMemory>
    ensures { IfOk result (λ s. string_bytes s ≡ cause_members fault.now) }
{
    let reason = reason(alloc, fault)?;
    let said = quoted(alloc, reason.as_str())?;
    members_text(alloc, fault_type(fault), said.as_str())
}

fn error_text(alloc: Global, cause: &str, status: u16) -> Result<String, NoMemory>
    ensures { IfOk result (λ s. string_bytes s ≡
        joined (codes "{\"error\":{\"root_cause\":[{" ∷ cause.now ∷ codes "}]," ∷ cause.now
        ∷ codes "},\"status\":" ∷ decimal status ∷ codes "}" ∷ [])) }
{
    format!(in alloc; "{{\"error\":{{\"root_cause\":[{{{cause}}}],{cause}}},\"status\":{status}}}")
}

/// The body of a response to a fault.
#[tactic(auto, unfolding(crate::specs::Faults::fault_text))]
pub fn fault_text(alloc: Global, fault: &RestFault) -> Result<String, NoMemory>
    ensures { IfOk result (λ s. string_bytes s ≡ fault_text fault.now) }
{
    let cause = cause_members(alloc, fault)?;
    error_text(alloc, cause.as_str(), fault_status(fault))
}
