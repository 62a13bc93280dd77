//! The bodies of responses to single writes, openings and closings.
ghost use Rattle.std.specs.Prelude.{◌≡◌, ◌∷◌, [], IfOk, codes, decimal, length, string_bytes};
ghost use Rattle.reply_json.specs.Documents.{closed_status, closed_text, created_text, opened_text, refreshed_text, result_word, wrote_status, wrote_text};
ghost use Rattle.reply_json.specs.Pieces.{joined};

use crate::ids::id_text;
use crate::pieces::quoted;
use ctx_ids::Kind;
use es_types::{DocId, IndexName, NoMemory};
use list_machine::Wrote;
use std::alloc::Global;

fn acknowledged_text(alloc: Global, index: &str) -> Result<String, NoMemory>
    ensures { IfOk result (λ s. string_bytes s ≡
        joined (codes "{\"acknowledged\":true,\"shards_acknowledged\":true,\"index\":" ∷ index.now ∷ codes "}" ∷ [])) }
{
    format!(in alloc; "{{\"acknowledged\":true,\"shards_acknowledged\":true,\"index\":{index}}}")
}

/// The body for a new index.
#[tactic(auto, unfolding(crate::specs::Documents::created_text))]
pub fn created_text(alloc: Global, index: &IndexName) -> Result<String, NoMemory>
    ensures { IfOk result (λ s. string_bytes s ≡ created_text index.now) }
{
    let index = quoted(alloc, index.text().as_str())?;
    acknowledged_text(alloc, index.as_str())
}

/// What a write did, in a word.
pub fn result_word(wrote: Wrote) -> &'static str
    ensures { result.now ≡ result_word wrote }
{
    match wrote {
        Wrote::Created => "created",
        Wrote::Updated => "updated",
        Wrote::Deleted => "deleted",
        Wrote::NotFound => "not_found",
    }
}

/// The status code of what a write did (RFC 9110, 15): 201 for a new document, 404 where there was none to remove.
pub fn wrote_status(wrote: Wrote) -> u16
    ensures { result ≡ wrote_status wrote }
{
    match wrote {
        Wrote::Created => 201,
        Wrote::Updated => 200,
        Wrote::Deleted => 200,
        Wrote::NotFound => 404,
    }
}

fn object_text(
    alloc: Global,
    index: &str,
    id: &str,
    word: &str,
    number: u64,
) -> Result<String, NoMemory>
    ensures { IfOk result (λ s. string_bytes s ≡
        joined (codes "{\"_index\":" ∷ index.now ∷ codes ",\"_id\":" ∷ id.now ∷ codes ",\"result\":\"" ∷ word.now
        ∷ codes "\",\"_seq_no\":" ∷ decimal number ∷ codes "}" ∷ [])) }
{
    format!(in alloc;
        "{{\"_index\":{index},\"_id\":{id},\"result\":\"{word}\",\"_seq_no\":{number}}}"
    )
}

/// The body for a written document. `seq` is the operation's number in its shard, from 1.
#[tactic(auto, unfolding(crate::specs::Documents::wrote_text))]
pub fn wrote_text(
    alloc: Global,
    index: &IndexName,
    id: &DocId,
    wrote: Wrote,
    seq: u64,
) -> Result<String, NoMemory>
    ensures { IfOk result (λ s. string_bytes s ≡ wrote_text index.now id.now wrote seq) }
{
    let index = quoted(alloc, index.text().as_str())?;
    let id = quoted(alloc, id.text().as_str())?;
    object_text(
        alloc,
        index.as_str(),
        id.as_str(),
        result_word(wrote),
        seq.saturating_sub(1),
    )
}

fn shards_text(alloc: Global, shards: usize) -> Result<String, NoMemory>
    ensures { IfOk result (λ s. string_bytes s ≡
        joined (codes "{\"_shards\":{\"total\":" ∷ decimal shards ∷ codes ",\"successful\":" ∷ decimal shards
        ∷ codes ",\"failed\":0}}" ∷ [])) }
{
    format!(in alloc; "{{\"_shards\":{{\"total\":{shards},\"successful\":{shards},\"failed\":0}}}}")
}

/// The body for a refresh of as many shards as there are numbers.
#[tactic(auto, unfolding(crate::specs::Documents::refreshed_text))]
pub fn refreshed_text(alloc: Global, numbers: &[u64]) -> Result<String, NoMemory>
    ensures { IfOk result (λ s. string_bytes s ≡ refreshed_text (length numbers.now)) }
{
    shards_text(alloc, numbers.len())
}

fn pit_text(alloc: Global, id: &str) -> Result<String, NoMemory>
    ensures { IfOk result (λ s. string_bytes s ≡ joined (codes "{\"id\":\"" ∷ id.now ∷ codes "\"}" ∷ [])) }
{
    format!(in alloc; "{{\"id\":\"{id}\"}}")
}

/// The body for a new point in time.
#[tactic(auto, unfolding(crate::specs::Documents::opened_text))]
pub fn opened_text(alloc: Global, number: u64) -> Result<String, NoMemory>
    ensures { IfOk result (λ s. string_bytes s ≡ opened_text number) }
{
    let id = id_text(alloc, Kind::Pit, number)?;
    pit_text(alloc, id.as_str())
}

/// The status code of a closing that freed so many shards (RFC 9110, 15): 404 where there were none.
pub fn closed_status(freed: u64) -> u16
    ensures { result ≡ closed_status freed }
{
    if freed == 0 { 404 } else { 200 }
}

/// The body for a closing that freed so many shards.
#[tactic(auto, unfolding(crate::specs::Documents::closed_text))]
pub fn closed_text(alloc: Global, freed: u64) -> Result<String, NoMemory>
    ensures { IfOk result (λ s. string_bytes s ≡ closed_text freed) }
{
    format!(in alloc; "{{\"succeeded\":true,\"num_freed\":{freed}}}")
}
