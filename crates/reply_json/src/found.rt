//! The body of a search's response.
ghost use Rattle.std.specs.Prelude.{◌≡◌, ◌∷◌, ◌++◌, [], IfOk, OnOk, codes, decimal, false, string_bytes};
ghost use Rattle.reply_json.specs.Hits.{before_hits, counts_text, found_text, hit_text, hits_text, lead_of, lead_text, phases_text, sort_text, value_text, values_text};
ghost use Rattle.reply_json.specs.Pieces.{comma_if, joined};

use crate::ids::id_text;
use crate::pieces::{comma_if, quoted};
use ctx_ids::Kind;
use es_types::{NoMemory, Value};
use list_machine::{Answer, Counts, Hit};
use std::alloc::Global;

/// What leads the body of an answer: nothing, or the point in time of that number.
#[derive(Clone, Copy)]
pub enum Lead {
    Nothing,
    Pit(u64),
}

/// What leads the body of an answer to a search, by the point in time that was searched, if one was.
pub fn lead_of(pit: Option<u64>) -> Lead
    ensures { result ≡ lead_of pit }
{
    match pit {
        None => Lead::Nothing,
        Some(number) => Lead::Pit(number),
    }
}

fn value_text(alloc: Global, value: &Value) -> Result<String, NoMemory>
    ensures { IfOk result (λ s. string_bytes s ≡ value_text value.now) }
{
    match value {
        Value::Key(text) => quoted(alloc, text.as_str()),
        Value::Long(number) => number.to_string(alloc),
        Value::Missing => String::from_str(alloc, "null"),
    }
}

fn push_value(out: &mut String, alloc: Global, later: bool, value: &Value) -> Result<(), NoMemory>
    ensures { OnOk result (string_bytes out.new ≡ string_bytes out.old ++ (comma_if later ++ value_text value.now)) }
{
    let text = value_text(alloc, value)?;
    out.push_str(comma_if(later))?;
    out.push_str(text.as_str())
}

fn push_values(out: &mut String, alloc: Global, values: &[Value]) -> Result<(), NoMemory>
    ensures { OnOk result (string_bytes out.new ≡ string_bytes out.old ++ values_text false values.now) }
{
    for (i, value) in values.iter().enumerate() {
        push_value(out, alloc, i > 0, value)?;
    }
    Ok(())
}

fn sort_text(alloc: Global, values: &[Value]) -> Result<String, NoMemory>
    ensures { IfOk result (λ s. string_bytes s ≡ sort_text values.now) }
{
    let mut out = String::new(alloc);
    if let [_, ..] = values {
        out.push_str(",\"sort\":[")?;
        push_values(&mut out, alloc, values)?;
        out.push_str("]")?;
    }
    Ok(out)
}

fn hit_head(alloc: Global, index: &str, id: &str) -> Result<String, NoMemory>
    ensures { IfOk result (λ s. string_bytes s ≡
        joined (codes "{\"_index\":" ∷ index.now ∷ codes ",\"_id\":" ∷ id.now
        ∷ codes ",\"_score\":null,\"_source\":" ∷ [])) }
{
    format!(in alloc; "{{\"_index\":{index},\"_id\":{id},\"_score\":null,\"_source\":")
}

#[tactic(auto, using(crate::proofs::Printed::hit_put))]
fn push_hit(out: &mut Vec<u8>, alloc: Global, later: bool, hit: &Hit) -> Result<(), NoMemory>
    ensures { OnOk result (out.new.items ≡ out.old.items ++ (comma_if later ++ hit_text hit.now)) }
{
    let index = quoted(alloc, hit.index.text().as_str())?;
    let id = quoted(alloc, hit.id.text().as_str())?;
    let head = hit_head(alloc, index.as_str(), id.as_str())?;
    let sort = sort_text(alloc, hit.shown.as_slice())?;
    out.extend_from_slice(comma_if(later).as_bytes())?;
    out.extend_from_slice(head.as_bytes())?;
    out.extend_from_slice(hit.source.as_slice())?;
    out.extend_from_slice(sort.as_bytes())?;
    out.extend_from_slice(b"}")?;
    Ok(())
}

fn push_hits(out: &mut Vec<u8>, alloc: Global, hits: &[Hit]) -> Result<(), NoMemory>
    ensures { OnOk result (out.new.items ≡ out.old.items ++ hits_text false hits.now) }
{
    for (i, hit) in hits.iter().enumerate() {
        push_hit(out, alloc, i > 0, hit)?;
    }
    Ok(())
}

fn phases_text(alloc: Global, phases: u32) -> Result<String, NoMemory>
    ensures { IfOk result (λ s. string_bytes s ≡ phases_text phases) }
{
    if phases == 1 {
        Ok(String::new(alloc))
    } else {
        format!(in alloc; "\"num_reduce_phases\":{phases},")
    }
}

fn shards_text(
    alloc: Global,
    total: u32,
    successful: u32,
    skipped: u32,
    failed: u32,
) -> Result<String, NoMemory>
    ensures { IfOk result (λ s. string_bytes s ≡
        joined (codes "\"_shards\":{\"total\":" ∷ decimal total ∷ codes ",\"successful\":" ∷ decimal successful
        ∷ codes ",\"skipped\":" ∷ decimal skipped ∷ codes ",\"failed\":" ∷ decimal failed ∷ codes "}" ∷ [])) }
{
    format!(in alloc;
        "\"_shards\":{{\"total\":{total},\"successful\":{successful},\"skipped\":{skipped},\"failed\":{failed}}}"
    )
}

#[tactic(auto, unfolding(crate::specs::Hits::counts_text))]
fn counts_text(alloc: Global, counts: &Counts) -> Result<String, NoMemory>
    ensures { IfOk result (λ s. string_bytes s ≡ counts_text counts.now) }
{
    shards_text(
        alloc,
        counts.total,
        counts.successful,
        counts.skipped,
        counts.failed,
    )
}

fn opening_text(alloc: Global, phases: &str, counts: &str, total: u64) -> Result<String, NoMemory>
    ensures { IfOk result (λ s. string_bytes s ≡
        joined (codes "\"took\":0,\"timed_out\":false," ∷ phases.now ∷ counts.now
        ∷ codes ",\"hits\":{\"total\":{\"value\":" ∷ decimal total
        ∷ codes ",\"relation\":\"eq\"},\"max_score\":null,\"hits\":[" ∷ [])) }
{
    format!(in alloc;
        "\"took\":0,\"timed_out\":false,{phases}{counts},\"hits\":{{\"total\":{{\"value\":{total},\"relation\":\"eq\"}},\"max_score\":null,\"hits\":["
    )
}

#[tactic(auto, unfolding(crate::specs::Hits::before_hits))]
fn before_hits(alloc: Global, answer: &Answer) -> Result<String, NoMemory>
    ensures { IfOk result (λ s. string_bytes s ≡ before_hits answer.now) }
{
    let phases = phases_text(alloc, answer.phases)?;
    let counts = counts_text(alloc, &answer.counts)?;
    opening_text(alloc, phases.as_str(), counts.as_str(), answer.total)
}

fn pit_named(alloc: Global, id: &str) -> Result<String, NoMemory>
    ensures { IfOk result (λ s. string_bytes s ≡ joined (codes "\"pit_id\":\"" ∷ id.now ∷ codes "\"," ∷ [])) }
{
    format!(in alloc; "\"pit_id\":\"{id}\",")
}

fn lead_text(alloc: Global, lead: Lead) -> Result<String, NoMemory>
    ensures { IfOk result (λ s. string_bytes s ≡ lead_text lead) }
{
    match lead {
        Lead::Nothing => Ok(String::new(alloc)),
        Lead::Pit(number) => {
            let id = id_text(alloc, Kind::Pit, number)?;
            pit_named(alloc, id.as_str())
        }
    }
}

fn found_head(alloc: Global, lead: &str, before: &str) -> Result<String, NoMemory>
    ensures { IfOk result (λ s. string_bytes s ≡ joined (codes "{" ∷ lead.now ∷ before.now ∷ [])) }
{
    format!(in alloc; "{{{lead}{before}")
}

/// The body of an answer to a search.
#[tactic(auto, unfolding(crate::specs::Hits::found_text))]
pub fn found_text(alloc: Global, lead: Lead, answer: &Answer) -> Result<Vec<u8>, NoMemory>
    ensures { IfOk result (λ body. body.items ≡ found_text lead answer.now) }
{
    let lead = lead_text(alloc, lead)?;
    let before = before_hits(alloc, answer)?;
    let mut body = found_head(alloc, lead.as_str(), before.as_str())?.into_bytes();
    push_hits(&mut body, alloc, answer.hits.as_slice())?;
    body.extend_from_slice(b"]}}")?;
    Ok(body)
}
