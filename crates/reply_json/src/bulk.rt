//! The body of a bulk's response.
ghost use Rattle.std.specs.Prelude.{◌≡◌, ◌∷◌, ◌++◌, [], IfOk, OnOk, codes, decimal, false, string_bytes};
ghost use Rattle.reply_json.specs.Bulk.{accepted_members, action_word, bulk_text, has_errors, is_refused, line_text, lines_text, outcome_members, refused_members, truth_word};
ghost use Rattle.reply_json.specs.Pieces.{comma_if, joined};

use crate::document::{result_word, wrote_status};
use crate::fault::RestFault;
use crate::pieces::{comma_if, quoted};
use crate::refused::{cause_members, fault_status};
use crate::response::{BulkLine, BulkOutcome};
use es_types::NoMemory;
use list_machine::Wrote;
use std::alloc::Global;

fn action_word(remove: bool) -> &'static str
    ensures { result.now ≡ action_word remove }
{
    if remove { "delete" } else { "index" }
}

#[tactic(auto, unfolding(crate::specs::Bulk::accepted_members))]
fn accepted_members(alloc: Global, wrote: Wrote, seq: u64) -> Result<String, NoMemory>
    ensures { IfOk result (λ s. string_bytes s ≡ accepted_members wrote seq) }
{
    let word = result_word(wrote);
    let number = seq.saturating_sub(1);
    let status = wrote_status(wrote);
    format!(in alloc; "\"result\":\"{word}\",\"_seq_no\":{number},\"status\":{status}")
}

fn error_text(alloc: Global, status: u16, cause: &str) -> Result<String, NoMemory>
    ensures { IfOk result (λ s. string_bytes s ≡
        joined (codes "\"status\":" ∷ decimal status ∷ codes ",\"error\":{" ∷ cause.now ∷ codes "}" ∷ [])) }
{
    format!(in alloc; "\"status\":{status},\"error\":{{{cause}}}")
}

#[tactic(auto, unfolding(crate::specs::Bulk::refused_members))]
fn refused_members(alloc: Global, fault: &RestFault) -> Result<String, NoMemory>
    ensures { IfOk result (λ s. string_bytes s ≡ refused_members fault.now) }
{
    let cause = cause_members(alloc, fault)?;
    error_text(alloc, fault_status(fault), cause.as_str())
}

fn outcome_members(alloc: Global, outcome: &BulkOutcome) -> Result<String, NoMemory>
    ensures { IfOk result (λ s. string_bytes s ≡ outcome_members outcome.now) }
{
    match outcome {
        BulkOutcome::Wrote { result, seq } => accepted_members(alloc, *result, *seq),
        BulkOutcome::Fault(fault) => refused_members(alloc, fault),
    }
}

fn item_text(
    alloc: Global,
    action: &str,
    index: &str,
    id: &str,
    members: &str,
) -> Result<String, NoMemory>
    ensures { IfOk result (λ s. string_bytes s ≡
        joined (codes "{\"" ∷ action.now ∷ codes "\":{\"_index\":" ∷ index.now ∷ codes ",\"_id\":" ∷ id.now
        ∷ codes "," ∷ members.now ∷ codes "}}" ∷ [])) }
{
    format!(in alloc; "{{\"{action}\":{{\"_index\":{index},\"_id\":{id},{members}}}}}")
}

#[tactic(auto, unfolding(crate::specs::Bulk::line_text))]
fn line_text(alloc: Global, line: &BulkLine) -> Result<String, NoMemory>
    ensures { IfOk result (λ s. string_bytes s ≡ line_text line.now) }
{
    let index = quoted(alloc, line.index.as_str())?;
    let id = quoted(alloc, line.id.as_str())?;
    let members = outcome_members(alloc, &line.outcome)?;
    item_text(
        alloc,
        action_word(line.remove),
        index.as_str(),
        id.as_str(),
        members.as_str(),
    )
}

fn push_line(out: &mut Vec<u8>, alloc: Global, later: bool, line: &BulkLine) -> Result<(), NoMemory>
    ensures { OnOk result (out.new.items ≡ out.old.items ++ (comma_if later ++ line_text line.now)) }
{
    let text = line_text(alloc, line)?;
    out.extend_from_slice(comma_if(later).as_bytes())?;
    out.extend_from_slice(text.as_bytes())?;
    Ok(())
}

fn push_lines(out: &mut Vec<u8>, alloc: Global, lines: &[BulkLine]) -> Result<(), NoMemory>
    ensures { OnOk result (out.new.items ≡ out.old.items ++ lines_text false lines.now) }
{
    for (i, line) in lines.iter().enumerate() {
        push_line(out, alloc, i > 0, line)?;
    }
    Ok(())
}

fn is_refused(outcome: &BulkOutcome) -> bool
    ensures { result ≡ is_refused outcome.now }
{
    match outcome {
        BulkOutcome::Wrote { .. } => false,
        BulkOutcome::Fault(_) => true,
    }
}

fn has_errors(lines: &[BulkLine]) -> bool
    ensures { result ≡ has_errors lines.now }
{
    lines.iter().any(|line| is_refused(&line.outcome))
}

fn truth_word(holds: bool) -> &'static str
    ensures { result.now ≡ truth_word holds }
{
    if holds { "true" } else { "false" }
}

fn opening_text(alloc: Global, errors: &str) -> Result<String, NoMemory>
    ensures { IfOk result (λ s. string_bytes s ≡
        joined (codes "{\"took\":0,\"errors\":" ∷ errors.now ∷ codes ",\"items\":[" ∷ [])) }
{
    format!(in alloc; "{{\"took\":0,\"errors\":{errors},\"items\":[")
}

/// The body for a bulk. Takes steps in proportion to the bytes that it makes.
#[tactic(auto, unfolding(crate::specs::Bulk::bulk_text))]
pub fn bulk_text(alloc: Global, lines: &[BulkLine]) -> Result<Vec<u8>, NoMemory>
    ensures { IfOk result (λ body. body.items ≡ bulk_text lines.now) }
{
    let errors = truth_word(has_errors(lines));
    let mut body = opening_text(alloc, errors)?.into_bytes();
    push_lines(&mut body, alloc, lines)?;
    body.extend_from_slice(b"]}")?;
    Ok(body)
}
