//! Pieces of JSON that several bodies have.
ghost use Rattle.std.specs.Prelude.{◌≡◌, IfOk, string_bytes};
ghost use Rattle.json.specs.Print.{quoted};
ghost use Rattle.reply_json.specs.Pieces.{comma_if};

use es_types::NoMemory;
use std::alloc::Global;

/// The text as JSON writes it, in its quotes.
pub fn quoted(alloc: Global, text: &str) -> Result<String, NoMemory>
    ensures { IfOk result (λ s. string_bytes s ≡ quoted text.now) }
{
    serde_json::Value::String(String::from_str(alloc, text)?).to_string(alloc)
}

/// What stands before an item of a list.
pub fn comma_if(later: bool) -> &'static str
    ensures { result.now ≡ comma_if later }
{
    if later { "," } else { "" }
}
