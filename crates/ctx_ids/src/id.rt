//! Ids and their texts.
ghost use Rattle.std.specs.Prelude.{◌≡◌, ◌≢◌, ◌<◌, ◌⊎◌, IfErr, IfOk, IfSome, MatchOption};
ghost use Rattle.std.specs.Result.{result_ok};
ghost use Rattle.base64.specs.GeneralPurpose.{IsBytes};
ghost use Rattle.ctx_ids.specs.declared.id.ContextId.{ContextId};
ghost use Rattle.ctx_ids.specs.Ids.{IsId, id_in, id_of, kind_of, letter_of, text_of};

use base64::engine::general_purpose::URL_SAFE_NO_PAD;
use es_types::{Copied, MOST_ENTRIES, NoMemory, Text};
use std::alloc::Global;

/// A text that is no context's id.
#[derive(Drop)]
pub struct BadId;

/// What a context is.
#[derive(Clone, Copy)]
pub enum Kind {
    /// A point in time.
    Pit,
    Scroll,
    Task,
}

/// The name of a context. `make` gives those that there can be.
#[derive(Clone, Copy)]
pub struct ContextId {
    pub kind: Kind,
    pub number: u64,
}

impl ContextId {
    /// The id of that number, where there can be one: from 1 to 2^53.
    pub fn make(kind: Kind, number: u64) -> Option<ContextId>
        ensures { MatchOption result ((number ≡ 0) ⊎ (MOST_ENTRIES < number))
            (λ id. IsId id × (id.kind ≡ kind) × (id.number ≡ number)) }
    {
        if number == 0 || number > MOST_ENTRIES {
            return None;
        }
        Some(ContextId { kind, number })
    }

    /// 12 letters of base64 in the alphabet for addresses, without padding (RFC 4648, 5).
    #[tactic(auto, unfolding(crate::specs::Ids::text_of))]
    pub fn to_text(&self, alloc: Global) -> Result<Text, NoMemory>
        ensures { IfOk result (λ text. text ≡ text_of self.now) }
    {
        let mut bytes = Vec::with_capacity(alloc, 9)?;
        bytes.push(letter_of(self.kind))?;
        bytes.extend_from_slice(&self.number.to_be_bytes())?;
        Ok(Text::of(URL_SAFE_NO_PAD.encode(alloc, &bytes)?))
    }

    /// The one id of that text.
    pub fn read_text(text: &[u8]) -> Result<ContextId, BadId>
        ensures is { result_ok result ≡ id_of text.now }
        ensures found { IfOk result (λ id. IsId id × (text.now ≡ text_of id)) }
        ensures whole { (id : ContextId) → IsId id → text.now ≡ text_of id → result ≡ Ok id }
        ensures refused { IfErr result (λ _. (id : ContextId) → IsId id → text.now ≢ text_of id) }
    {
        match id_of(text) {
            Some(id) => Ok(id),
            None => Err(BadId),
        }
    }
}

// The nine bytes of a text are read into a place of their own, which takes no memory.
fn id_of(text: &[u8]) -> Option<ContextId>
    ensures is { result ≡ id_of text.now }
    ensures found { IfSome result (λ id. IsId id × (text.now ≡ text_of id)) }
{
    if text.len() != 12 {
        return None;
    }
    let mut bytes = [0u8; 9];
    match URL_SAFE_NO_PAD.decode_slice_unchecked(text, &mut bytes) {
        Ok(count) => if count == 9 { id_in(&bytes) } else { None },
        Err(_) => None,
    }
}

fn letter_of(kind: Kind) -> u8
    ensures { result ≡ letter_of kind }
{
    match kind {
        Kind::Pit => b'P',
        Kind::Scroll => b'S',
        Kind::Task => b'A',
    }
}

fn kind_of(letter: u8) -> Option<Kind>
    ensures { result ≡ kind_of letter }
{
    match letter {
        b'P' => Some(Kind::Pit),
        b'S' => Some(Kind::Scroll),
        b'A' => Some(Kind::Task),
        _ => None,
    }
}

fn id_in(bytes: &[u8; 9]) -> Option<ContextId>
    ensures is { result ≡ id_in bytes.now }
    ensures bytes { IsBytes bytes.now }
{
    let kind = kind_of(bytes[0])?;
    let mut number = [0; 8];
    number.copy_from_slice(&bytes[1..]);
    ContextId::make(kind, u64::from_be_bytes(number))
}

impl Copied for Kind {
    fn copy(&self, _alloc: Global) -> Result<Kind, NoMemory> {
        Ok(*self)
    }
}

impl Copied for ContextId {
    fn copy(&self, _alloc: Global) -> Result<ContextId, NoMemory> {
        Ok(*self)
    }
}
