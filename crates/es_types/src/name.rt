//! Names of indexes and fields, and ids of documents: texts that a rule allows.
ghost use Rattle.std.specs.Prelude.{◌≡◌, ◌==◌, ℕ, Bool, List, not, MatchResult, IsTrue, IsFalse};
ghost use Rattle.std.specs.List.{list_all};
ghost use Rattle.es_types.specs.Name.{is_doc_id, is_field_name, is_index_byte, is_index_name, is_lower_or_digit};

use crate::{Copied, NoMemory, Text};
use std::alloc::Global;
use std::marker::{Model, PhantomData};

/// Which texts are names of a kind.
pub trait NameRule {
    ghost is_name: { List ℕ → Bool };

    fn allows(text: &str) -> bool
        ensures { result ≡ is_name text.now };
}

/// A text that a rule allows.
#[derive(Drop)]
pub struct Name<R: NameRule>(Text, PhantomData<R>);

impl<R: NameRule> Model for Name<R> {
    ghost use Rattle.std.specs.Prelude.{List, ℕ, IsTrue};

    ghost Value = { List ℕ };

    ghost view = { λ n. n.0 };

    ghost invariant = { λ n. IsTrue (R.is_name n.0) };
}

impl<R: NameRule> Name<R> {
    /// Hands the text back where it is no name of that kind.
    pub fn make(text: Text) -> Result<Name<R>, Text>
        ensures { MatchResult result
            (λ name. (name ≡ text) × IsTrue (R.is_name text))
            (λ back. (back ≡ text) × IsFalse (R.is_name text)) }
    {
        if R::allows(text.as_str()) {
            Ok(Name(text, PhantomData))
        } else {
            Err(text)
        }
    }

    pub fn text(&self) -> &Text
        ensures value { result.now ≡ self.now }
        ensures valid { IsTrue (R.is_name self.now) }
    {
        &self.0
    }
}

impl<R: NameRule> Copied for Name<R> {
    fn copy(&self, alloc: Global) -> Result<Name<R>, NoMemory> {
        Ok(Name(self.0.copy(alloc)?, PhantomData))
    }
}

/// The id of a document: a text of 1 to 512 bytes.
pub type DocId = Name<DocIds>;

/// The name of an index: 1 to 255 bytes of `a` to `z`, `0` to `9`, `_`, `-` and `.`, of which the first
/// is a letter or a digit.
pub type IndexName = Name<IndexNames>;

/// The name of a field: 1 to 255 bytes with no `.`, of which the first is no `_`.
pub type FieldName = Name<FieldNames>;

/// The rule of ids of documents.
pub struct DocIds;

/// The rule of names of indexes.
pub struct IndexNames;

/// The rule of names of fields.
pub struct FieldNames;

impl NameRule for DocIds {
    ghost is_name = { is_doc_id };

    fn allows(text: &str) -> bool {
        !text.is_empty() && text.len() <= 512
    }
}

impl NameRule for IndexNames {
    ghost is_name = { is_index_name };

    fn allows(text: &str) -> bool {
        names_index(text.as_bytes())
    }
}

impl NameRule for FieldNames {
    ghost is_name = { is_field_name };

    fn allows(text: &str) -> bool {
        names_field(text.as_bytes())
    }
}

fn names_index(text: &[u8]) -> bool
    ensures { result ≡ is_index_name text.now }
{
    match text {
        [] => false,
        [first, ..] => { text.len() <= 255 && lower_or_digit(*first) && all_index_bytes(text) }
    }
}

fn all_index_bytes(text: &[u8]) -> bool
    ensures { result ≡ list_all is_index_byte text.now }
{
    text.iter().all(|b| lower_or_digit(*b) || *b == b'_' || *b == b'-' || *b == b'.')
}

fn lower_or_digit(b: u8) -> bool
    ensures { result ≡ is_lower_or_digit b }
{
    (b'a' <= b && b <= b'z') || (b'0' <= b && b <= b'9')
}

fn names_field(text: &[u8]) -> bool
    ensures { result ≡ is_field_name text.now }
{
    match text {
        [] => false,
        [first, ..] => text.len() <= 255 && *first != b'_' && has_no_dot(text),
    }
}

fn has_no_dot(text: &[u8]) -> bool
    ensures { result ≡ list_all (λ b. not (b == 46)) text.now }
{
    text.iter().all(|b| *b != b'.')
}
