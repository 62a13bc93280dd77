//! Values that the calls are given.
use es_types::{Bytes, DocId, IndexName, NoMemory, Text};
use std::alloc::Global;
use std::test::Fail;

pub(crate) fn text(alloc: Global, text: &str) -> Result<Text, NoMemory> {
    Ok(Text::of(String::from_str(alloc, text)?))
}

pub(crate) fn bytes(alloc: Global, bytes: &[u8]) -> Result<Bytes, NoMemory> {
    Ok(Bytes::of(Vec::from_slice(alloc, bytes)?))
}

pub(crate) fn index(alloc: Global, name: &str) -> Result<IndexName, Fail> {
    Ok(IndexName::make(text(alloc, name)?).ok().ok_or("a name")?)
}

pub(crate) fn doc_id(alloc: Global, id: &str) -> Result<DocId, Fail> {
    Ok(DocId::make(text(alloc, id)?).ok().ok_or("an id")?)
}
