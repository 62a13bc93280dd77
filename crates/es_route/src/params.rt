//! The parameters of a query.
ghost use Rattle.std.specs.Prelude.{◌≡◌, IfOk};
ghost use Rattle.es_route.specs.Params.{has_param, params_of};

use es_types::{NoMemory, Text};
use form_urlencoded::parse;
use std::alloc::Global;

/// A parameter of a query, decoded.
#[derive(Drop)]
pub struct Param {
    pub name: Text,
    pub value: Text,
}

/// The parameters of a query in turn.
pub fn params_of(alloc: Global, query: &[u8]) -> Result<Vec<Param>, NoMemory>
    ensures { IfOk result (λ params. params.items ≡ params_of query.now) }
{
    let mut params = Vec::new(alloc);
    for pair in parse(alloc, query) {
        let (name, value) = pair?;
        let name = Text::of(name.into_owned(alloc)?);
        let value = Text::of(value.into_owned(alloc)?);
        params.push(Param { name, value })?;
    }
    Ok(params)
}

/// Whether there is a parameter of this name.
pub fn has_param(name: &str, params: &[Param]) -> bool
    ensures { result ≡ has_param name.now params.now }
{
    params.iter().any(|param| param.name.as_str() == name)
}
