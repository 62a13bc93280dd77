//! The values that a query gives for the parameters that a route takes.
ghost use Rattle.std.specs.Prelude.{◌≡◌};
ghost use Rattle.es_route.specs.Answers.{Answers};
ghost use Rattle.es_route.specs.Values.{batch_value, key_of, key_text, needed, read_params, refresh_value, values_in, with_param, with_value};

use crate::params::{Param, params_of};
use es_types::{Copied, KeepAlive, Text};
use http_wire::{Request, number};
use reply_json::RestFault;
use search_json::context_keep;
use std::alloc::Global;

/// A parameter that routes take.
#[derive(Clone, Copy)]
pub enum Key {
    /// `refresh`
    Refresh,
    /// `batched_reduce_size`
    Batch,
    /// `keep_alive`
    KeepAlive,
}

/// The values that a query gives.
#[derive(Clone, Copy)]
pub struct Values {
    /// Whether a refresh is asked.
    pub refresh: Option<bool>,
    /// How many shards make a batch; whether it may be so many is looked at later.
    pub batch: Option<u32>,
    /// How long a point in time is kept, where it may be kept so long.
    pub keep: Option<Option<KeepAlive>>,
}

fn key_text(key: Key) -> &'static str
    ensures { result.now ≡ key_text key }
{
    match key {
        Key::Refresh => "refresh",
        Key::Batch => "batched_reduce_size",
        Key::KeepAlive => "keep_alive",
    }
}

// Which of the parameters that are taken has this name.
fn key_of(taken: &[Key], name: &str) -> Option<Key>
    ensures { result ≡ key_of taken.now name.now }
{
    let [key, rest @ ..] = taken else {
        return None;
    };
    if name == key_text(*key) {
        return Some(*key);
    }
    key_of(rest, name)
}

fn refresh_value(value: &str) -> Option<bool>
    ensures { result ≡ refresh_value value.now }
{
    if value == "" || value == "true" || value == "wait_for" {
        Some(true)
    } else if value == "false" {
        Some(false)
    } else {
        None
    }
}

fn batch_value(text: &str) -> Option<u32>
    ensures { result ≡ batch_value text.now }
{
    match number(text.as_bytes(), 9, 999_999_999) {
        Some(n) => Some(n as u32),
        None => None,
    }
}

// With one more value, unless its parameter has one, or this is none.
fn with_value(values: Values, key: Key, text: &str) -> Option<Values>
    ensures { result ≡ with_value values key text.now }
{
    let Values {
        refresh,
        batch,
        keep,
    } = values;
    match key {
        Key::Refresh => match (refresh, refresh_value(text)) {
            (None, Some(value)) => Some(Values {
                refresh: Some(value),
                batch,
                keep,
            }),
            _ => None,
        },
        Key::Batch => match (batch, batch_value(text)) {
            (None, Some(value)) => Some(Values {
                refresh,
                batch: Some(value),
                keep,
            }),
            _ => None,
        },
        Key::KeepAlive => match keep {
            None => Some(Values {
                refresh,
                batch,
                keep: Some(context_keep(text)),
            }),
            Some(_) => None,
        },
    }
}

// With the value of a parameter, where it is taken.
fn with_param(taken: &[Key], values: Values, param: &Param) -> Option<Values>
    ensures { result ≡ with_param taken.now values param.now }
{
    match key_of(taken, param.name.as_str()) {
        Some(key) => with_value(values, key, param.value.as_str()),
        None => None,
    }
}

// The values that these parameters give, besides those that were given before them.
fn values_in(
    alloc: Global,
    taken: &[Key],
    values: Values,
    params: &[Param],
) -> Result<Values, RestFault>
    ensures { Answers result (values_in taken.now values params.now) }
{
    let [param, rest @ ..] = params else {
        return Ok(values);
    };
    match with_param(taken, values, param) {
        Some(values) => values_in(alloc, taken, values, rest),
        None => Err(RestFault::BadParam(param.name.copy(alloc)?)),
    }
}

/// The values that the query of a request gives for the parameters that are taken, each at most once. The first parameter
/// that isn't taken, stands there again or has no such value is a fault.
pub fn read_params(alloc: Global, taken: &[Key], request: &Request) -> Result<Values, RestFault>
    ensures { Answers result (read_params taken.now request.now.query) }
{
    let params = params_of(alloc, request.query.as_slice())?;
    let none = Values {
        refresh: None,
        batch: None,
        keep: None,
    };
    values_in(alloc, taken, none, &params)
}

/// A value that is needed. One that is missing is a fault of its parameter, which comes after those of all that stand there.
pub fn needed<T: Copy>(alloc: Global, key: Key, value: Option<T>) -> Result<T, RestFault>
    ensures { Answers result (needed key value) }
{
    match value {
        Some(value) => Ok(value),
        None => {
            let name = String::from_str(alloc, key_text(key))?;
            Err(RestFault::BadParam(Text::of(name)))
        }
    }
}
