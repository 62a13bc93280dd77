//! How a value compares with those of a query.
ghost use Rattle.std.specs.Prelude.{◌≡◌};
ghost use Rattle.es_query.specs.Values.{compared, is_equal, meets, on_side};

use crate::{Edge, Side};
use es_types::Value;
use std::cmp::Ordering;

// How two values of one kind compare.
fn compared(a: &Value, b: &Value) -> Option<Ordering>
    ensures { result ≡ compared a.now b.now }
{
    match (a, b) {
        (Value::Key(a), Value::Key(b)) => Some(a.as_str().cmp(b.as_str())),
        (Value::Long(a), Value::Long(b)) => Some(a.cmp(b)),
        _ => None,
    }
}

pub fn is_equal(wanted: &Value, value: &Value) -> bool
    ensures { result ≡ is_equal wanted.now value.now }
{
    match compared(value, wanted) {
        Some(order) => order.is_eq(),
        None => false,
    }
}

// Whether a value lies on the right side of an edge.
pub fn meets(value: &Value, edge: &Edge) -> bool
    ensures { result ≡ meets value.now edge.now }
{
    match compared(value, &edge.value) {
        Some(order) => on_side(edge.side, order),
        None => false,
    }
}

// Whether what compares so with an edge's value lies on that side of it.
pub fn on_side(side: Side, order: Ordering) -> bool
    ensures { result ≡ on_side side order }
{
    match side {
        Side::Above => order.is_gt(),
        Side::AtLeast => order.is_ge(),
        Side::Below => order.is_lt(),
        Side::AtMost => order.is_le(),
    }
}
