//! The order of keys.
ghost use Rattle.std.specs.Prelude.{◌≡◌};
ghost use Rattle.std.specs.Option.{option_copied};
ghost use Rattle.es_sort.specs.Keys.{with_place};
ghost use Rattle.es_sort.specs.Orders.{compare, is_after, of_missing, order_at, turned, value_order, values_order};

use crate::key::{lists_place, shows_implied};
use crate::{Keys, SortKey, SortSpec};
use es_types::Value;
use std::cmp::Ordering;

impl SortSpec {
    /// How two keys of this sort compare. One whose values end before those of the other, and before the keys of the sort do,
    /// stands first.
    pub fn compare(&self, a: &Keys, b: &Keys) -> Ordering
        ensures { result ≡ compare self.now a.now b.now }
    {
        let keys = self.keys.as_slice();
        order(
            keys,
            !lists_place(keys),
            a.values.as_slice(),
            b.values.as_slice(),
        )
    }

    /// Whether what a hit shows of a key is strictly after these values.
    pub fn is_after(&self, key: &Keys, after: &Keys) -> bool
        ensures { result ≡ is_after self.now key.now after.now }
    {
        let implied = shows_implied(self);
        order(
            self.keys.as_slice(),
            implied,
            key.values.as_slice(),
            after.values.as_slice(),
        )
        .is_gt()
    }
}

// How two lists of values compare by these keys, and by the place after them where it counts.
fn order(keys: &[SortKey], place: bool, a: &[Value], b: &[Value]) -> Ordering
    ensures { result ≡ values_order (with_place place keys.now) a.now b.now }
{
    for at in 0..keys.len() {
        let key = &keys[at];
        let order = order_at(key.down, key.missing_first, a.get(at), b.get(at));
        if !order.is_eq() {
            return order;
        }
    }
    if place {
        order_at(false, false, a.get(keys.len()), b.get(keys.len()))
    } else {
        Ordering::Equal
    }
}

// How two values compare by one key, where either may have ended before.
fn order_at(down: bool, missing_first: bool, a: Option<&Value>, b: Option<&Value>) -> Ordering
    ensures { result ≡ order_at down missing_first (option_copied a.entry) (option_copied b.entry) }
{
    match (a, b) {
        (Some(a), Some(b)) => value_order(down, missing_first, a, b),
        (Some(_), None) => Ordering::Greater,
        (None, Some(_)) => Ordering::Less,
        (None, None) => Ordering::Equal,
    }
}

fn value_order(down: bool, missing_first: bool, a: &Value, b: &Value) -> Ordering
    ensures { result ≡ value_order down missing_first a.now b.now }
{
    match (a, b) {
        (Value::Key(a), Value::Key(b)) => turned(down, a.as_str().cmp(b.as_str())),
        (Value::Long(a), Value::Long(b)) => turned(down, a.cmp(b)),
        (Value::Key(_), Value::Long(_)) => turned(down, Ordering::Less),
        (Value::Long(_), Value::Key(_)) => turned(down, Ordering::Greater),
        (Value::Missing, Value::Missing) => Ordering::Equal,
        (Value::Missing, _) => of_missing(missing_first),
        (_, Value::Missing) => of_missing(missing_first).reverse(),
    }
}

fn turned(down: bool, order: Ordering) -> Ordering
    ensures { result ≡ turned down order }
{
    if down { order.reverse() } else { order }
}

// Where a missing value stands next to one that isn't.
fn of_missing(first: bool) -> Ordering
    ensures { result ≡ of_missing first }
{
    if first {
        Ordering::Less
    } else {
        Ordering::Greater
    }
}
