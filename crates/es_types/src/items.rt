//! Lists.
ghost use Rattle.std.specs.Prelude.{◌≡◌, IfOk};

use crate::{Copied, NoMemory};
use std::alloc::Global;
use std::marker::Model;

/// A `Vec` that contracts see as the list of its items.
#[derive(Drop)]
pub struct Items<T> {
    items: Vec<T>,
}

impl<T> Model for Items<T> {
    ghost use Rattle.std.specs.Prelude.{List};
    ghost use Rattle.std.specs.Coded.{coded_list};

    ghost Value = { List T };

    ghost coded = { coded_list T.code };

    ghost view = { λ it. it.items.items };
}

impl<T> Items<T> {
    pub fn of(inner: Vec<T>) -> Items<T>
        ensures { result ≡ inner.items }
    {
        Items { items: inner }
    }

    pub fn into_inner(self) -> Vec<T>
        ensures { result.items ≡ self }
    {
        let Items { items } = self;
        items
    }

    pub fn as_slice(&self) -> &[T]
        ensures { result.now ≡ self.now }
    {
        self.items.as_slice()
    }
}

/// Copies of all items, in their order.
pub fn copy_all<T: Copied>(alloc: Global, items: &[T]) -> Result<Vec<T>, NoMemory>
    ensures { IfOk result (λ all. all.items ≡ items.now) }
{
    let mut all = Vec::with_capacity(alloc, items.len())?;
    for item in items {
        all.push(item.copy(alloc)?)?;
    }
    Ok(all)
}

impl<T: Copied> Copied for Items<T> {
    fn copy(&self, alloc: Global) -> Result<Items<T>, NoMemory> {
        Ok(Items::of(copy_all(alloc, self.as_slice())?))
    }
}
