//! A point in time with its owner.
ghost use Rattle.std.specs.Prelude.{◌≡◌};
ghost use Rattle.context_book.specs.declared.context.LendFault.TheVariants.{NoMemory};

use crate::View;
use es_sort::Keys;
use es_types::{Moment, NoMemory};
use reader_gate::Owner;

/// A point in time: its number, the owner of its reader, and the last moment at which it is live, in milliseconds.
#[derive(Drop)]
pub struct Context {
    pub number: u64,
    pub owner: Owner<View>,
    pub expiry: u64,
}

impl Context {
    ghost use Rattle.context_book.specs.Books.{lives};

    /// Whether it is live at a moment: up to its expiry, and at that too.
    pub fn is_live(&self, now: Moment) -> bool
        ensures { result ≡ lives now self.now }
    {
        now.millis() <= self.expiry
    }
}

/// How far the pages of a scroll are known: after so many of them, the key of the last hit, where there was one.
#[derive(Drop)]
pub struct PageEnd {
    pub pages: u64,
    pub after: Option<Keys>,
}

/// No point in time of that number is live.
#[derive(Drop)]
pub struct Missing;

/// Why a point in time isn't opened.
#[derive(Drop)]
pub enum Why {
    /// As many are live as may be.
    TooMany { limit: u64 },
    NoMemory,
}

/// A point in time that isn't opened: its owner, as it came.
#[derive(Drop)]
pub struct Refused {
    pub why: Why,
    pub owner: Owner<View>,
}

/// Why no pass is lent.
#[derive(Drop)]
pub enum LendFault {
    /// No point in time of that number is live.
    Missing,
    NoMemory,
}

impl From<NoMemory> for LendFault {
    ghost from_gives = { λ _ fault. fault ≡ NoMemory };

    fn from(_refused: NoMemory) -> LendFault {
        LendFault::NoMemory
    }
}

/// Its owner.
pub fn owner_of(context: Context) -> Owner<View>
    ensures { result ≡ context.owner }
{
    let Context {
        number: _,
        owner,
        expiry: _,
    } = context;
    owner
}
