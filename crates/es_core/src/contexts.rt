//! What events do to the points in time of the book.
ghost use Rattle.std.specs.Prelude.{◌≡◌, ◌≢◌, ◌<◌, ◌≤◌, ℕ, true, None, Some, min, length, map, filter, sum_by, count_by, All, IfOk, MatchOption, OnOk, OnErr};
ghost use Rattle.std.specs.Arc.{arc_value};
ghost use Rattle.context_book.specs.Books.{CanLend, Rises, has_ended, is_closed, is_kept, live_one, lives};
ghost use Rattle.list_machine.specs.Run.{IsWithinLimits};
ghost use Rattle.es_core.specs.Contexts.{AllLent, LeavesOpened, MayWant, contexts_seen, found, freed_where_fit, is_answered, is_opened, kept_on_answer, left_by, live_context, opening};
ghost use Rattle.context_book.specs.Calls.{lent_by};
ghost use Rattle.es_core.specs.Plans.{CanAnswer, IsPlanned, Leaves, kept_on, turned_reply};

use crate::planning::page;
use crate::turned::{Chore, Turned};
use context_book::{ContextBook, Refused, View, Why};
use es_types::{Copied, Items, KeepAlive, MOST_ENTRIES, Moment, NoMemory};
use list_machine::{Reply, SearchRequest, Which, refused};
use reader_gate::{Owner, Pass, make_reader};
use std::alloc::Global;
use std::sync::Arc;

/// As many passes as one owner may lend, since each is lent at an entry.
const MOST_LENT: u64 = MOST_ENTRIES;

/// Lets an owner go. Where it was the reader's last holder, the reader ends.
pub fn shut(owner: Owner<View>) {
    if let Some(ended) = owner.shut() {
        drop(ended.spend());
    }
}

fn shut_all(owners: Items<Owner<View>>) {
    for owner in owners.into_inner() {
        shut(owner);
    }
}

/// How many shards the views of these have together, where that fits.
fn count_shards(owners: &[Owner<View>]) -> u64
    ensures { result ≡ min (sum_by (λ owner. length owner.body.shards) owners.now) 18446744073709551615 }
{
    let mut count: u64 = 0;
    for owner in owners {
        count = count.saturating_add(owner.body().shards().len() as u64);
    }
    count
}

/// Opens a context of that number over a view, unless as many as may be are live.
pub fn open(
    alloc: Global,
    book: &mut ContextBook,
    moment: Moment,
    number: u64,
    view: Arc<View>,
    expiry: u64,
) -> Result<Reply, NoMemory>
    requires { All (λ context. context.number < number) book.old.contexts }
    ensures opened { IfOk result (λ reply. opening moment number (arc_value view) expiry book.old.limit (contexts_seen book.old.contexts) ≡ (contexts_seen book.new.contexts, reply)) }
    ensures added { IfOk result (LeavesOpened (Some (arc_value view)) expiry book.old.contexts book.new.contexts) }
    ensures numbers { All (λ context. context.number ≤ number) book.new.contexts }
    ensures lent { (n : ℕ) → AllLent n book.old.contexts → AllLent n book.new.contexts }
    ensures limit { book.new.limit ≡ book.old.limit }
    ensures err { OnErr result (book.new ≡ book.old) }
{
    let Ok(owner) = make_reader(alloc, view) else {
        return Err(NoMemory);
    };
    match book.open_context(number, owner, expiry, moment) {
        Ok(()) => Ok(Reply::Opened { number }),
        Err(Refused { why, owner }) => {
            shut(owner);
            match why {
                Why::TooMany { limit } => Ok(Reply::TooMany { limit }),
                Why::NoMemory => Err(NoMemory),
            }
        }
    }
}

/// Plans a search of the view of a context that is live, which is kept longer where that is asked and the search fits. An error
/// leaves the book as it was.
pub fn search_pit(
    alloc: Global,
    book: &mut ContextBook,
    moment: Moment,
    number: u64,
    keep: Option<KeepAlive>,
    request: &SearchRequest,
) -> Result<Turned, NoMemory>
    requires within { IsWithinLimits request.now }
    ensures reply { CanLend number moment book.old.contexts
        → IfOk result (λ turned. turned_reply turned ≡ found request.now (live_context number moment (contexts_seen book.old.contexts))) }
    ensures runs { IfOk result CanAnswer }
    ensures planned { IfOk result (IsPlanned request.now) }
    ensures leaves { IfOk result (Leaves number moment keep book.old.contexts book.new.contexts) }
    ensures kept { CanLend number moment book.old.contexts → OnOk result (contexts_seen book.new.contexts
        ≡ kept_on_answer moment number keep (is_answered request.now (live_context number moment (contexts_seen book.old.contexts))) (contexts_seen book.old.contexts)) }
    ensures few { AllLent MOST_ENTRIES book.old.contexts → AllLent MOST_ENTRIES book.new.contexts }
    ensures rise { Rises book.old.contexts }
    ensures numbers { (next : ℕ) → All (λ context. context.number < next) book.old.contexts → All (λ context. context.number < next) book.new.contexts }
    ensures limit { book.new.limit ≡ book.old.limit }
    ensures err { OnErr result (book.new ≡ book.old) }
{
    let context = match book.find(number, moment) {
        Ok(context) => context,
        Err(_) => return Ok(Turned::Now(Reply::Missing)),
    };
    if let Some(refused) = refused(context.owner.body().mapping(), request) {
        return Ok(Turned::Now(refused));
    }
    if context.owner.lent() >= MOST_LENT {
        // The owner has no pass left, which needs a longer history than there may be.
        return Ok(Turned::Now(Reply::Spent));
    }
    let request = request.copy(alloc)?;
    // What can fail is done by then, so that an error lends nothing.
    let pass = lend(book, moment, number)?;
    keep_longer(book, moment, number, keep);
    Ok(Turned::Later(page(pass, request)))
}

/// A pass of a live context, whose owner may lend another. An error leaves the book as it was.
fn lend(book: &mut ContextBook, moment: Moment, number: u64) -> Result<Pass<View>, NoMemory>
    requires room { MatchOption (live_one number moment book.old.contexts) ⊥ (λ context. context.owner.lent < MOST_ENTRIES) }
    requires rise { Rises book.old.contexts }
    ensures pass { IfOk result (λ pass. MatchOption (live_one number moment book.old.contexts) ⊥ (λ context. (pass.reader ≡ context.owner.reader) × (pass.body ≡ context.owner.body))) }
    ensures lent { OnOk result (book.new.contexts ≡ map (lent_by number) book.old.contexts) }
    ensures same { contexts_seen book.new.contexts ≡ contexts_seen book.old.contexts }
    ensures few { AllLent MOST_ENTRIES book.old.contexts → AllLent MOST_ENTRIES book.new.contexts }
    ensures numbers { (next : ℕ) → All (λ context. context.number < next) book.old.contexts → All (λ context. context.number < next) book.new.contexts }
    ensures limit { book.new.limit ≡ book.old.limit }
    ensures err { OnErr result (book.new ≡ book.old) }
{
    match book.lend(number, moment) {
        Ok(pass) => Ok(pass),
        // The context is live, so only memory can have run out.
        Err(_) => Err(NoMemory),
    }
}

/// Keeps a live context longer, where that is asked.
fn keep_longer(book: &mut ContextBook, moment: Moment, number: u64, keep: Option<KeepAlive>)
    requires { live_one number moment book.old.contexts ≢ None }
    ensures kept { contexts_seen book.new.contexts ≡ kept_on_answer moment number keep true (contexts_seen book.old.contexts) }
    ensures on { book.new.contexts ≡ kept_on number moment keep book.old.contexts }
    ensures lent { (n : ℕ) → AllLent n book.old.contexts → AllLent n book.new.contexts }
    ensures numbers { (next : ℕ) → All (λ context. context.number < next) book.old.contexts → All (λ context. context.number < next) book.new.contexts }
    ensures limit { book.new.limit ≡ book.old.limit }
{
    if let Some(keep) = keep {
        let _ = book.touch(number, moment, moment.millis() + keep.millis());
    }
}

/// Whether a context was opened.
pub fn is_opened(reply: &Reply) -> bool
    ensures { result ≡ is_opened reply.now }
{
    match reply {
        Reply::Opened { number: _ } => true,
        _ => false,
    }
}

/// Closes the live contexts that are named, and says how many shards they have, where that fits. An error comes only where there are
/// such, and leaves the book as it was.
pub fn close(book: &mut ContextBook, moment: Moment, which: &Which) -> Result<u64, NoMemory>
    ensures freed { IfOk result (λ freed. freed ≡ freed_where_fit moment which.now (contexts_seen book.old.contexts)) }
    ensures kept { OnOk result (book.new ≡ record book.old { contexts = filter (is_kept moment which.now) book.old.contexts }) }
    ensures lent { (n : ℕ) → AllLent n book.old.contexts → AllLent n book.new.contexts }
    ensures numbers { (next : ℕ) → All (λ context. context.number < next) book.old.contexts → All (λ context. context.number < next) book.new.contexts }
    ensures limit { book.new.limit ≡ book.old.limit }
    ensures some { OnErr result (0 < count_by (is_closed moment which.now) book.old.contexts) }
    ensures err { OnErr result (book.new ≡ book.old) }
{
    let owners = book.close(which, moment)?;
    let freed = count_shards(owners.as_slice());
    shut_all(owners);
    Ok(freed)
}

/// Does a chore. An error comes only where it is to let contexts go, and leaves the book as it was.
pub fn do_chore(book: &mut ContextBook, chore: Chore, moment: Moment) -> Result<(), NoMemory>
    ensures left { OnOk result (book.new ≡ record book.old { contexts = left_by chore moment book.old.contexts }) }
    ensures some { OnErr result (MayWant chore moment book.old.contexts) }
    ensures err { OnErr result (book.new ≡ book.old) }
{
    match chore {
        Chore::Reap => reap(book, moment),
        Chore::NoteEnd { number: _, end: _ } => Ok(()),
    }
}

/// Lets the contexts go that are no longer live. An error comes only where there are such, and leaves the book as it was.
fn reap(book: &mut ContextBook, moment: Moment) -> Result<(), NoMemory>
    ensures kept { OnOk result (book.new ≡ record book.old { contexts = filter (lives moment) book.old.contexts }) }
    ensures some { OnErr result (0 < count_by (has_ended moment) book.old.contexts) }
    ensures err { OnErr result (book.new ≡ book.old) }
{
    let owners = book.reap(moment)?;
    shut_all(owners);
    Ok(())
}
