//! The calls of `reader_gate`.
ghost use Rattle.std.specs.Prelude.{◌≡◌, IfOk};

use reader_gate::{Ended, Owner, Pass, make_reader};
use std::alloc::Global;
use std::process::Abort;
use std::sync::Arc;
use std::test::Fail;
use std::thread::join;

fn owner_of(alloc: Global, body: Arc<u64>) -> Result<Owner<u64>, Fail>
    ensures { IfOk result (λ o. o.lent ≡ 0) }
{
    match make_reader(alloc, body) {
        Ok(owner) => Ok(owner),
        Err(_) => Err("a reader".into()),
    }
}

fn reader_of(alloc: Global, number: u64) -> Result<Owner<u64>, Fail>
    ensures { IfOk result (λ o. o.lent ≡ 0) }
{
    owner_of(alloc, Arc::new(alloc, number)?)
}

#[test]
fn the_last_leave_ends_a_reader(rt: HostRuntime) -> Result<(), Fail> {
    let mut owner = reader_of(rt.alloc(), 7)?;
    let first = owner.lend(rt.alloc())?;
    let second = owner.lend(rt.alloc())?;
    assert_eq!(rt; owner.lent(), 2);
    assert!(rt; *owner.body() == 7 && *first.body() == 7 && *second.body() == 7);
    assert!(rt; owner.shut().is_none());
    assert!(rt; first.leave().is_none());
    let ended = second.leave().ok_or("the end")?;
    assert_eq!(rt; *ended.spend(), 7);
    Ok(())
}

#[test]
fn a_shut_alone_ends_a_reader(rt: HostRuntime) -> Result<(), Fail> {
    let mut owner = reader_of(rt.alloc(), 8)?;
    assert_eq!(rt; owner.lent(), 0);
    let pass = owner.lend(rt.alloc())?;
    assert!(rt; pass.leave().is_none());
    let ended = owner.shut().ok_or("the end")?;
    assert_eq!(rt; *ended.spend(), 8);
    Ok(())
}

// The last pass ends it after the owner and the other pass.
fn a_pass_outlives(rt: &impl Abort, alloc: Global, kept: &Arc<u64>) -> Result<(), Fail> {
    let mut owner = owner_of(alloc, Arc::try_clone(kept)?)?;
    let first = owner.lend(alloc)?;
    let second = owner.lend(alloc)?;
    drop(owner);
    drop(first);
    let ended = second.leave().ok_or("the end")?;
    assert_eq!(rt; *ended.spend(), 9);
    Ok(())
}

fn an_end_is_dropped(alloc: Global, kept: &Arc<u64>) -> Result<(), Fail> {
    let mut owner = owner_of(alloc, Arc::try_clone(kept)?)?;
    drop(owner.lend(alloc)?);
    drop(owner.shut().ok_or("the end")?);
    Ok(())
}

fn an_owner_is_dropped(rt: &impl Abort, alloc: Global, kept: &Arc<u64>) -> Result<(), Fail> {
    let mut owner = owner_of(alloc, Arc::try_clone(kept)?)?;
    let pass = owner.lend(alloc)?;
    drop(owner);
    assert!(rt; Arc::strong_count(kept) > 1);
    drop(pass);
    Ok(())
}

fn a_pass_is_dropped(rt: &impl Abort, alloc: Global, kept: &Arc<u64>) -> Result<(), Fail> {
    let mut owner = owner_of(alloc, Arc::try_clone(kept)?)?;
    drop(owner.lend(alloc)?);
    assert!(rt; Arc::strong_count(kept) > 1);
    drop(owner);
    Ok(())
}

// What is held is counted by the body, which is kept here once.
#[test]
fn a_drop_lets_its_hold_go(rt: HostRuntime) -> Result<(), Fail> {
    let alloc = rt.alloc();
    let kept = Arc::new(alloc, 9u64)?;
    a_pass_outlives(&rt, alloc, &kept)?;
    assert_eq!(rt; Arc::strong_count(&kept), 1);
    an_end_is_dropped(alloc, &kept)?;
    assert_eq!(rt; Arc::strong_count(&kept), 1);
    an_owner_is_dropped(&rt, alloc, &kept)?;
    assert_eq!(rt; Arc::strong_count(&kept), 1);
    a_pass_is_dropped(&rt, alloc, &kept)?;
    assert_eq!(rt; Arc::strong_count(&kept), 1);
    Ok(())
}

fn sent<T: Send>(value: T) -> T {
    value
}

// Each of the three goes to another thread, whatever the body is.
fn owner_sent<B: Drop + Send + Sync>(owner: Owner<B>) -> Owner<B> {
    sent(owner)
}

fn pass_sent<B: Drop + Send + Sync>(pass: Pass<B>) -> Pass<B> {
    sent(pass)
}

fn ended_sent<B: Drop + Send + Sync>(ended: Ended<B>) -> Ended<B> {
    sent(ended)
}

#[test]
fn holders_and_ends_are_send(rt: HostRuntime) -> Result<(), Fail> {
    let mut owner = reader_of(rt.alloc(), 5)?;
    let pass = owner.lend(rt.alloc())?;
    assert!(rt; owner_sent(owner).shut().is_none());
    let ended = pass_sent(pass).leave().ok_or("the end")?;
    assert_eq!(rt; *ended_sent(ended).spend(), 5);
    Ok(())
}

#[test]
fn two_threads_end_a_reader_once(rt: HostRuntime) -> Result<(), Fail> {
    for round in 0..2000 {
        let mut owner = reader_of(rt.alloc(), round)?;
        let first = owner.lend(rt.alloc())?;
        let second = owner.lend(rt.alloc())?;
        assert!(rt; owner.shut().is_none());
        let (one, other) = join(&rt, move || first.leave(), move || second.leave());
        let ended = match (one, other) {
            (Some(ended), None) | (None, Some(ended)) => ended,
            _ => return Err("one end".into()),
        };
        assert_eq!(rt; *ended.spend(), round);
    }
    Ok(())
}
