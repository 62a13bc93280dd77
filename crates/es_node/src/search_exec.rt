//! Runs what turns of the core plan. It asks nothing of the core, which may have gone on.
ghost use Rattle.std.specs.Prelude.{◌≡◌, IfOk};
ghost use Rattle.list_machine.specs.declared.event.Reply.TheVariants.{Found};
ghost use Rattle.list_machine.specs.Run.{IsWithinLimits};
ghost use Rattle.list_machine.specs.Views.{answer as answer_of};
ghost use Rattle.es_core.specs.Plans.{CanRun, plan_reply};

use context_book::View;
use es_core::Plan;
use es_types::NoMemory;
use list_machine::{Answer, Reply, SearchRequest, ViewRef, answer};
use reader_gate::Pass;
use std::alloc::Global;

/// The machine's reply at the turn that made the plan.
pub fn run(alloc: Global, plan: Plan) -> Result<Reply, NoMemory>
    requires { CanRun plan }
    ensures { IfOk result (λ reply. reply ≡ plan_reply plan) }
{
    match plan {
        Plan::Page {
            pass,
            request,
            pages: _,
            end: _,
            number: _,
        } => page(alloc, pass, request),
    }
}

/// A page of the view that the pass holds. The pass is left in any case, once all is copied that is answered.
fn page(alloc: Global, pass: Pass<View>, request: SearchRequest) -> Result<Reply, NoMemory>
    requires { IsWithinLimits request }
    ensures { IfOk result (λ reply. reply ≡ Found (answer_of pass.body request request.from)) }
{
    let found = search(alloc, pass.body(), &request, request.from as u64);
    leave(pass);
    Ok(Reply::Found(found?))
}

/// The answer to a search of a view. Shards that the slice doesn't cover, or whose bounds exclude the query, are skipped, the rows
/// of the others that match are sorted, and those of the page alone are copied. The page leaves out so many of the hits that it would
/// have.
pub fn search(
    alloc: Global,
    view: &View,
    request: &SearchRequest,
    skip: u64,
) -> Result<Answer, NoMemory>
    requires { IsWithinLimits request.now }
    ensures { IfOk result (λ it. it ≡ answer_of view.now request.now skip) }
{
    let shards = view.shard_refs(alloc)?;
    let view = ViewRef {
        index: view.index(),
        mapping: view.mapping(),
        shards: &shards,
    };
    answer(alloc, &view, request, skip)
}

/// Lets a pass go. Where it was the reader's last holder, the reader ends.
fn leave(pass: Pass<View>) {
    if let Some(ended) = pass.leave() {
        drop(ended.spend());
    }
}
