//! Plans of searches, run when the core has gone on and is gone.
ghost use Rattle.std.specs.Prelude.{IfOk};
ghost use Rattle.es_core.specs.Plans.{CanRun};

use crate::events::{event, moment};
use crate::histories::{core_says, run, take_turn};
use crate::replies::said;
use es_core::{Core, Plan, Turned};
use list_machine::Limits;
use std::alloc::Global;
use std::process::Abort;
use std::test::Fail;

const BEFORE: &str = "0 create logs -> done
0 put logs c n=1 -> created 1
0 put logs d n=1 -> created 2
0 publish logs 3 2 -> done
0 open logs 1m -> opened 1
0 open logs 1m -> opened 2";

// Both documents change, one point in time is closed, and the other is let go.
const AFTER: &str = "0 remove logs c -> deleted 3
0 put logs d n=2 -> updated 4
0 publish logs 3 4 -> done
0 close 1 -> closed 5
60001 quiet -> done
60001 search 2 -> missing
60001 search logs find=n/1 -> 0 of 0 skipped 5 of 5
60001 search logs find=n/2 -> 1 of 1 logs d skipped 4 of 5";

fn goes_on(rt: &impl Abort, alloc: Global, core: &mut Core, history: &str) -> Result<(), Fail> {
    for line in history.lines() {
        let (asked, want) = line.split_once(" -> ").ok_or("a reply")?;
        core_says(rt, alloc, core, asked, want)?;
    }
    Ok(())
}

fn plan(alloc: Global, core: &mut Core, asked: &str) -> Result<Plan, Fail>
    ensures { IfOk result CanRun }
{
    let event = event(alloc, asked)?;
    match take_turn(core, event, moment(asked)?)? {
        Turned::Later(plan) => Ok(plan),
        Turned::Now(_) => Err("a plan")?,
    }
}

fn answers(rt: &impl Abort, alloc: Global, plan: Plan, want: &str) -> Result<(), Fail>
    requires { CanRun plan }
{
    let found = said(alloc, run(alloc, plan)?)?;
    assert_eq!(rt; found.as_str(), want);
    Ok(())
}

// A search that is planned before all that is answered after it, when the core is gone.
fn outlives(rt: &impl Abort, alloc: Global, asked: &str, want: &str) -> Result<(), Fail> {
    let limits = Limits {
        pits: 2,
        entries: 100,
    };
    let mut core = Core::make(alloc, limits)?;
    goes_on(rt, alloc, &mut core, BEFORE)?;
    let plan = plan(alloc, &mut core, asked)?;
    goes_on(rt, alloc, &mut core, AFTER)?;
    drop(core);
    answers(rt, alloc, plan, want)
}

// Of a point in time that is closed, of one that is let go, and of an index.
#[test]
fn plans_answer_as_at_their_turns(rt: HostRuntime) -> Result<(), Fail> {
    for (asked, want) in [
        (
            "0 search 1",
            "2 of 2 logs c 12884901888 logs d 12884901889 skipped 4 of 5",
        ),
        (
            "0 search 2 after=12884901888",
            "1 of 2 logs d 12884901889 skipped 4 of 5",
        ),
        (
            "0 search logs find=n/1",
            "2 of 2 logs c logs d skipped 4 of 5",
        ),
    ] {
        outlives(&rt, rt.alloc(), asked, want)?;
    }
    Ok(())
}
