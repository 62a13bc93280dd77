//! Histories of `list_machine` and `es_core`: both give the same replies to the same events.
ghost use Rattle.std.specs.Prelude.{◌≡◌, ◌+◌, ◌<◌, IfOk, OnOk};
ghost use Rattle.es_types.specs.declared.limits.TheConstants.{MOST_ENTRIES};
ghost use Rattle.list_machine.specs.Run.{IsBounded, PutsObject};
ghost use Rattle.es_core.specs.Plans.{CanAnswer, CanRun};

use crate::events::{event, moment};
use crate::replies::said;
use context_book::PageEnd;
use es_core::{Brought, Chore, Core, Plan, Turned};
use es_types::{Moment, NoMemory};
use list_machine::{
    Entry, Event, Limits, Machine, Reply, ViewRef, answer, one_enumeration, pages_in_turn,
    slices_share_out, sound_states,
};
use slice_rule::each_place_has_a_slice;
use std::alloc::Global;
use std::process::Abort;
use std::test::Fail;

// The drop of an entry stands here alone, and that of an event in the next one. Each step is one entry.
fn take_step(machine: &mut Machine, entry: Entry) -> Result<Reply, NoMemory>
    requires early { machine.old.entries < MOST_ENTRIES }
    requires bounded { IsBounded entry.event }
    ensures { OnOk result (machine.new.entries ≡ machine.old.entries + 1) }
{
    machine.step(&entry)
}

// A quiet lets go what is no longer live, which no reply shows, or notes the end of a scroll that isn't there.
fn take_quiet(core: &mut Core, moment: Moment, reaps: bool) -> Result<Reply, NoMemory> {
    let chore = if reaps {
        Chore::Reap
    } else {
        let end = PageEnd {
            pages: 1,
            after: None,
        };
        Chore::NoteEnd { number: 1, end }
    };
    let _ = core.quiet(chore, moment)?;
    Ok(Reply::Done)
}

pub(crate) fn take_turn(core: &mut Core, event: Event, moment: Moment) -> Result<Turned, NoMemory>
    requires object { PutsObject event }
    requires bounded { IsBounded event }
    ensures { IfOk result CanAnswer }
{
    core.turn(&event, moment, Brought::Nothing)
}

// The page of a plan.
pub(crate) fn run(alloc: Global, plan: Plan) -> Result<Reply, NoMemory>
    requires { CanRun plan }
{
    let Plan::Page {
        pass,
        request,
        pages: _,
        end: _,
        number: _,
    } = plan;
    let view = pass.body();
    let shards = view.shard_refs(alloc)?;
    let view = ViewRef {
        index: view.index(),
        mapping: view.mapping(),
        shards: &shards,
    };
    Ok(Reply::Found(answer(alloc, &view, &request, request.from as u64)?))
}

fn reply_to(alloc: Global, turned: Turned) -> Result<Reply, NoMemory>
    requires { CanAnswer turned }
{
    match turned {
        Turned::Now(reply) => Ok(reply),
        Turned::Later(plan) => run(alloc, plan),
    }
}

fn ask_machine(alloc: Global, machine: &mut Machine, asked: &str) -> Result<Reply, Fail>
    requires { machine.old.entries < MOST_ENTRIES }
    ensures { OnOk result (machine.new.entries ≡ machine.old.entries + 1) }
{
    let moment = moment(asked)?;
    let event = event(alloc, asked)?;
    let who = 0;
    Ok(take_step(machine, Entry { who, moment, event })?)
}

fn ask_core(alloc: Global, core: &mut Core, asked: &str) -> Result<Reply, Fail> {
    let moment = moment(asked)?;
    if asked.contains(" quiet") {
        return Ok(take_quiet(core, moment, asked.ends_with(" quiet"))?);
    }
    let event = event(alloc, asked)?;
    Ok(reply_to(alloc, take_turn(core, event, moment)?)?)
}

// Both functions are small, since a proof has what is live at each `?` again.
fn machine_says(
    rt: &impl Abort,
    alloc: Global,
    machine: &mut Machine,
    asked: &str,
    want: &str,
) -> Result<(), Fail>
    requires { machine.old.entries < MOST_ENTRIES }
    ensures { OnOk result (machine.new.entries ≡ machine.old.entries + 1) }
{
    let found = said(alloc, ask_machine(alloc, machine, asked)?)?;
    assert_eq!(rt; found.as_str(), want, "the machine at {asked}");
    Ok(())
}

pub(crate) fn core_says(
    rt: &impl Abort,
    alloc: Global,
    core: &mut Core,
    asked: &str,
    want: &str,
) -> Result<(), Fail> {
    let found = said(alloc, ask_core(alloc, core, asked)?)?;
    assert_eq!(rt; found.as_str(), want, "the core at {asked}");
    Ok(())
}

// Each line begins with milliseconds and ends with the reply that it has to have of both.
fn play(
    rt: &impl Abort,
    alloc: Global,
    machine: &mut Machine,
    core: &mut Core,
    history: &str,
) -> Result<(), Fail>
    requires { machine.old.entries ≡ 0 }
{
    let mut steps = 0u64;
    for line in history.lines() {
        if line.is_empty() || line.starts_with('#') {
            continue;
        }
        let (asked, want) = line.split_once(" -> ").ok_or("a reply")?;
        assert!(rt; steps < 100);
        steps += 1;
        machine_says(rt, alloc, machine, asked, want)?;
        core_says(rt, alloc, core, asked, want)?;
    }
    Ok(())
}

// Plays a history from the start, on the machine and on the core.
fn plays(rt: &impl Abort, alloc: Global, history: &str) -> Result<(), Fail> {
    let limits = Limits {
        pits: 1,
        entries: 100,
    };
    let mut machine = Machine::make(alloc, limits)?;
    let mut core = Core::make(alloc, limits)?;
    let played = play(rt, alloc, &mut machine, &mut core, history);
    assert_eq!(rt; core.totals().left, 0);
    assert_eq!(rt; core.finish().left, 0);
    played
}

const ONE_INDEX: &str = "
0 put docs a -> created 1
0 put docs a -> updated 2
0 remove docs b -> not found 3
0 seal docs -> sealed [3]
0 seal other -> no index
0 quiet -> done
";

// A view stays as it was when it was opened.
const VIEWS: &str = "
0 put docs b -> created 1
0 put docs a -> created 2
0 put docs c -> created 3
0 publish docs 0 3 -> done
5 open docs 1m -> opened 1
5 remove docs a -> deleted 4
5 publish docs 0 4 -> done
5 search 1 -> 2 of 3 docs b 0 docs a 1
5 search 1 after=1 -> 1 of 3 docs c 2
# It is live up to one minute after its opening, and moments never fall.
5 open docs 1m -> too many 1
60005 search 1 after=2 -> 0 of 3
60006 search 1 -> missing
5 search 1 -> missing
5 open docs 1m -> opened 2
5 search 2 -> 2 of 2 docs b 0 docs c 1
";

// A point in time is kept longer and never shorter, ends after its last moment, and is closed once.
const KEPT: &str = "
0 put docs a -> created 1
0 publish docs 0 1 -> done
0 open docs 1m -> opened 1
0 search 1 keep=5m -> 1 of 1 docs a 0
10 search 1 keep=1s -> 1 of 1 docs a 0
10 put docs b -> created 2
10 publish docs 0 2 -> done
300000 search 1 -> 1 of 1 docs a 0
300000 search 1 keep=1h after=x -> bad after
300000 quiet -> done
300000 open docs 1m -> too many 1
300000 quiet end -> done
299999 open docs 1m -> too many 1
300001 quiet end -> done
300000 search 1 -> missing
300001 quiet -> done
300001 search 1 -> missing
300001 search 1 keep=1h -> missing
300001 close 1 -> closed 0
0 open docs 0 -> opened 2
300001 search 2 -> 2 of 2 docs a 0 docs b 1
300001 close 9 1 -> closed 0
300001 close 2 9 2 -> closed 1
300001 close 2 -> closed 0
300001 search 2 -> missing
# Two are opened of one view; what is published after shows in the third.
300001 open docs 1s -> opened 3
301002 open docs 1s -> opened 4
301002 search 3 -> missing
301002 search 4 -> 2 of 2 docs a 0 docs b 1
301002 remove docs a -> deleted 3
301002 publish docs 0 3 -> done
302003 open docs 24h -> opened 5
302003 search 5 -> 1 of 1 docs b 0
302003 close 3 4 5 -> closed 1
302003 quiet -> done
302003 create logs -> done
302003 open logs 1m -> opened 6
302003 close 6 -> closed 5
";

const SHARDS: &str = "
0 create docs -> exists
0 put logs a n=1 -> no index
0 create logs -> done
0 create logs -> exists
# A refused write takes no number of its shard.
0 put logs c n=1 -> created 1
0 put logs d n=x -> kind 0
0 put logs d n=2 -> created 2
0 put logs a -> created 1
0 put logs e n=3 -> created 1
0 remove logs e -> deleted 2
0 put docs a n=x -> created 1
0 seal logs -> sealed [1, 0, 0, 2, 2]
# Shards are published one by one, up to what was sealed.
0 publish logs 3 1 -> done
0 publish logs 0 1 -> done
0 publish logs 4 2 -> done
0 publish logs 9 2 -> done
0 open other 1m -> no index
0 open logs 1m -> opened 1
0 search 1 -> 2 of 2 logs a 0 logs c 12884901888 skipped 3 of 5
60001 search 7 -> missing
60001 open docs 1m -> opened 2
60001 search 2 -> 0 of 0 skipped 1 of 1
# A search of an index sees what was published last. Shards that have no such value are skipped.
0 search other find=n/1 -> no index
0 search logs find=n/x -> bad query
0 search logs find=n/1 -> 1 of 1 logs c skipped 4 of 5
0 search logs find=n/2 -> 0 of 0 skipped 5 of 5
0 search logs find=m/1 -> 0 of 0 skipped 5 of 5
0 publish logs 3 2 -> done
0 search logs find=n/2 -> 1 of 1 logs d skipped 4 of 5
0 put logs d n=1 -> updated 3
0 search logs find=n/2 -> 1 of 1 logs d skipped 4 of 5
0 publish logs 3 3 -> done
0 search logs find=n/2 -> 0 of 0 skipped 5 of 5
0 search logs find=n/1 -> 2 of 2 logs c logs d skipped 4 of 5
";

const SORTED: &str = "
0 create logs -> done
0 put logs a n=3 -> created 1
0 put logs b n=1 -> created 1
0 put logs c -> created 1
0 put logs d n=2 -> created 2
0 put logs f n=2 -> created 1
0 publish logs 0 1 -> done
0 publish logs 1 1 -> done
0 publish logs 2 1 -> done
0 publish logs 3 2 -> done
# Five documents: f and d are equal, and c has no number. The first hit is left out.
0 search logs sort=n/asc -> 2 of 5 logs f 2 logs d 2 in 2 steps skipped 1 of 5
0 search logs sort=n/desc -> 2 of 5 logs f 2 logs d 2 in 2 steps skipped 1 of 5
# After a value it is left out too, and all are counted.
0 search logs sort=n/asc after=1 -> 2 of 5 logs d 2 logs a 3 in 2 steps skipped 1 of 5
0 search logs sort=n/desc after=3 -> 2 of 5 logs d 2 logs b 1 in 2 steps skipped 1 of 5
0 search logs sort=n/asc after=3 -> 0 of 5 in 2 steps skipped 1 of 5
0 search logs sort=m/asc -> bad sort
0 search logs sort=n/asc after=x -> bad after
0 search logs sort=m/asc after=x -> bad sort
0 open logs 1m -> opened 1
0 search 1 -> 2 of 5 logs a 0 logs f 4294967296 skipped 1 of 5
";

// Slices of an index of one shard share its places by their ranks, those of five shards whole shards, or by both.
const SLICED: &str = "
0 put docs b -> created 1
0 put docs a -> created 2
0 put docs c -> created 3
0 publish docs 0 3 -> done
0 open docs 1m -> opened 1
0 search 1 slice=0/2 -> 2 of 2 docs b 0 docs c 2
0 search 1 slice=1/2 -> 1 of 1 docs a 1
0 search 1 slice=3/1024 -> 0 of 0
60001 create logs -> done
60001 put logs a n=1 -> created 1
60001 put logs b n=1 -> created 1
60001 put logs c n=1 -> created 1
60001 put logs d n=1 -> created 2
60001 put logs f n=1 -> created 1
60001 publish logs 0 1 -> done
60001 publish logs 1 1 -> done
60001 publish logs 2 1 -> done
60001 publish logs 3 2 -> done
60001 open logs 1m -> opened 2
# Shards that the slice doesn't cover are skipped, and the last one, which has no documents.
60001 search 2 slice=0/2 -> 2 of 2 logs a 0 logs b 8589934592 skipped 3 of 5
60001 search 2 slice=1/2 -> 2 of 3 logs f 4294967296 logs c 12884901888 skipped 3 of 5
60001 search 2 slice=3/5 -> 2 of 2 logs c 12884901888 logs d 12884901889 skipped 4 of 5
60001 search 2 slice=4/5 -> 0 of 0 skipped 5 of 5
60001 search 2 slice=3/9 -> 1 of 1 logs c 12884901888 skipped 4 of 5
60001 search 2 slice=8/9 -> 1 of 1 logs d 12884901889 skipped 4 of 5
60001 search 2 slice=5/9 -> 0 of 0 skipped 4 of 5
";

#[test]
fn histories(rt: HostRuntime) -> Result<(), Fail> {
    for history in [ONE_INDEX, VIEWS, KEPT, SHARDS, SORTED, SLICED] {
        plays(&rt, rt.alloc(), history)?;
    }
    Ok(())
}

#[test]
fn laws() {
    pages_in_turn();
    sound_states();
    one_enumeration();
    slices_share_out();
    each_place_has_a_slice();
}
