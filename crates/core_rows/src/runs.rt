ghost use Rattle.std.specs.Prelude.{◌≡◌, ◌≤◌, [], length, IfOk};
ghost use Rattle.core_steps.specs.Good.{IsGood};
ghost use Rattle.core_steps.specs.Steps.{IsStartGraph};

use core_machine::{RunFault, check_run, start, step};
use core_steps::{
    CoreChannel, CoreState, Event, Step, cores_stay_good, cores_stay_settled, good_cores_tell,
    quiet_cycles_leave_the_reached, runs_go_on, steps_change_one_shard, workers_leave_stores,
};
use graph_model::{Bytes, Entity, Graph, Ids, NoMemory, Record, Records, StoreOp};
use std::alloc::Global;

fn ids(alloc: Global, ids: &[u64]) -> Result<Ids, NoMemory>
    ensures { IfOk result (λ made. made ≡ ids.now) }
{
    Ok(Ids::new(Vec::from_slice(alloc, ids)?))
}

/// The record of an id with these references.
fn record(alloc: Global, id: u64, refs: &[u64]) -> Result<Record, NoMemory>
    ensures { IfOk result (λ made. made ≡ record { id = id; entity = record { type_id = 16; refs = refs.now; plain = [] } }) }
{
    let entity = Entity {
        type_id: 16,
        refs: ids(alloc, refs)?,
        plain: Bytes::new(Vec::new(alloc)),
    };
    Ok(Record { id, entity })
}

/// Two records, of which the first refers to the second.
fn chain(alloc: Global, first: u64, second: u64) -> Result<Records, NoMemory> {
    let first = record(alloc, first, &[second])?;
    let second = record(alloc, second, &[])?;
    Ok(Records::new(vec![in alloc; first, second]?))
}

/// A start in format 1 with two channels.
fn started(
    alloc: Global,
    graph: &Graph,
    next_id: u64,
    number: u64,
    actors: u32,
) -> Result<CoreState, NoMemory>
    requires graph { IsStartGraph graph.now next_id }
    requires actors { actors ≤ 2 }
    ensures good { IfOk result (λ core. IsGood core) }
    ensures channels { IfOk result (λ core. length core.channels ≡ 2) }
    ensures actors { IfOk result (λ core. length core.hands ≤ 2) }
{
    start(alloc, graph, next_id, number, 2, actors, 1)
}

fn empty_graph(alloc: Global) -> Graph
    ensures { IsStartGraph result 1024 }
{
    Graph {
        records: Records::new(Vec::new(alloc)),
    }
}

/// A graph of the root and of id 1024, to which it refers.
fn two_ids(alloc: Global) -> Result<Graph, NoMemory>
    ensures { IfOk result (λ graph. IsStartGraph graph 1025) }
{
    let first = record(alloc, 1, &[1024])?;
    let second = record(alloc, 1024, &[])?;
    let records = Records::new(vec![in alloc; first, second]?);
    Ok(Graph { records })
}

/// A step of the session, which is actor 0.
fn session(shard: u32, event: Event) -> Step {
    Step {
        actor: 0,
        shard,
        event,
    }
}

/// A step of a worker.
fn worker(shard: u32, event: Event) -> Step {
    Step {
        actor: 1,
        shard,
        event,
    }
}

fn store(alloc: Global, first: u64, second: u64, next_id: u64) -> Result<Event, NoMemory> {
    let records = chain(alloc, first, second)?;
    Ok(Event::StoreBegin(StoreOp { records, next_id }))
}

/// Whether the channel has exactly these ids, all pinned.
fn holds(channel: &CoreChannel, want: &[u64]) -> bool {
    channel.pins.as_slice() == want
        && channel.table.len() == want.len()
        && want.iter().all(|id| channel.table.get(*id).is_some())
}

/// Whether the channels have exactly these ids, all pinned.
fn all_hold(core: &CoreState, want: [&[u64]; 2]) -> bool {
    match core.channels.as_slice() {
        [first, second] => holds(first, want[0]) && holds(second, want[1]),
        _ => false,
    }
}

fn fault_of(start: CoreState, steps: &Vec<Step>) -> Option<RunFault>
    requires good { IsGood start }
    requires channels { length start.channels ≡ 2 }
    requires actors { length start.hands ≤ 2 }
{
    match check_run(start, steps) {
        Ok(_core) => None,
        Err(fault) => Some(fault),
    }
}

#[test]
fn a_first_store_puts_its_ids_on_their_channels(rt: HostRuntime) {
    let alloc = rt.alloc();
    let core = started(alloc, &empty_graph(alloc), 1024, 0, 1).expect(&rt, "memory");
    let steps = vec![in alloc;
        session(2, Event::Reserve(2)),
        session(2, store(alloc, 1, 1024, 1025).expect(&rt, "memory")),
        session(0, Event::StorePart),
        session(1, Event::StorePart),
        session(2, Event::StoreEnd),
        session(0, Event::Confirm),
        session(1, Event::Confirm),
        session(0, Event::Tidy),
    ]
    .expect(&rt, "memory");
    let mut core = check_run(core, &steps).expect(&rt, "allowed");
    assert!(rt; all_hold(&core, [&[1024], &[1]]));
    let allowed = step(&mut core, &session(1, Event::Unpin(1))).expect(&rt, "memory");
    assert!(rt; allowed && !all_hold(&core, [&[1024], &[1]]));
    let allowed = step(&mut core, &session(3, Event::Tidy)).expect(&rt, "memory");
    assert!(rt; !allowed);
}

#[test]
fn a_store_ends_once_each_channel_has_its_part(rt: HostRuntime) {
    let alloc = rt.alloc();
    let core = started(alloc, &empty_graph(alloc), 1024, 0, 1).expect(&rt, "memory");
    let steps = vec![in alloc;
        session(2, Event::Reserve(2)),
        session(2, store(alloc, 1, 1024, 1025).expect(&rt, "memory")),
        session(0, Event::StorePart),
        session(2, Event::StoreEnd),
    ]
    .expect(&rt, "memory");
    assert!(rt; fault_of(core, &steps) == Some(RunFault::BadStep { index: 3 }));
}

#[test]
fn a_part_takes_credit(rt: HostRuntime) {
    let alloc = rt.alloc();
    let core = started(alloc, &empty_graph(alloc), 1024, 0, 1).expect(&rt, "memory");
    let steps = vec![in alloc;
        session(2, store(alloc, 1, 1024, 1025).expect(&rt, "memory")),
        session(0, Event::StorePart),
    ]
    .expect(&rt, "memory");
    assert!(rt; fault_of(core, &steps) == Some(RunFault::BadStep { index: 1 }));
}

/// An open cycle, in which the session stores.
fn open_cycle(alloc: Global) -> Result<Vec<Step>, NoMemory> {
    let one = ids(alloc, &[1024])?;
    let again = ids(alloc, &[1024])?;
    let sent = ids(alloc, &[1025])?;
    let steps = vec![in alloc;
        worker(2, Event::BeginCycle),
        worker(2, Event::Reserve(4)),
        worker(0, Event::BeginMark),
        worker(0, Event::MarkSome(one)),
        session(2, Event::Reserve(2)),
        session(2, store(alloc, 1024, 1025, 1026)?),
        session(0, Event::StorePart),
        worker(0, Event::MarkSome(again)),
        worker(1, Event::BeginMark),
        worker(1, Event::Deliver(sent)),
        session(1, Event::StorePart),
    ]?;
    Ok(steps)
}

/// The steps that end the store and close the cycle.
fn closing(alloc: Global, steps: &mut Vec<Step>) -> Result<(), NoMemory> {
    let grey = ids(alloc, &[1, 1025])?;
    let sent = ids(alloc, &[1024])?;
    steps.push(session(2, Event::StoreEnd))?;
    steps.push(worker(1, Event::MarkSome(grey)))?;
    steps.push(worker(0, Event::Deliver(sent)))?;
    steps.push(worker(2, Event::Return(6)))?;
    steps.push(worker(2, Event::ReportBegun(0)))?;
    steps.push(worker(2, Event::ReportBegun(1)))?;
    steps.push(worker(2, Event::CloseCycle))?;
    Ok(())
}

/// The steps that sweep both channels.
fn sweeping(alloc: Global, steps: &mut Vec<Step>) -> Result<(), NoMemory> {
    let first = ids(alloc, &[1024])?;
    let second = ids(alloc, &[1, 1025])?;
    steps.push(worker(0, Event::SweepSome(first)))?;
    steps.push(worker(1, Event::SweepSome(second)))?;
    steps.push(worker(2, Event::ReportSwept(0)))?;
    steps.push(worker(2, Event::ReportSwept(1)))?;
    Ok(())
}

/// A core with ids 1 and 1024, both pinned.
fn both_pinned(alloc: Global) -> Result<CoreState, RunFault>
    ensures good { IfOk result (λ core. IsGood core) }
    ensures channels { IfOk result (λ core. length core.channels ≡ 2) }
    ensures actors { IfOk result (λ core. length core.hands ≤ 2) }
{
    let core = started(alloc, &two_ids(alloc)?, 1025, 1, 2)?;
    let steps = pinning(alloc)?;
    check_run(core, &steps)
}

fn pinning(alloc: Global) -> Result<Vec<Step>, NoMemory> {
    let steps = vec![in alloc;
        session(2, Event::Reserve(1)),
        session(1, Event::Pin(1)),
        session(0, Event::Pin(1024)),
        session(2, Event::Return(1)),
    ]?;
    Ok(steps)
}

#[test]
fn a_cycle_does_not_close_while_credit_is_out(rt: HostRuntime) {
    let alloc = rt.alloc();
    let core = both_pinned(alloc).expect(&rt, "allowed");
    let mut steps = open_cycle(alloc).expect(&rt, "memory");
    steps
        .push(worker(2, Event::CloseCycle))
        .expect(&rt, "memory");
    assert!(rt; fault_of(core, &steps) == Some(RunFault::BadStep { index: 11 }));
}

#[test]
fn a_swept_cycle_keeps_what_was_stored_in_it(rt: HostRuntime) {
    let alloc = rt.alloc();
    let core = both_pinned(alloc).expect(&rt, "allowed");
    let mut steps = open_cycle(alloc).expect(&rt, "memory");
    closing(alloc, &mut steps).expect(&rt, "memory");
    sweeping(alloc, &mut steps).expect(&rt, "memory");
    let core = check_run(core, &steps).expect(&rt, "allowed");
    assert!(rt; all_hold(&core, [&[1024], &[1, 1025]]));
    assert!(rt; core.monitor.closed && core.monitor.swept.all());
}

#[test]
fn the_laws_are_calls(_rt: HostRuntime) {
    cores_stay_good();
    cores_stay_settled();
    quiet_cycles_leave_the_reached();
    steps_change_one_shard();
    workers_leave_stores();
    runs_go_on();
    good_cores_tell();
}
