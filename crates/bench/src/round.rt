//! Rounds, each of one kind, with a thread for each CPU.

use crate::BenchFault;
use crate::calls::Calls;
use crate::cells::{Caller, open};
use crate::words::{Kind, Load, read};
use std::alloc::Global;
use std::io::Print;
use std::rt::Env;
use std::sync::Wait;
use std::sync::atomic::{AtomicUsize, Ordering};
use std::thread::{self, JoinHandle, Scope, Threads};
use std::time::{Clock, Duration};

/// A CPU's places, each at one queue, in the order in which it goes to them.
type Places = Vec<(Caller, Calls)>;

/// What a CPU, or all CPUs together, leave: the callers, and the times of the first start and the last end.
type Ended = Result<(Vec<Caller>, Duration, Duration), BenchFault>;

/// Opens a queue for each share of the calls, and gives each CPU a place at each.
fn open_all(alloc: Global, kind: Kind, load: &Load) -> Result<Vec<Places>, BenchFault> {
    let mut crew: Vec<Places> = (0..load.cpus).map(|_| Vec::new(alloc)).collect(alloc)?;
    for count in load.shares(alloc)? {
        let (form, turns) = (load.form, load.turns(count));
        let callers = open(alloc, kind, load, count)?;
        for ((cpu, places), caller) in (0..load.cpus).zip(crew.iter_mut()).zip(callers) {
            places.push((caller, Calls { cpu, form, turns }))?;
        }
    }
    Ok(crew)
}

/// Waits until so many are at the gate.
fn pass_gate<R: Wait>(rt: &R, gate: &AtomicUsize, awaited: usize) {
    gate.fetch_add(1, Ordering::SeqCst);
    for _ in rt.forever() {
        if gate.load(Ordering::SeqCst) >= awaited {
            return;
        }
        thread::yield_now();
    }
    unreachable!()
}

/// Makes the calls of all places, one place after another, once so many are at the gate. Memory is taken before.
fn work<R: Wait + Clock>(rt: &R, alloc: Global, gate: (&AtomicUsize, usize), own: Places) -> Ended {
    let room = Vec::with_capacity(alloc, own.len());
    pass_gate(rt, gate.0, gate.1);
    let mut callers = room?;
    let start = rt.monotonic().map_err(|_| BenchFault::NoClock)?;
    for (caller, calls) in own {
        callers.push(caller.call(rt, &calls))?;
    }
    let end = rt.monotonic().map_err(|_| BenchFault::NoClock)?;
    Ok((callers, start, end))
}

/// Starts a thread for each CPU. Where one isn't started, no further one is.
fn start_all<'s, E, R: Threads + Wait + Clock + Sync>(
    scope: &Scope<'s, E>,
    (rt, alloc): (&'s R, Global),
    (gate, awaited): (&'s AtomicUsize, usize),
    crew: Vec<Places>,
    handles: &mut Vec<JoinHandle<Ended>>,
) -> Result<(), BenchFault> {
    for places in crew {
        let Ok(handle) = scope.spawn(move || work(rt, alloc, (gate, awaited), places)) else {
            return Err(BenchFault::NoThreadStarted);
        };
        handles.push(handle)?;
    }
    Ok(())
}

/// Lets each CPU make its calls on a thread of its own, all from one moment on, and waits for all of them: the callers are
/// those of the last. Where a thread isn't started the gate is opened, so that those that run come to their end.
fn on_threads<R: Threads + Wait + Clock + Sync>(rt: &R, alloc: Global, crew: Vec<Places>) -> Ended {
    let mut handles = Vec::with_capacity(alloc, crew.len())?;
    let (own, awaited) = (AtomicUsize::new(0), crew.len());
    let gate = &own;
    thread::scope(thread::scope_env(), rt, move |scope| -> Ended {
        let started = start_all(scope, (rt, alloc), (gate, awaited), crew, &mut handles);
        if started.is_err() {
            gate.fetch_add(awaited, Ordering::SeqCst);
        }
        let mut all = (Vec::new(alloc), Duration::MAX, Duration::ZERO);
        for handle in handles {
            let (callers, start, end) = handle.join(rt)?;
            all = (callers, all.1.min(start), all.2.max(end));
        }
        started.map(|()| all)
    })
}

/// A round, printed in a line of its own: nanoseconds, events, and how often the CPU changed from one to the next.
fn print_round<R: Threads + Wait + Clock + Print + Sync>(
    rt: &R,
    alloc: Global,
    (name, kind): (&str, Kind),
    load: &Load,
) -> Result<(), BenchFault> {
    let (callers, start, end) = on_threads(rt, alloc, open_all(alloc, kind, load)?)?;
    let (mut events, mut turns) = (0usize, 0usize);
    for caller in callers {
        let tally = caller.tally(rt);
        events = events.saturating_add(tally.0);
        turns = turns.saturating_add(tally.1);
    }
    let nanoseconds = end.saturating_sub(start).as_nanos();
    let written = println!(rt; "{name} {nanoseconds} {events} {turns}");
    written.map_err(|_| BenchFault::WriteFailed)
}

/// All rounds that the program's words ask for, a round of each kind after another.
pub fn print_rounds<R: Threads + Wait + Clock + Print + Env + Sync>(
    rt: &R,
    alloc: Global,
) -> Result<(), BenchFault> {
    let asked = read(rt, alloc)?;
    for _ in 0..asked.rounds {
        for (name, kind) in &asked.kinds {
            print_round(rt, alloc, (*name, *kind), &asked.load)?;
        }
    }
    Ok(())
}
