//! The queue behind each lock and in the mutex, and the CPUs that call it.

ghost use Rattle.std.specs.{Prelude.◌≡◌, Arc.arc_value};
ghost use Rattle.word_rule.specs.Cell.{EachAt};
ghost use Rattle.bench.specs.Passes.{IsPassOf, IsPassOf-prop};

use crate::BenchFault;
use crate::calls::{Calls, Pass, Queue};
use crate::words::{Kind, Load};
use event_log::Event;
use guarded_cell::AnyCell;
use mcs_lock::McsCell;
use shared_queue::ThreadQueue;
use std::alloc::{AllocError, Global};
use std::sync::{Arc, Mutex, Wait};
use ticket_lock::TicketCell;
use word_rule::LockCell;

/// A queue behind one lock, or behind a lock that was chosen.
#[derive(Drop)]
pub enum Cell {
    Ticket(TicketCell<ThreadQueue>),
    Mcs(McsCell<ThreadQueue>),
    Any(AnyCell<ThreadQueue>),
}

#[derive(Drop)]
pub struct ByLock {
    cell: Arc<Cell>,
    pass: Pass,
    ghost ours: { IsPassOf (arc_value cell) pass } by { IsPassOf-prop (arc_value cell) pass },
}

/// A queue with its log in the mutex of std.
#[derive(Drop)]
pub struct InMutex(Mutex<Queue>);

/// A CPU that calls a queue, whatever guards it.
#[derive(Drop)]
pub enum Caller {
    ByLock(ByLock),
    InMutex(Arc<InMutex>),
}

/// A caller for each pass.
fn share(alloc: Global, cell: Cell, passes: Vec<Pass>) -> Result<Vec<Caller>, BenchFault>
    requires { EachAt (λ _ p. IsPassOf cell p) passes.items }
{
    let shared = Arc::new(alloc, cell)?;
    let mut callers = Vec::new(alloc);
    for pass in passes {
        let cell = Arc::try_clone(&shared)?;
        callers.push(Caller::ByLock(ByLock { cell, pass }))?;
    }
    Ok(callers)
}

/// The callers of a cell that was opened.
macro_rules! shared {
    ($alloc:expr, $cell:path, $opened:expr) => {
        match $opened {
            Ok((cell, passes)) => share($alloc, $cell(cell), passes),
            Err(_) => Err(BenchFault::from(AllocError)),
        }
    };
}

/// Opens a queue for that share of the load: a caller for each CPU, in order.
pub fn open(alloc: Global, kind: Kind, load: &Load, calls: u32) -> Result<Vec<Caller>, BenchFault> {
    let (queue, cpus) = (load.open_queue(alloc, calls)?, load.cpus);
    match kind {
        Kind::Ticket => shared!(alloc, Cell::Ticket, TicketCell::new(alloc, queue, cpus, 0)),
        Kind::Mcs => shared!(alloc, Cell::Mcs, McsCell::new(alloc, queue, cpus)),
        Kind::Any(lock) => shared!(alloc, Cell::Any, AnyCell::open(alloc, lock, queue, cpus)),
        Kind::Mutex => {
            let shared = Arc::new(alloc, InMutex(Mutex::new(queue)))?;
            let callers = (0..cpus).map(|_| Arc::try_clone(&shared).map(|it| Caller::InMutex(it)));
            Ok(callers.try_collect(alloc)?)
        }
    }
}

/// How many events a log has, and how often the CPU changes from one to the next.
fn tally_of(log: &[Event<ThreadQueue>]) -> (usize, usize) {
    let pairs = log.iter().zip(log.iter().skip(1));
    let turns = pairs.filter(|(event, next)| event.cpu != next.cpu).count();
    (log.len(), turns)
}

fn tally_lock<C: LockCell<ThreadQueue>, R: Wait>(rt: &R, cell: &C, pass: C::Pass) -> (usize, usize)
    requires { C.is_pass_of cell.now pass }
{
    let (hold, _looks) = cell.acquire(rt, pass);
    let tally = tally_of(C::logged(&hold).log());
    let _pass = cell.release(rt, hold);
    tally
}

impl Caller {
    /// Makes the calls. What guards the queue is found out once for all of them.
    pub fn call<R: Wait>(self, rt: &R, calls: &Calls) -> Caller {
        match self {
            Caller::ByLock(ByLock { cell, pass }) => {
                let pass = match &*cell {
                    Cell::Ticket(cell) => calls.on(rt, cell, pass),
                    Cell::Mcs(cell) => calls.on(rt, cell, pass),
                    Cell::Any(cell) => calls.on_either(rt, cell, pass),
                };
                Caller::ByLock(ByLock { cell, pass })
            }
            Caller::InMutex(queue) => {
                calls.in_mutex(rt, &queue.0);
                Caller::InMutex(queue)
            }
        }
    }

    /// Counts what is in the queue's log.
    pub fn tally<R: Wait>(self, rt: &R) -> (usize, usize) {
        match self {
            Caller::ByLock(ByLock { cell, pass }) => match &*cell {
                Cell::Ticket(cell) => tally_lock(rt, cell, pass),
                Cell::Mcs(cell) => tally_lock(rt, cell, pass),
                Cell::Any(cell) => tally_lock(rt, cell, pass),
            },
            Caller::InMutex(queue) => tally_of(queue.0.lock(rt).log()),
        }
    }
}
