//! The four objects, an object with its log, and streams.

ghost use Rattle.std.specs.Prelude.{◌≡◌, true};

use console_ring::{Console, ConsoleCall, ConsoleReply};
use event_log::{Event, Logged, NoRoom, Plain, SeqObject, Sink, Source, Step};
use page_pool::{PagePool, PoolCall, PoolParams, PoolReply};
use shared_queue::{QueueCall as Call, QueueReply as Reply, ThreadQueue};
use std::process::Abort;
use std::test::Fail;
use wake_list::{Sched, SchedCall, SchedParams, SchedReply};

/// The object gives these replies.
fn answers<O: SeqObject, R: Abort>(rt: &R, object: Logged<O>, rows: &[(O::Call, O::Reply)]) {
    let mut object = object;
    for (call, reply) in rows {
        assert!(rt; object.call(0, call) == Ok(*reply));
    }
}

#[test]
fn each_object_answers(rt: HostRuntime) -> Result<(), Fail> {
    let queue = Logged::<ThreadQueue>::open(rt.alloc(), 8, 100)?;
    let rows = [(Call::Enq(3), Reply::Ok), (Call::Deq, Reply::Thread(3))];
    answers(&rt, queue, &rows);
    let pool = Logged::<PagePool>::open(rt.alloc(), PoolParams::unlimited(3), 100)?;
    let rows = [
        (PoolCall::Alloc(1), PoolReply::Page(0)),
        (PoolCall::Free { owner: 1, page: 0 }, PoolReply::Ok),
    ];
    answers(&rt, pool, &rows);
    let console = Logged::<Console>::open(rt.alloc(), 1, 100)?;
    let rows = [
        (ConsoleCall::Put(65), ConsoleReply::Ok),
        (ConsoleCall::Get, ConsoleReply::Byte(65)),
    ];
    answers(&rt, console, &rows);
    let (threads, channels) = (8, 1);
    let sched = Logged::<Sched>::open(rt.alloc(), SchedParams { threads, channels }, 100)?;
    let rows = [
        (SchedCall::Ready(2), SchedReply::Ok),
        (SchedCall::WakeAll(0), SchedReply::Count(0)),
        (SchedCall::Next, SchedReply::Thread(2)),
    ];
    answers(&rt, sched, &rows);
    Ok(())
}

/// Whether a step is this call with this reply, by `==` alone: generic code has no more.
fn is_step<O: SeqObject>(step: &Step<O>, call: O::Call, reply: O::Reply) -> bool
    ensures call { result ≡ true → step.now.call ≡ call }
    ensures reply { result ≡ true → step.now.reply ≡ reply }
{
    step.call == call && step.reply == reply
}

#[test]
fn a_batch_ends_with_a_refusal(rt: HostRuntime) -> Result<(), Fail> {
    let mut queue = Logged::<ThreadQueue>::open(rt.alloc(), 8, 1)?;
    let steps = queue.apply(3, &[Call::Enq(3), Call::Enq(3), Call::Deq])?;
    let [first, second] = steps.list.as_slice() else {
        return Err(Fail::new("not two steps"));
    };
    assert!(rt; is_step(first, Call::Enq(3), Reply::Ok));
    assert!(rt; is_step(second, Call::Enq(3), Reply::Already));
    assert!(rt; queue.log() == [Event { cpu: 3, steps }].as_slice());
    assert_eq!(rt; queue.call(0, &Call::Len), Err(NoRoom));
    assert_eq!(rt; (*queue.params(), queue.limit()), (8, 1));
    assert_eq!(rt; queue.into_log().len(), 1);
    Ok(())
}

#[test]
fn logs_that_are_not_kept(rt: HostRuntime) -> Result<(), Fail> {
    let mut queue = Logged::<ThreadQueue>::open(rt.alloc(), 8, 1)?;
    assert_eq!(rt; queue.call(0, &Call::Enq(3)), Ok(Reply::Ok));
    assert!(rt; queue.keeps_log());
    let mut queue = queue.into_unkept(rt.alloc());
    assert_eq!(rt; queue.call(0, &Call::Deq), Ok(Reply::Thread(3)));
    assert!(rt; queue.log().is_empty());
    let mut queue = Logged::<ThreadQueue>::open_unkept(rt.alloc(), 8)?;
    assert!(rt; queue.apply(3, &[Call::Enq(3), Call::Deq]).is_ok());
    assert!(rt; queue.into_log().is_empty());
    Ok(())
}

#[test]
fn streams_over_memory(rt: HostRuntime) -> Result<(), Fail> {
    let mut sink = Plain::new(Vec::new(rt.alloc()));
    assert_eq!(rt; (sink.write(b"abc"), sink.failed_calls()), (Ok(3), 0));
    assert_eq!(rt; sink.inner.as_slice(), b"abc".as_slice());
    let mut source = Plain::new(b"abc".as_slice());
    let mut buffer = [0; 2];
    for (count, bytes) in [(2, *b"ab"), (1, *b"cb"), (0, *b"cb")] {
        assert_eq!(rt; source.read(&mut buffer), Ok(count));
        assert_eq!(rt; buffer, bytes);
    }
    Ok(())
}
