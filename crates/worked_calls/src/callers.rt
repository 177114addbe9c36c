//! Sixty-four callers of one queue, each on a thread of its own.

ghost use Rattle.std.specs.Prelude.{◌≡◌, IfSome, length};
ghost use Rattle.event_log.specs.Log.{Begins};

use crate::cells::KINDS;
use event_log::Logged;
use guarded_cell::callers_on_threads;
use shared_queue::{QueueCall as Call, ThreadQueue};
use sound_run::LockKind;
use std::alloc::Global;
use std::sync::Wait;
use std::test::Fail;
use std::thread::Threads;

/// The queue after the calls of 64 callers.
pub fn sixty_four_callers<R: Threads + Wait + Sync>(
    rt: &R,
    alloc: Global,
    kind: LockKind,
    queue: Logged<ThreadQueue>,
    scripts: &[Vec<Call>],
) -> Option<Logged<ThreadQueue>>
    requires { length scripts.now ≡ 64 }
    ensures { IfSome result (λ l. Begins queue.log l.log) }
{
    let Ok((queue, _done)) = callers_on_threads(rt, alloc, kind, queue, scripts) else {
        return None;
    };
    Some(queue)
}

#[test]
fn a_queue_is_called_by_64_threads(rt: HostRuntime) -> Result<(), Fail> {
    for kind in KINDS {
        let mut scripts = Vec::new(rt.alloc());
        for _ in 0..64 {
            let calls = [Call::Enq(3), Call::Deq, Call::Len];
            scripts.push(Vec::from_array(rt.alloc(), calls)?)?;
        }
        if scripts.len() != 64 {
            return Err(Fail::new("not 64 callers"));
        }
        let queue = Logged::<ThreadQueue>::open(rt.alloc(), 8, 1000)?;
        let Some(queue) = sixty_four_callers(&rt, rt.alloc(), kind, queue, scripts.as_slice())
        else {
            return Err(Fail::new("no memory"));
        };
        assert_eq!(rt; queue.log().len(), 192);
    }
    Ok(())
}
