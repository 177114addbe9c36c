//! Calls of a caller that has the object, whichever lock its cell has.

ghost use Rattle.std.specs.Prelude.{◌≡◌, ◌≤◌, ◌<◌, ◌↔◌, length, IsErr, IfOk, OnErr};
ghost use Rattle.event_log.specs.Log.{answers, one_step, Fulfils};
ghost use Rattle.word_rule.specs.{Cell.after_steps, Passes.{view_of_hold, run_of_hold}};

use crate::Hold;
use event_log::{MOST_CALLS, NoRoom, SeqObject, Steps};

impl<O: SeqObject> Hold<O> {
    /// Does 1 to 8 calls as one event of the acting CPU, up to and with the first that is refused. It takes no memory.
    pub fn apply(&mut self, calls: &[O::Call]) -> Result<Steps<O>, NoRoom>
        requires some { 0 < length calls.now }
        requires few { length calls.now ≤ MOST_CALLS }
        ensures table { (self.new.inside.outside.seat.table_id ≡ self.old.inside.outside.seat.table_id) × (self.new.inside.outside.key.value ≡ self.old.inside.outside.key.value) }
        ensures stage { self.new.inside.outside.seat.me.0.main.stage ≡ self.old.inside.outside.seat.me.0.main.stage }
        ensures run { run_of_hold self.new ≡ run_of_hold self.old }
        ensures caller { (view_of_hold self.new).caller ≡ (view_of_hold self.old).caller }
        ensures room { IsErr result ↔ (length (view_of_hold self.old).history.log ≡ (view_of_hold self.old).history.limit) }
        ensures steps { IfOk result (λ s. s.list.items ≡ answers O.SeqObject (view_of_hold self.old).history.state calls.now) }
        ensures asked { IfOk result (λ s. Fulfils O.SeqObject calls.now s.list.items) }
        ensures after { IfOk result (λ s. (view_of_hold self.new).history ≡ after_steps O.SeqObject (view_of_hold self.old) s) }
        ensures full { OnErr result (view_of_hold self.new ≡ view_of_hold self.old) }
    {
        let cpu = self.inside.outside.cpu.byte();
        self.inside.logged.apply(cpu, calls)
    }

    /// Does a call as one event of the acting CPU. It takes no memory.
    #[inline]
    pub fn apply_one(&mut self, call: &O::Call) -> Result<O::Reply, NoRoom>
        ensures table { (self.new.inside.outside.seat.table_id ≡ self.old.inside.outside.seat.table_id) × (self.new.inside.outside.key.value ≡ self.old.inside.outside.key.value) }
        ensures stage { self.new.inside.outside.seat.me.0.main.stage ≡ self.old.inside.outside.seat.me.0.main.stage }
        ensures run { run_of_hold self.new ≡ run_of_hold self.old }
        ensures caller { (view_of_hold self.new).caller ≡ (view_of_hold self.old).caller }
        ensures room { IsErr result ↔ (length (view_of_hold self.old).history.log ≡ (view_of_hold self.old).history.limit) }
        ensures reply { IfOk result (λ r. r ≡ (O.answer (view_of_hold self.old).history.state call.now).1) }
        ensures after { IfOk result (λ r. (view_of_hold self.new).history ≡ after_steps O.SeqObject (view_of_hold self.old) (one_step call.now r)) }
        ensures full { OnErr result (view_of_hold self.new ≡ view_of_hold self.old) }
    {
        let cpu = self.inside.outside.cpu.byte();
        self.inside.logged.call(cpu, call)
    }
}
