//! A caller of an MCS lock that isn't in the queue and whose `next` is clear.

ghost use Rattle.event_log.proofs.Props.{legal_props};
ghost use Rattle.word_rule.specs.{declared.lock_kind.Stage.TheVariants.Trying, Sides.StandsOutside};

use event_log::SeqObject;
use word_rule::Outside;

/// A caller that isn't in the queue and whose `next` is clear, as after `rest`. It can't be dropped: it ends in `arrive`, or in
/// `wake`, which makes it a pass.
pub struct Rested<O: SeqObject> {
    pub(crate) outside: Outside<O>,
    pub ghost rests: { StandsOutside O.SeqObject Trying outside } by { Prim.hlevel legal_props },
}
