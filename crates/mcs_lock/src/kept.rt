//! Holders of an MCS lock whose object stays in its slot, for callers whose lock guards other data.

ghost use Rattle.event_log.proofs.Props.{legal_props};
ghost use Rattle.word_rule.specs.{declared.lock_kind.Stage.TheVariants.Mcs, declared.lock_kind.McsStage.TheVariants.{Holding, Alone}, Keeping.IsKeeping};

use event_log::SeqObject;
use word_rule::Outside;

/// A holder whose object is in its slot. It can't be dropped: it ends in `see_kept`.
pub struct Kept<O: SeqObject> {
    pub(crate) outside: Outside<O>,
    pub ghost keeps: { IsKeeping O.SeqObject outside.key.value outside.cpu.number (Mcs Holding) outside.seat.me } by { Prim.hlevel legal_props },
}

/// A holder whose object is in its slot and that saw no follower. It can't be dropped: it ends in `rest_kept`.
pub struct KeptAlone<O: SeqObject> {
    pub(crate) outside: Outside<O>,
    pub ghost keeps: { IsKeeping O.SeqObject outside.key.value outside.cpu.number (Mcs Alone) outside.seat.me } by { Prim.hlevel legal_props },
}
