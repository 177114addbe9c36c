//! A caller of an MCS lock, by what it may do next.

ghost use Rattle.std.specs.Prelude.{◌≡◌};
ghost use Rattle.event_log.proofs.Props.{legal_props};
ghost use Rattle.word_rule.specs.{declared.lock_kind.Stage.TheVariants.{Mcs, Trying}, declared.lock_kind.McsStage.TheVariants.{Ready, Behind, Armed, Waiting, Alone, Leaving, Passing}, Rule.Announced.IsElse, Sides.{StandsOutside, StandsInside}};

use event_log::SeqObject;
use word_rule::{Hold, Inside, Outside};

/// A caller whose `next` is clear. It can't be dropped: it ends in `enter`.
pub struct Ready<O: SeqObject> {
    pub(crate) outside: Outside<O>,
    pub ghost ready: { StandsOutside O.SeqObject (Mcs Ready) outside } by { Prim.hlevel legal_props },
}

/// A caller whose `next` is clear for a try. It can't be dropped: it ends in `try_enter`.
pub struct Trying<O: SeqObject> {
    pub(crate) outside: Outside<O>,
    pub ghost tries: { StandsOutside O.SeqObject Trying outside } by { Prim.hlevel legal_props },
}

/// A caller in the queue behind the CPU `ahead`. It can't be dropped: it ends in `arm`.
pub struct Behind<O: SeqObject> {
    pub(crate) outside: Outside<O>,
    pub(crate) ahead: u32,
    pub ghost behind: { StandsOutside O.SeqObject (Mcs (Behind ahead)) outside } by { Prim.hlevel legal_props },
    pub ghost other: { IsElse outside.seat.me.0 ahead },
}

impl<O: SeqObject> Behind<O> {
    /// The CPU that it is behind.
    pub fn ahead(&self) -> u32
        ensures { result ≡ self.now.ahead }
    {
        self.ahead
    }
}

/// The same, whose `locked` is set. It can't be dropped: it ends in `link`.
pub struct Armed<O: SeqObject> {
    pub(crate) outside: Outside<O>,
    pub(crate) ahead: u32,
    pub ghost armed: { StandsOutside O.SeqObject (Mcs (Armed ahead)) outside } by { Prim.hlevel legal_props },
    pub ghost other: { IsElse outside.seat.me.0 ahead },
}

/// A caller in the queue that the one before it can see. It can't be dropped: it ends in a look that gets the object.
pub struct Waiting<O: SeqObject> {
    pub(crate) outside: Outside<O>,
    pub ghost waits: { StandsOutside O.SeqObject (Mcs Waiting) outside } by { Prim.hlevel legal_props },
}

/// A holder that saw nobody behind it. It can't be dropped: it ends in `empty`.
pub struct Alone<O: SeqObject> {
    pub(crate) inside: Inside<O>,
    pub ghost alone: { StandsInside O.SeqObject (Mcs Alone) inside } by { Prim.hlevel legal_props },
}

/// A holder that isn't the last, and hasn't seen who is behind it. It can't be dropped: it ends in a see that finds one.
pub struct Leaving<O: SeqObject> {
    pub(crate) inside: Inside<O>,
    pub ghost leaves: { StandsInside O.SeqObject (Mcs Leaving) inside } by { Prim.hlevel legal_props },
}

/// A holder that saw the CPU `follower` behind it. It can't be dropped: it ends in `pass_on`.
pub struct Passing<O: SeqObject> {
    pub(crate) inside: Inside<O>,
    pub(crate) follower: u32,
    pub ghost passes: { StandsInside O.SeqObject (Mcs (Passing follower)) inside } by { Prim.hlevel legal_props },
    pub ghost other: { IsElse inside.outside.seat.me.0 follower },
}

impl<O: SeqObject> Passing<O> {
    /// The CPU that it saw behind it.
    pub fn follower(&self) -> u32
        ensures { result ≡ self.now.follower }
    {
        self.follower
    }
}

/// What a caller is that has entered the queue: it has the object, or is behind another.
pub enum Entered<O: SeqObject> {
    Hold(Hold<O>),
    Behind(Behind<O>),
}
