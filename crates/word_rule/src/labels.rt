//! What the words of each lock are called, where they are shown.

ghost use Rattle.std.specs.Prelude.{◌≡◌};
ghost use Rattle.word_rule.specs.Labels.{labels_of, shown_by};

use sound_run::LockKind;

/// What the words of a lock are called.
#[derive(Clone, Copy, Debug, PartialEq, Eq, Drop)]
pub enum Labels {
    /// A lock of one word: its high half, and its low half.
    Halves(&'static str, &'static str),
    /// The first word; and behind it groups of words, in each a word of each CPU.
    Groups(&'static str, &'static [&'static str]),
}

impl Labels {
    /// What the words of that lock are called.
    pub fn of(lock: LockKind) -> Labels
        ensures { shown_by result ≡ labels_of lock }
    {
        match lock {
            LockKind::Ticket => Labels::Halves("next", "serving"),
            LockKind::Mcs => Labels::Groups("tail", &["next", "locked"]),
        }
    }
}
