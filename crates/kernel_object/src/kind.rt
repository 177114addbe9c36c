//! The kinds of objects.

ghost use Rattle.std.specs.Prelude.{◌≡◌};
ghost use Rattle.kernel_object.specs.KindWords.{kind_word, kind_of};

/// The kind of an object.
#[derive(Clone, Copy, Debug, PartialEq, Eq, Drop)]
pub enum Kind {
    Queue,
    Pool,
    Console,
    Sched,
}

impl Kind {
    /// The word that stands for it.
    pub fn word(self) -> &'static [u8]
        ensures { result.now ≡ kind_word self }
    {
        match self {
            Kind::Queue => b"queue",
            Kind::Pool => b"pool",
            Kind::Console => b"console",
            Kind::Sched => b"sched",
        }
    }

    /// The kind that the word stands for.
    #[tactic(auto, unfolding(crate::specs::KindWords::kind_of))]
    pub fn of_word(word: &[u8]) -> Option<Kind>
        ensures { result ≡ kind_of word.now }
    {
        match word {
            b"queue" => Some(Kind::Queue),
            b"pool" => Some(Kind::Pool),
            b"console" => Some(Kind::Console),
            b"sched" => Some(Kind::Sched),
            _ => None,
        }
    }
}
