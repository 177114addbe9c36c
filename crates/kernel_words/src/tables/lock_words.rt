//! The words of locks.

ghost use Rattle.std.specs.Prelude.{◌≡◌};
ghost use Rattle.kernel_words.specs.Parameters.{lock_word, lock_of};

use sound_run::LockKind;

/// The word that stands for the lock.
pub fn lock_word(lock: LockKind) -> &'static str
    ensures { result.now ≡ lock_word lock }
{
    match lock {
        LockKind::Ticket => "ticket",
        LockKind::Mcs => "mcs",
    }
}

/// The lock that the word stands for.
#[tactic(auto, unfolding(crate::specs::Parameters::lock_of))]
pub fn lock_of_word(word: &[u8]) -> Option<LockKind>
    ensures { result ≡ lock_of word.now }
{
    match word {
        b"ticket" => Some(LockKind::Ticket),
        b"mcs" => Some(LockKind::Mcs),
        _ => None,
    }
}
