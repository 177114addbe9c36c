//! The two forms of a record's text.

ghost use Rattle.std.specs.{Prelude.◌≡◌, List.list_all};
ghost use Rattle.kernel_words.specs.{declared.form.Form.TheVariants.One, Forms.{version, most_cpus, has_reply, has_steps, has_done}};

use event_log::{Done, Step};
use kernel_object::{KReply, KernelObject};
use sound_run::MOST_CPUS;

/// The most CPUs of a record 1.
pub const FIRST_MOST_CPUS: u8 = 8;

/// The form of a record's text: the word behind `record`, the most CPUs, how a pool's parameters are spelled, and which
/// replies there are. Record 1 is the form from before owners had quotas.
#[derive(Clone, Copy, Debug, PartialEq, Eq, Drop)]
pub enum Form {
    One,
    Two,
}

/// The form in which records are written.
pub const WRITTEN: Form = Form::Two;

/// Whether record 1 has words for the replies of all steps.
fn are_old(steps: &[Step<KernelObject>]) -> bool
    ensures { result ≡ list_all (λ step. has_reply One step.reply) steps.now }
{
    steps.iter().all(|step| Form::One.has_reply(&step.reply))
}

impl Form {
    /// The word behind `record`.
    pub fn version(self) -> &'static [u8]
        ensures { result.now ≡ version self }
    {
        match self {
            Form::One => b"1",
            Form::Two => b"2",
        }
    }

    /// The most CPUs.
    pub fn most_cpus(self) -> u8
        ensures { result ≡ most_cpus self }
    {
        match self {
            Form::One => FIRST_MOST_CPUS,
            Form::Two => MOST_CPUS,
        }
    }

    /// Whether it has a word for the reply.
    pub fn has_reply(self, reply: &KReply) -> bool
        ensures { result ≡ has_reply self reply.now }
    {
        match self {
            Form::One => *reply != KReply::OverQuota,
            Form::Two => true,
        }
    }

    /// Whether it has words for the replies of all steps.
    pub fn has_steps(self, steps: &[Step<KernelObject>]) -> bool
        ensures { result ≡ has_steps self steps.now }
    {
        match self {
            Form::One => are_old(steps),
            Form::Two => true,
        }
    }

    /// Whether it has words for what was done.
    pub fn has_done(self, done: &Done<KernelObject>) -> bool
        ensures { result ≡ has_done self done.now }
    {
        match done {
            Done::Steps(steps) => self.has_steps(steps.list.as_slice()),
            Done::NoRoom => true,
        }
    }
}
