//! Reading a line of the scripts.

ghost use Rattle.std.specs.{Prelude.{◌≡◌, [], IfSome, Some}, Option.option_map};
ghost use Rattle.record_lines.specs.Reading.{words};
ghost use Rattle.scripts.specs.{RequestReading.request_at, ScriptText.{IsRequest, Request}};
ghost use Rattle.records.specs.Settings.{SettingsFit};

use arrayvec::ArrayVec;
use event_log::MOST_CALLS;
use kernel_object::KCall;
use kernel_words::list;
use record_lines::number;
use records::{Settings, place};

/// Makes of no calls those that the words of the line spell, read from left to right, and answers the CPU and the object. So
/// they are written once, and not moved out of here.
#[tactic(auto, using(record_lines::proofs::Sentences::words_some), unfolding(crate::specs::RequestReading::request_at))]
#[inline(always)]
fn read(
    settings: &Settings,
    line: &[u8],
    calls: &mut ArrayVec<KCall, MOST_CALLS>,
) -> Option<(u8, u8)>
    requires { calls.old.items ≡ [] }
    ensures value { option_map (λ r. record { cpu = r.0; todo = record { object = r.1; calls = calls.new } }) result ≡ request_at settings.now (words line.now) }
    ensures fit { SettingsFit settings.now }
{
    let cpus = settings.cpus();
    let (cpu, rest) = number(u64::from(u8::MAX), Some(line))?;
    let (object, rest) = place(settings.objects(), rest)?;
    let rest = list::<KCall>(rest, calls)?;
    if cpu < u64::from(cpus) && rest.is_none() {
        Some((cpu as u8, object))
    } else {
        None
    }
}

/// Makes of no calls those of the entry that the line asks for, if it is one, and answers its CPU and its object: a CPU of the
/// settings, the name of one of their objects, and 1 to 8 calls.
#[inline(always)]
pub(crate) fn request(
    settings: &Settings,
    line: &[u8],
    calls: &mut ArrayVec<KCall, MOST_CALLS>,
) -> Option<(u8, u8)>
    requires { calls.old.items ≡ [] }
    ensures found { IfSome result (λ r. IsRequest settings.now line.now (record { cpu = r.0; todo = record { object = r.1; calls = calls.new } })) }
    ensures only { (r : Request) → IsRequest settings.now line.now r → option_map (λ x. record { cpu = x.0; todo = record { object = x.1; calls = calls.new } }) result ≡ Some r }
{
    read(settings, line, calls)
}
