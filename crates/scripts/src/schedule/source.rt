//! Reading a schedule from a source, piece by piece.

ghost use Rattle.std.specs.Prelude.{◌≡◌, ◌≤◌, true, Err, IfOk, IfErr, OnOk};
ghost use Rattle.event_log.specs.Stream.{counted};
ghost use Rattle.sound_run.specs.declared.limits.TheConstants.{MOST_CPUS};
ghost use Rattle.scripts.specs.ScheduleReading.{SpellsScheduleRest, NamesFirstBadWordOfRest};

use crate::schedule::step_reader::StepReader;
use crate::{Schedule, ScheduleFault};
use event_log::Source;
use record_lines::{SourceFault, feed_all};
use records::Settings;
use std::alloc::Global;

impl Schedule {
    /// Reads the rest of the source, as `read` does its text. A word that can't come is refused as soon as that is known, and
    /// no more is read. Of the text no more is held than the steps, two digits and 4,096 bytes.
    pub fn read_from<S: Source>(
        alloc: Global,
        source: &mut S,
        settings: &Settings,
    ) -> Result<Schedule, SourceFault<ScheduleFault>>
        ensures found { IfOk result (λ steps. SpellsScheduleRest settings.now.cpus (S.remaining source.old) steps) }
        ensures fault { IfErr result (NamesFirstBadWordOfRest settings.now.cpus (S.remaining source.old)) }
        ensures none_failed { OnOk result (S.failed source.new ≡ S.failed source.old) }
        ensures one_failed { result ≡ Err SourceFault.ReadFailed → S.failed source.new ≡ counted true (S.failed source.old) }
        ensures no_other { (result ≡ Err SourceFault.ReadFailed → ⊥) → S.failed source.new ≡ S.failed source.old }
    {
        let steps = steps_from(alloc, source, settings.cpus())?;
        Ok(Schedule { steps })
    }
}

/// Reads the steps of the rest of the source.
fn steps_from<S: Source>(
    alloc: Global,
    source: &mut S,
    cpus: u8,
) -> Result<Vec<u8>, SourceFault<ScheduleFault>>
    requires { (1 ≤ cpus) × (cpus ≤ MOST_CPUS) }
    ensures found { IfOk result (λ steps. SpellsScheduleRest cpus (S.remaining source.old) steps.items) }
    ensures fault { IfErr result (NamesFirstBadWordOfRest cpus (S.remaining source.old)) }
    ensures none_failed { OnOk result (S.failed source.new ≡ S.failed source.old) }
    ensures one_failed { result ≡ Err SourceFault.ReadFailed → S.failed source.new ≡ counted true (S.failed source.old) }
    ensures no_other { (result ≡ Err SourceFault.ReadFailed → ⊥) → S.failed source.new ≡ S.failed source.old }
{
    let mut reader = StepReader::new(alloc, cpus);
    let mut buffer = [0u8; 4096];
    match feed_all(source, &mut reader, &mut buffer) {
        Ok(()) => {}
        Err(fault) => return Err(fault),
    }
    match reader.finish() {
        Ok(steps) => Ok(steps),
        Err(fault) => Err(SourceFault::Reported(fault)),
    }
}
