//! Records from before owners of pages had quotas.

ghost use Rattle.std.specs.Prelude.{◌↔◌};
ghost use Rattle.sound_run.specs.Sound.{Sound};
ghost use Rattle.kernel_words.specs.declared.form.Form.TheVariants.{One};
ghost use Rattle.records.specs.{RecordRanges.{Record, RecordFitsIn}, Runs.opened_of, Unlimited.WasSound};

use event_log::SeqObject;
use kernel_object::KernelObject;
use page_pool::{stays_whole, unlimited_by_full_quotas};

/// A law of records that record 1 can express, without effect: they are sound exactly if they were by the definitions from
/// before quotas.
pub fn sound_as_before()
    ensures { (r : Record) → RecordFitsIn One r → Sound ⟦<KernelObject as SeqObject>⟧ (opened_of r.settings) r.run ↔ WasSound ⟦<KernelObject as SeqObject>⟧ r }
{
    stays_whole();
    unlimited_by_full_quotas();
}
