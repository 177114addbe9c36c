//! The cell of an MCS lock.

ghost use Rattle.std.specs.Prelude.{◌≡◌, ◌≤◌, ◌+◌, ◌*◌};
ghost use Rattle.sound_run.specs.{declared.limits.TheConstants.MOST_CPUS, declared.lock_kind.LockKind.TheVariants.Mcs};

use event_log::SeqObject;
use word_rule::{LockTable, Resting};

/// An object behind an MCS lock. One that is dropped drops the object.
#[derive(Drop)]
pub struct McsCell<O: SeqObject> {
    pub(crate) table: LockTable<O>,
    pub(crate) resting: Resting,
    pub(crate) cpus: u8,
    ghost few: { cpus ≤ MOST_CPUS },
    ghost kind: { table.table.shared.key.kind ≡ Mcs },
    ghost sized: { (table.table.shared.table_id.words ≡ 1 + 2 * cpus) × (table.table.shared.key.numbers ≡ cpus) },
}
