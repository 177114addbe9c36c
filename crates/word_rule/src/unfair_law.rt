//! A control for fairness: how a lock without a line starves a caller, on a function without effect.

ghost use Rattle.std.specs.Prelude.{◌≡◌, ℕ};
ghost use Rattle.word_rule.specs.{LockDefinition.opening_state, TestAndSet.{test_and_set, done_by, rounds, passed_in}};

/// A test-and-set lock can starve a CPU. Under a schedule that names both CPUs in each round, CPU 0 acquires and releases the object
/// in each, and CPU 1, which looks in between, never gets it. So no bound on rounds, as `calls_end` has it, holds of such a lock.
pub fn one_passes_for_ever()
    ensures { (first n : ℕ) → done_by test_and_set (opening_state test_and_set first) (rounds n) ≡ passed_in n }
{}
