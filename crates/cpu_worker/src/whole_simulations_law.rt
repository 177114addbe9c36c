//! What simulations come to, on a function without effect.

ghost use Rattle.std.specs.Prelude.{◌*◌, ℕ, List, length};
ghost use Rattle.kernel_object.specs.{contracts.object.KernelObjectSeqObject.TheImpl.{ghosts as kernel}, KernelTypes.KernelTodo};
ghost use Rattle.word_rule.specs.{Machine.Rounds.{AllDone, HasRounds, entries_to_do, most_steps}, Machine.World.run};
ghost use Rattle.records.specs.{Runs.AsksFor, Settings.{Settings, SettingsFit}};
ghost use Rattle.scripts.specs.ScriptText.{ScriptsFit};
ghost use Rattle.cpu_worker.specs.Simulation.{new_world, simulated};

use scripts::KernelObject;
use word_rule::scripts_end;

/// Where no CPU has an entry left, the simulation holds each CPU's whole script. So it is behind every schedule that has 9 rounds
/// for each entry; a round is a stretch of the schedule that names each CPU.
pub fn whole_simulations()
    ensures done { (settings : Settings) (scripts : List (List KernelTodo)) (steps : List ℕ) →
        AllDone (run kernel steps (new_world settings scripts)) → AsksFor scripts (simulated settings scripts steps) }
    ensures rounds { (settings : Settings) (scripts : List (List KernelTodo)) (steps : List ℕ) →
        SettingsFit settings → ScriptsFit settings.cpus (length settings.objects) scripts →
        HasRounds settings.cpus (most_steps * entries_to_do (new_world settings scripts).cpus) steps →
        AsksFor scripts (simulated settings scripts steps) }
{
    scripts_end::<KernelObject>();
}
