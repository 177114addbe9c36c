//! What the program's answers say of each other, on a function without effect.

ghost use Rattle.std.specs.{Prelude.{◌≡◌, ℕ, List, Option, Some, String, map, string_bytes}, Global.Global};
ghost use Rattle.mc2_command.specs.{Asked.Asks, Table.{AreNamed, IsForm}, declared.arguments.Arguments.Arguments, Answers.{AnswersSim, RefusesCycle, RefusesUnsound}};
ghost use Rattle.records.specs.{RecordFaults.text_of, RecordRanges.{RecordFits, Record as Shown}};

use auditor::sound_has_no_fault;
use scripts::{KernelObject, no_text_begins_another};

/// Whatever `sim` answered is sound and has an order: where its text is what `merge` reads later, `merge` names neither a
/// fault nor a cycle.
pub fn simulations_have_no_cycle()
    ensures cycle { (held later : Option (List ℕ) → Option (List ℕ)) (settings scripts schedule : List ℕ) (r : Shown) →
        AnswersSim held settings scripts schedule r → RecordFits r →
        (name : Option (List ℕ)) (answer : List ℕ) → later name ≡ Some (text_of r) → RefusesCycle later name answer → ⊥ }
    ensures fault { (held later : Option (List ℕ) → Option (List ℕ)) (settings scripts schedule : List ℕ) (r : Shown) →
        AnswersSim held settings scripts schedule r → RecordFits r →
        (name : Option (List ℕ)) (answer : List ℕ) → later name ≡ Some (text_of r) → RefusesUnsound later name answer → ⊥ }
{
    no_text_begins_another();
    sound_has_no_fault::<KernelObject>();
}

/// Words that are one of the forms, as a plain list of words, ask for what the form says: `read_words` never refuses them as
/// bad.
pub fn forms_are_asked()
    ensures { (words : List (String Global)) (arguments : Arguments) → IsForm arguments (map string_bytes words) → AreNamed arguments → Asks words arguments }
{}
