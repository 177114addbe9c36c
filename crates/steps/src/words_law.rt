//! What the words of the program ask for, on a function without effect.

ghost use Rattle.std.specs.{Prelude.{◌≡◌, ◌⊎◌, ◌∷◌, [], List, String, codes, map, string_bytes}, Global.Global};
ghost use Rattle.steps.specs.{Asked.{AskedBy, CanBeAsked, MustHelp, words_for}, declared.arguments.Arguments.Arguments};

/// Words that are the form, as a plain list of words, ask for its files: `read_words` never refuses them as bad. Nor does it
/// refuse the word for help or for the version.
pub fn forms_are_asked()
    ensures each { (words : List (String Global)) (arguments : Arguments) → map string_bytes words ≡ words_for arguments → CanBeAsked arguments → AskedBy words arguments }
    ensures help { (words : List (String Global)) → (map string_bytes words ≡ codes "--help" ∷ []) ⊎ (map string_bytes words ≡ codes "--version" ∷ []) → MustHelp words }
{}
