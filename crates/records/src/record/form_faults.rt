//! The bad lines of a text whose first line says its form.

ghost use Rattle.std.specs.Prelude.{◌++◌, ◌∷◌, ◌↔◌, ℕ, List};
ghost use Rattle.kernel_words.specs.declared.form.Form.{Form};
ghost use Rattle.records.specs.{FormFaults.{form_line, IsBadLineIn}, RecordFaults.IsBadLine};

/// A law of texts that begin with the first line of a form, without effect: their first bad line is the one that it was
/// where there is that form alone. So the faults of texts of record 1 are named by the lines that named them before record 2.
pub fn bad_line_of_form()
    ensures { (form : Form) (rest : List ℕ) (n : ℕ) → IsBadLine (form_line form ++ 10 ∷ rest) n ↔ IsBadLineIn form (form_line form ++ 10 ∷ rest) n }
{}
