//! A law of counts, on a function without effect.

ghost use Rattle.std.specs.Prelude.{ℕ, List};
ghost use Rattle.custom_records.specs.Ranges.{CustomRecord, CustomRecordFits};
ghost use Rattle.judge.specs.Models.{Model, AreCounts, IsMistold};

/// Some model has the counts, if none is mistold: so what is said of every model that has them isn't said of none.
pub fn some_model_has_the_counts()
    ensures { (r : CustomRecord) → (counts : List ℕ) → CustomRecordFits r → ((x : ℕ) → IsMistold r counts x → ⊥) → (model : Model) × AreCounts model r counts }
{}
