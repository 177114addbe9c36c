//! A law of lines, on a function without effect.

ghost use Rattle.std.specs.Prelude.{ℕ, ◌≡◌, ◌≤◌, List, true};
ghost use Rattle.custom_records.specs.{Custom.CustomEvent, LineReading.{any_head, custom_object_at, custom_event_at}, LineText.{custom_object_words, log_words, custom_event_words}, Ranges.{most_lines, CustomSettingsFit, EventFits}, Settings.CustomSettings};
ghost use Rattle.record_lines.specs.{FormLaws.ReadsLine, Names.is_name, Reading.words, Words.{NoEnd, sentence}};
ghost use Rattle.judge.specs.OwnLines.{any_log_at};

/// A line is read as an object's, as the head of a log or as an event's exactly if it is the text of one, and as that one. It does
/// nothing.
pub fn lines_are_read()
    ensures object { ReadsLine NoEnd (λ (o : CustomSettings). sentence (custom_object_words o)) CustomSettingsFit (λ line. custom_object_at (words line)) }
    ensures log { ReadsLine NoEnd (λ (l : List ℕ × ℕ). sentence (log_words l.0 l.1)) (λ l. (is_name l.0 ≡ true) × (l.1 ≤ most_lines)) (λ line. any_log_at (words line)) }
    ensures event { ReadsLine NoEnd (λ (e : CustomEvent). sentence (custom_event_words e)) (EventFits any_head) (λ line. custom_event_at any_head (words line)) }
{}
