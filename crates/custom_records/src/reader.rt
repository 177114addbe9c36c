//! Reading a record, whose text lies whole.

ghost use Rattle.std.specs.Prelude.{◌≡◌, IfOk, IfErr};
ghost use Rattle.custom_records.specs.{CustomForm.no_head, CustomReceived.received_custom, Ranges.{CustomRecord, CustomRecordFits}, RecordFaults.{IsCustomText, IsReadCustom, NamesBadCustomLine}, RecordText.custom_text};
ghost use Rattle.record_lines.specs.{Received.{only_head, IsWholeWith}, Then.ok_map};

use crate::{CustomForm, CustomFormHead, CustomHead};
use record_lines::{LineFault, LinesFault, RecordSink, RecordState, split_line};
use std::alloc::Global;

/// What the head of the record that the text spells says, and the sink, which has received the record. Where the text spells
/// none, the line that is named is the first with which no record goes on.
pub fn read_custom<S: RecordSink<CustomForm>>(
    alloc: Global,
    text: &[u8],
    sink: S,
) -> Result<(CustomHead, S), LinesFault>
    requires { S.received sink ≡ only_head no_head }
    ensures found { IfOk result (λ given. IsCustomText text.now (received_custom (S.received given.1))) }
    ensures head { IfOk result (λ given. given.0 ≡ (S.received given.1).head.so_far) }
    ensures whole { IfOk result (λ given. IsWholeWith (S.received given.1).head (S.received given.1)) }
    ensures fit { IfOk result (λ given. CustomRecordFits (received_custom (S.received given.1))) }
    ensures only { (r : CustomRecord) → CustomRecordFits r → text.now ≡ custom_text r → IsReadCustom r (ok_map (λ given. received_custom (S.received given.1)) result) }
    ensures fault { IfErr result (NamesBadCustomLine text.now) }
{
    let mut state: RecordState<CustomForm, S> = RecordState::new(alloc, sink);
    let mut rest = text;
    let mut number = 1;
    while !state.is_done() {
        let Some((line, after)) = split_line(rest) else {
            return Err(LinesFault::Line(number));
        };
        match state.take(line) {
            Ok(()) => {}
            Err(LineFault::OutOfMemory) => return Err(LinesFault::OutOfMemory),
            Err(LineFault::Refused) => return Err(LinesFault::Line(number)),
        }
        number += 1;
        rest = after;
    }
    if !rest.is_empty() {
        return Err(LinesFault::Line(number));
    }
    let (head, sink) = state.into_received();
    let CustomFormHead { so_far, .. } = head;
    Ok((so_far, sink))
}
