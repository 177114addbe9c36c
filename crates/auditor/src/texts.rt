//! Texts of records, from a source.

ghost use Rattle.std.specs.Prelude.{◌≡◌, true, Some, Err, IfOk, OnOk, IfErr};
ghost use Rattle.event_log.specs.Stream.{counted};
ghost use Rattle.kernel_words.specs.declared.form.Form.{Form};
ghost use Rattle.records.specs.{RecordFaults.text_in, RecordRanges.{RecordFitsIn, Record as Shown}};
ghost use Rattle.record_lines.specs.Sources.{IsReadOut};
ghost use Rattle.auditor.specs.Audits.{IsVerdictOnText, IsTextFault, IsAudited};

use crate::{RecordJudge, ReferenceKernelObject, Verdict};
use event_log::Source;
use record_lines::TextFault;
use records::read_into;
use std::alloc::Global;

/// Reads the source to its end, in pieces of 4,096 bytes at most, and judges the record that its bytes spell. A bad line
/// never hides that reading failed behind it.
pub fn audit_text<R: Source>(alloc: Global, source: &mut R) -> Result<Verdict, TextFault>
    ensures verdict { IfOk result (IsVerdictOnText (R.remaining source.old)) }
    ensures fault { IfErr result (IsTextFault (R.remaining source.old)) }
    ensures only { (form : Form) (r : Shown) → RecordFitsIn form r → R.remaining source.old ≡ Some (text_in form r) → IsAudited r result }
    ensures to_end { (result ≡ Err TextFault.OutOfMemory → ⊥) → (result ≡ Err TextFault.ReadFailed → ⊥) →
        IsReadOut (R.remaining source.old) (R.remaining source.new) }
    ensures none_failed { OnOk result (R.failed source.new ≡ R.failed source.old) }
    ensures one_failed { result ≡ Err TextFault.ReadFailed → R.failed source.new ≡ counted true (R.failed source.old) }
    ensures no_other { (result ≡ Err TextFault.ReadFailed → ⊥) → R.failed source.new ≡ R.failed source.old }
{
    let judge = RecordJudge::<ReferenceKernelObject>::new(alloc);
    let read = read_into(alloc, source, judge)?;
    Ok(read.1.verdict())
}
