//! What a receiver writes to its trace.
ghost use Rattle.std.specs.Prelude.{◌≡◌, ◌↔◌, ◌+◌, ◌≤◌, true, List, [], ◌∷◌, ◌++◌, length, if◌then◌else◌};
ghost use Rattle.arrayvec.specs.ArrayVec.{array_vec_len};
ghost use Rattle.m17_values.specs.declared.heard.Heard.{Heard};
ghost use Rattle.m17_ports.specs.Book.{BookTold, HasText};
ghost use Rattle.m17_book.specs.Book.{trace_magic};
ghost use Rattle.m17_book.specs.Entries.{entry_bytes};
ghost use Rattle.m17_receiver.specs.Devices.{trace_text};

use arrayvec::ArrayVec;
use m17_book::{write_entry, write_trace_header};
use m17_ports::Book;
use m17_values::Heard;

/// The most bytes that the header or an entry has.
const SPELLED_BYTES: usize = 101;

// Writes what was heard to the trace, before the first entry its header, in one write. A trace that failed is written
// no more, one that keeps nothing is never written, and nothing is spelled for them; the end has no bytes.
pub(crate) fn write_trace<B: Book>(trace: &mut B, failed: &mut bool, first: bool, entry: &Heard)
    ensures { (start : BookTold B.Label) (heard : List Heard) → (first ≡ true) ↔ (heard ≡ []) →
        HasText start (trace_text heard) failed.old (B.told trace.old) →
        HasText start (trace_text (heard ++ entry.now ∷ [])) failed.new (B.told trace.new) }
{
    m17_ports::laws::books_are_written_in_turn::<B::Label>();
    if *failed || !trace.is_kept() {
        return;
    }
    let bytes = spelled(first, entry);
    if bytes.is_empty() {
        return;
    }
    *failed = trace.write(bytes.as_slice()).is_err();
}

// The bytes of an entry, behind those of the header where it is the first.
fn spelled(first: bool, entry: &Heard) -> ArrayVec<u8, SPELLED_BYTES>
    ensures { result.items ≡ (if first then trace_magic else []) ++ entry_bytes entry.now }
{
    let mut bytes = ArrayVec::new();
    if first {
        add(&mut bytes, &write_trace_header());
    }
    if let Some(more) = write_entry(entry) {
        add(&mut bytes, more.as_slice());
    }
    bytes
}

// Adds bytes at the end.
fn add(bytes: &mut ArrayVec<u8, SPELLED_BYTES>, more: &[u8])
    requires { array_vec_len bytes.old + length more.now ≤ SPELLED_BYTES }
    ensures items { bytes.new.items ≡ bytes.old.items ++ more.now }
    ensures len { array_vec_len bytes.new ≡ array_vec_len bytes.old + length more.now }
{
    bytes.try_extend_from_slice(more).unwrap();
}
