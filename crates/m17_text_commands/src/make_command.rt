ghost use Rattle.std.specs.Prelude.{◌≡◌, ◌≢◌, ◌≤◌, ℕ, List, ◌++◌, Some, OnOk, OnErr};
ghost use Rattle.m17_io.specs.Faults.{HasCause};
ghost use Rattle.m17_io.specs.Sink.{AppendsPrefix};
ghost use Rattle.m17_values.specs.declared.heard.Heard.TheVariants.{End};
ghost use Rattle.m17_book.specs.Entries.{entry_bytes};
ghost use Rattle.m17_text_commands.specs.Make.{make_text};

use crate::Maker;
use m17_book::{write_entry, write_trace_header};
use m17_io::Sink;
use m17_values::{Failed, Heard};

/// How many entries may be made at the most.
pub const ENTRIES_MAX: u32 = 100_000;

/// Writes the trace of an evening that is drawn from this seed: its header, and `count` entries, 0 to 100,000. `Failed`
/// where the sink failed, and then a first part of the trace stands written.
pub fn make<K: Sink>(seed: u64, count: u32, out: &mut K) -> Result<(), Failed>
    requires { count ≤ 100000 }
    ensures cause { HasCause (K.told out.old).faults (K.told out.new).faults result }
    ensures ok { OnOk result ((before : List ℕ) → (K.told out.old).written ≡ Some before
        → (K.told out.new).written ≡ Some (before ++ make_text seed count)) }
    ensures err { OnErr result ((before : List ℕ) → (K.told out.old).written ≡ Some before
        → AppendsPrefix before (make_text seed count) (K.told out.new).written) }
{
    let header = write_trace_header();
    match out.write(&header) {
        Ok(()) => {}
        Err(failed) => return Err(failed),
    }
    let mut maker = Maker::new(seed);
    for _entry in 0..count {
        match write_heard(maker.next(), out) {
            Ok(()) => {}
            Err(failed) => return Err(failed),
        }
    }
    Ok(())
}

// Writes the entry of what was heard.
fn write_heard<K: Sink>(heard: Heard, out: &mut K) -> Result<(), Failed>
    requires { heard ≢ End }
    ensures cause { HasCause (K.told out.old).faults (K.told out.new).faults result }
    ensures ok { OnOk result ((before : List ℕ) → (K.told out.old).written ≡ Some before
        → (K.told out.new).written ≡ Some (before ++ entry_bytes heard)) }
    ensures err { OnErr result ((before : List ℕ) → (K.told out.old).written ≡ Some before
        → AppendsPrefix before (entry_bytes heard) (K.told out.new).written) }
{
    out.write(write_entry(&heard).unwrap().as_slice())
}
