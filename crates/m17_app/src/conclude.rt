ghost use Rattle.std.specs.Prelude.{◌≡◌, ◌≢◌};
ghost use Rattle.m17_io.specs.Source.{SourceTold};
ghost use Rattle.m17_print.specs.Endings.{last_line, words_refused_line};
ghost use Rattle.m17_app.specs.Status.{status_of, streams, WritesLast};
ghost use Rattle.m17_app.specs.declared.status.Status.TheVariants.{WordsRefused};

use crate::status::Status;
use m17_io::Sink;
use m17_print::{Ending, Line, NoReason, Reason};

// Writes a last line, which may be empty, hands on all that was written, and answers the status, or that the sink
// failed.
pub fn end_with<K: Sink>(out: &mut K, line: &[u8], status: Status) -> Status
    ensures { (source : SourceTold) → WritesLast line.now status result
        (streams source (K.told out.old)) (streams source (K.told out.new)) }
{
    match out.write(line) {
        Ok(()) => match out.flush() {
            Ok(()) => status,
            Err(_) => Status::WriteFailed,
        },
        Err(_) => Status::WriteFailed,
    }
}

// Ends a run that ended so: writes its last line, and hands on all that was written. Where there was no memory, nothing is
// written or handed on.
pub fn conclude<K: Sink, R: Reason>(out: &mut K, ending: &Ending<R>) -> Status
    ensures memory { ending.now ≡ Ending.NoMemory
        → (result ≡ Status.NoMemory) × (out.new ≡ out.old) }
    ensures concluded { ending.now ≢ Ending.NoMemory
        → (source : SourceTold)
        → WritesLast (last_line R.words ending.now) (status_of ending.now) result
        (streams source (K.told out.old)) (streams source (K.told out.new)) }
{
    let status = status_of(ending);
    match status {
        Status::NoMemory => status,
        _ => {
            let mut line = Line::new();
            line.make_last(ending);
            end_with(out, line.bytes(), status)
        }
    }
}

// Ends a run whose words are refused.
pub fn refuse_words<K: Sink>(out: &mut K) -> Status
    ensures { (source : SourceTold) → WritesLast words_refused_line WordsRefused result
        (streams source (K.told out.old)) (streams source (K.told out.new)) }
{
    let ending: Ending<NoReason> = Ending::WordsRefused;
    conclude(out, &ending)
}

// The status of a run that ended so.
fn status_of<R: Reason>(ending: &Ending<R>) -> Status
    ensures { result ≡ status_of ending.now }
{
    match ending {
        Ending::Finished => Status::Finished,
        Ending::Refused { .. } => Status::InputRefused,
        Ending::WordsRefused => Status::WordsRefused,
        Ending::ReadFailed => Status::ReadFailed,
        Ending::WriteFailed => Status::WriteFailed,
        Ending::PortFailed => Status::PortFailed,
        Ending::CrewRefused => Status::CrewRefused,
        Ending::LinkLost => Status::LinkLost,
        Ending::BookFailed => Status::BookFailed,
        Ending::NoMemory => Status::NoMemory,
    }
}
