ghost use Rattle.std.specs.Prelude.{◌≡◌, ℕ, ◌-◌, ◌^◌, ◌≤◌, min, None, Some, OnOk, OnErr, take};
ghost use Rattle.std.specs.Io.KnownBytes.{Appends};
ghost use Rattle.m17_io.specs.Faults.{HasCause};
ghost use Rattle.m17_ports.specs.Told.{told_then};
ghost use Rattle.m17_ports.specs.Ports.{next_number};
ghost use Rattle.m17_net.specs.Files.{AppendsPart, GivesUpWriting, GoesOnWriting};

use crate::book_file::BookFile;
use m17_ports::Book;
use m17_values::Failed;
use std::fs::File;
use std::io::ErrorKind;
use std::marker::Model;

/// A book in a file. Each write goes to the file at once, so what stands there ends with a whole record, as far as the
/// system wrote it whole. A write takes as long as the system takes for it.
#[derive(Drop)]
pub struct FileBook<F: BookFile + Drop = File> {
    file: F,
    faults: u64,
    number: u64,
}

impl<F: BookFile + Drop> Model for FileBook<F> {
    ghost use Rattle.m17_net.specs.Devices.{BookKept};

    ghost Value = { BookKept F };

    ghost view = { λ b. record { file = b.file; faults = b.faults; number = b.number } };
}

impl<F: BookFile + Drop> FileBook<F> {
    ghost use Rattle.m17_net.specs.Devices.{BookKept, new_book};

    /// A book in this file, which is the book of this number.
    pub fn new(file: F, number: u64) -> FileBook<F>
        ensures { result ≡ new_book file number }
    {
        FileBook {
            file,
            faults: 0,
            number,
        }
    }
}

// Appends the bytes to the file, by as many calls as that takes. A call that was interrupted is made again. After any
// other error, or a call that takes none of the bytes, the file is offered nothing more.
fn append<F: BookFile>(file: &mut F, bytes: &[u8]) -> Result<(), Failed>
    ensures whole { OnOk result (Appends (F.held file.old) (F.held file.new) bytes.now) }
    ensures part { OnErr result (AppendsPart (F.held file.old) (F.held file.new) bytes.now) }
    ensures gone_on { OnOk result (GoesOnWriting (F.answered file.old) (F.answered file.new)) }
    ensures given_up { OnErr result
        (GivesUpWriting (F.answered file.old) (F.answered file.new)) }
{
    if bytes.is_empty() {
        return Ok(());
    }
    let mut at = 0;
    for _ in 0..u64::MAX {
        match file.write_some(&bytes[at..]) {
            Ok(0) => return Err(Failed),
            Ok(n) => {
                at += n;
                if at >= bytes.len() {
                    return Ok(());
                }
            }
            Err(e) => {
                if e.kind() != ErrorKind::Interrupted {
                    return Err(Failed);
                }
            }
        }
    }
    Err(Failed)
}

impl<F: BookFile + Drop> Book for FileBook<F> {
    ghost use Rattle.std.proofs.Math.Nat.{min-le_right};
    ghost use Rattle.m17_net.specs.Devices.{BookKept, file_book_told};

    type Label = ();

    ghost told = { file_book_told };

    ghost faults_fit = { λ b. min-le_right b.faults (2 ^ 64 - 1) };

    fn write(&mut self, bytes: &[u8]) -> Result<(), Failed>
        ensures cause { HasCause (min self.old.faults (2 ^ 64 - 1))
            (min self.new.faults (2 ^ 64 - 1)) result }
        ensures appended { OnOk result (None ≡ told_then {A = ℕ} None bytes.now) }
        ensures prefix { OnErr result
            ((n : ℕ) × (None ≡ told_then {A = ℕ} None (take n bytes.now))) }
        ensures same_device { self.new.number ≡ self.old.number }

        // All of the bytes are appended to its file.
        ensures whole { OnOk result
            (Appends (F.held self.old.file) (F.held self.new.file) bytes.now) }

        // It makes another call only after one that took some of them or was interrupted, and fails only after one that
        // did neither, or after 2^64 - 1 calls. The bytes are then appended from the first on, as far as that went.
        ensures gone_on { OnOk result
            (GoesOnWriting (F.answered self.old.file) (F.answered self.new.file)) }
        ensures part { OnErr result
            (AppendsPart (F.held self.old.file) (F.held self.new.file) bytes.now) }
        ensures given_up { OnErr result
            (GivesUpWriting (F.answered self.old.file) (F.answered self.new.file)) }

        // A failure is counted; the rest stays.
        ensures written { OnOk result (self.new ≡ record self.old { file = self.new.file }) }
        ensures failed { OnErr result (self.new ≡ record self.old {
          file = self.new.file;
          faults = next_number self.old.faults;
        }) }
    {
        match append(&mut self.file, bytes) {
            Ok(()) => Ok(()),
            Err(_) => {
                self.faults = self.faults.saturating_add(1);
                Err(Failed)
            }
        }
    }
}
