ghost use Rattle.std.specs.Prelude.{◌≡◌, ℕ, List, [], ◌∷◌, Option};
ghost use Rattle.std.specs.Io.{WritesAtMost};
ghost use Rattle.std.specs.Io.KnownBytes.{WriteAppends};
ghost use Rattle.m17_net.specs.Files.{Answer, answer_of};
ghost use Rattle.m17_ports.specs.Told.{told_then};

use std::io;
use std::io::Write;

/// A file, as a book writes to it: each writer of std is one.
pub trait BookFile {
    /// The bytes that it holds, where they are known.
    ghost held: { Self → Option (List ℕ) };

    /// What its calls answered so far, how many bytes each took or the kind of its error, where the file tells that.
    ghost answered: { Self → Option (List Answer) };

    /// Takes some of the bytes, from the first on, and answers how many. After an error it took none.
    fn write_some(&mut self, bytes: &[u8]) -> io::Result<usize>
        ensures within { WritesAtMost result bytes.now }
        ensures held { WriteAppends (held self.old) (held self.new) result bytes.now }
        ensures answered { answered self.new
            ≡ told_then (answered self.old) (answer_of result ∷ []) };
}

// The trusted edge: one call of the writer, which does not tell what its calls answered.
impl<F: Write> BookFile for F {
    ghost use Rattle.std.specs.Prelude.{None};

    ghost held = { λ f. F.contents f };

    ghost answered = { λ _. None };

    fn write_some(&mut self, bytes: &[u8]) -> io::Result<usize> {
        self.write(bytes)
    }
}
