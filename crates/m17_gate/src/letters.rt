ghost use Rattle.std.specs.Prelude.{◌≡◌, ◌≤◌, length};

/// How many letters a pattern has at most before its `*`, and a callsign in all.
pub(crate) const MOST_LETTERS: usize = 9;

/// What a callsign begins with: one to nine letters, or the `#` of a group and up to eight.
#[derive(Clone, Copy, Debug)]
pub struct Letters {
    bytes: [u8; MOST_LETTERS],
    count: usize,
    ghost within: { count ≤ 9 },
}

impl Letters {
    ghost use Rattle.m17_gate.specs.Patterns.{front_of};

    /// These letters.
    pub(crate) fn new(letters: &[u8]) -> Letters
        requires { length letters.now ≤ 9 }
        ensures { front_of result ≡ letters.now }
    {
        let mut bytes = [0; MOST_LETTERS];
        bytes[..letters.len()].copy_from_slice(letters);
        Letters {
            bytes,
            count: letters.len(),
        }
    }

    /// The letters.
    pub(crate) fn as_bytes(&self) -> &[u8]
        ensures { result.now ≡ front_of self.now }
    {
        &self.bytes[..self.count]
    }
}
