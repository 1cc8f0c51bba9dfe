//! What is shown of a module.
ghost use Rattle.std.specs.Prelude.{◌≡◌, ◌<◌, ◌^◌, slice_index};
ghost use Rattle.m17_board.specs.Glance.{glance_words};
ghost use Rattle.m17_board.specs.declared.glance.Glance.{Glance};

use m17_values::Address;

/// How many words a glance is kept in.
pub const GLANCE_WORDS: usize = 5;

/// What a module's records come to.
#[derive(Clone, Copy, Debug, PartialEq, Eq)]
pub struct Glance {
    /// How many records there are.
    pub records: u64,
    /// How many of them are packets that were admitted.
    pub admitted: u64,
    /// The moment of the last record in milliseconds, or 0.
    pub moment: u64,
    /// Whether somebody talks: the last admitted packet has no end bit, and its member has not left since.
    pub on: bool,
    /// The sender of that packet, or the address 0 where nobody talks.
    pub src: Address,
}

impl Glance {
    // The words that it is kept in.
    pub(crate) fn to_words(self) -> [u64; GLANCE_WORDS]
        ensures words { result ≡ glance_words self }
        ensures within { slice_index result 4 < 2 ^ 48 }
    {
        [
            self.records,
            self.admitted,
            self.moment,
            u64::from(self.on),
            self.src.value(),
        ]
    }

    // The glance that is kept in these words.
    pub(crate) fn of_words(words: &[u64; GLANCE_WORDS]) -> Glance
        requires { slice_index words.now 4 < 2 ^ 48 }
        ensures { (g : Glance) → words.now ≡ glance_words g → result ≡ g }
    {
        let Some(src) = Address::new(words[4]) else {
            unreachable!()
        };
        Glance {
            records: words[0],
            admitted: words[1],
            moment: words[2],
            on: words[3] == 1,
            src,
        }
    }
}
