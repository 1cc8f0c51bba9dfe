ghost use Rattle.std.specs.Prelude.{◌≡◌, ◌++◌, codes};
ghost use Rattle.m17_print.specs.Line.{IsBegun, CanEnd};
ghost use Rattle.m17_print.specs.Packets.{address_text, refusal_text};
ghost use Rattle.m17_print.specs.Refused.{magic_text, crc_text, length_text, stream_refusal_text};

use crate::Line;
use m17_callsign::Address;
use m17_control::Refusal;
use m17_stream::StreamRefusal;

impl Line {
    /// Appends why bytes are no stream packet, as in `refused magic 434F4E58`.
    pub fn push_stream_refusal(&mut self, refusal: &StreamRefusal)
        requires { IsBegun self.old }
        ensures appended { self.new ≡ self.old ++ stream_refusal_text refusal.now }
        ensures ends { CanEnd self.new }
    {
        match refusal {
            StreamRefusal::Length(n) => self.push_refused_length(*n as u64),
            StreamRefusal::Magic(magic) => self.push_refused_magic(magic),
            StreamRefusal::Crc { found, expected } => self.push_refused_crc(*found, *expected),
        }
    }

    /// Appends why bytes are no packet, as in `refused address 000000000000`.
    pub fn push_refusal(&mut self, refusal: &Refusal)
        requires { IsBegun self.old }
        ensures appended { self.new ≡ self.old ++ refusal_text refusal.now }
        ensures ends { CanEnd self.new }
    {
        match refusal {
            Refusal::Length(n) => self.push_refused_length(u64::from(*n)),
            Refusal::Magic(magic) => self.push_refused_magic(magic),
            Refusal::Address(number) => self.push_refused_address(*number),
            Refusal::Module(letter) => {
                self.push_text("refused module ");
                self.push_hex(&[*letter]);
            }
            Refusal::Crc { found, expected } => self.push_refused_crc(*found, *expected),
        }
    }

    // Appends the refusal of a length.
    fn push_refused_length(&mut self, n: u64)
        requires { IsBegun self.old }
        ensures appended { self.new ≡ self.old ++ length_text n }
        ensures ends { CanEnd self.new }
    {
        self.push_text("refused length ");
        self.push_number(n);
    }

    // Appends the refusal of a magic.
    fn push_refused_magic(&mut self, magic: &[u8; 4])
        requires { IsBegun self.old }
        ensures appended { self.new ≡ self.old ++ magic_text magic.now }
        ensures ends { CanEnd self.new }
    {
        self.push_text("refused magic ");
        self.push_hex(magic);
    }

    // Appends the refusal of an address. Of a number that has more than 48 bits the low ones are printed.
    fn push_refused_address(&mut self, number: u64)
        requires { IsBegun self.old }
        ensures appended { self.new
            ≡ self.old ++ (codes "refused address " ++ address_text number) }
        ensures ends { CanEnd self.new }
    {
        m17_callsign::laws::each_address_has_one_callsign();
        self.push_text("refused address ");
        match Address::new(number) {
            Some(address) => self.push_address(address),
            None => self.push_hex(&number.to_be_bytes()[2..]),
        }
    }

    // Appends the refusal of a CRC.
    fn push_refused_crc(&mut self, found: u16, expected: u16)
        requires { IsBegun self.old }
        ensures appended { self.new ≡ self.old ++ crc_text found expected }
        ensures ends { CanEnd self.new }
    {
        self.push_text("refused crc ");
        self.push_hex(&found.to_be_bytes());
        self.push_text(" ");
        self.push_hex(&expected.to_be_bytes());
    }
}
