ghost use Rattle.std.specs.Prelude.{◌≡◌, ◌+◌, ◌≤◌, ◌++◌, ◌∷◌, [], codes, length};
ghost use Rattle.m17_print.specs.Line.{room};
ghost use Rattle.m17_print.specs.Packets.{address_text, control_text};

use crate::Line;
use m17_callsign::CallAddress;
use m17_control::{Control, ModuleLetter};

impl Line {
    // Appends a control packet with its fields.
    pub(crate) fn push_control(&mut self, control: &Control)
        requires { length self.old + 24 ≤ room }
        ensures appended { self.new ≡ self.old ++ control_text control.now }
        ensures longer { length self.new ≤ length self.old + 24 }
    {
        match control {
            Control::Conn { from, module } => self.push_with_module("conn ", *from, *module),
            Control::Lstn { from, module } => self.push_with_module("lstn ", *from, *module),
            Control::Ackn => self.push_text("ackn"),
            Control::Nack => self.push_text("nack"),
            Control::Ping { from } => self.push_with_from("ping ", *from),
            Control::Pong { from } => self.push_with_from("pong ", *from),
            Control::Disc { from: None } => self.push_text("disc"),
            Control::Disc { from: Some(from) } => self.push_with_from("disc ", *from),
        }
    }

    // Appends a word and the callsign of From.
    fn push_with_from(&mut self, word: &str, from: CallAddress)
        requires word_long { length word.now ≡ 5 }
        requires fits { length self.old + 17 ≤ room }
        ensures appended { self.new ≡ self.old ++ (word.now ++ address_text from) }
        ensures longer { length self.new ≤ length self.old + 17 }
    {
        self.push_text(word);
        self.push_address(from.address());
    }

    // Appends a word, the callsign of From and the letter of a module.
    fn push_with_module(&mut self, word: &str, from: CallAddress, letter: ModuleLetter)
        requires word_long { length word.now ≡ 5 }
        requires fits { length self.old + 24 ≤ room }
        ensures appended { self.new ≡ self.old ++ (word.now ++ address_text from ++ codes " " ++
            letter ∷ []) }
        ensures longer { length self.new ≤ length self.old + 24 }
    {
        self.push_with_from(word, from);
        self.push_text(" ");
        self.push_byte(letter.byte());
    }
}
