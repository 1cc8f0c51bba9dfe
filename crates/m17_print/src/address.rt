ghost use Rattle.std.specs.Prelude.{◌≡◌, ◌+◌, ◌≤◌, ◌++◌, length};
ghost use Rattle.m17_print.specs.Line.{room};
ghost use Rattle.m17_print.specs.Packets.{address_text};

use crate::Line;
use m17_callsign::{Address, text, to_bytes};

impl Line {
    /// Appends an address: its callsign, as in `AB1CD` or `#AB`; `broadcast`; or else its 12 hex digits, as in
    /// `000000000000`. M17 Protocol Specification, address encoding; the words are this profile's.
    pub fn push_address(&mut self, address: Address)
        requires { length self.old + 12 ≤ room }
        ensures appended { self.new ≡ self.old ++ address_text address }
        ensures longer { length self.new ≤ length self.old + 12 }
    {
        match text(address) {
            Some(callsign) => self.push_text(callsign.as_str()),
            None if address == Address::broadcast() => self.push_text("broadcast"),
            None => self.push_hex(&to_bytes(address)),
        }
    }
}
