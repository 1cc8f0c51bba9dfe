ghost use Rattle.std.specs.Prelude.{◌≡◌, ◌+◌, ◌*◌, ◌<◌, ◌≤◌, ◌++◌, length};
ghost use Rattle.m17_print.specs.Line.{room, IsBegun, CanEnd};
ghost use Rattle.m17_print.specs.Packets.{packet_text, stream_text};
ghost use Rattle.m17_print.specs.Parts.{ends_text, hex_field_text, number_text, type_field_text};

use crate::Line;
use m17_control::Packet;
use m17_lsd::{Lsd, type_text};
use m17_stream::StreamPacket;

impl Line {
    /// Appends a packet with all its fields, as in `conn AB1CD A`. M17 Protocol Specification, IP networking; the words
    /// are this profile's.
    pub fn push_packet(&mut self, packet: &Packet)
        requires { IsBegun self.old }
        ensures appended { self.new ≡ self.old ++ packet_text packet.now }
        ensures ends { CanEnd self.new }
    {
        match packet {
            Packet::Stream(stream) => self.push_stream(stream),
            Packet::Control(control) => self.push_control(control),
        }
    }

    // Appends a stream packet.
    fn push_stream(&mut self, packet: &StreamPacket)
        requires { IsBegun self.old }
        ensures appended { self.new ≡ self.old ++ stream_text packet.now }
        ensures ends { CanEnd self.new }
    {
        self.push_hex_field("stream ", &packet.sid.to_be_bytes());
        self.push_ends(&packet.lsd);
        self.push_type_field(packet.lsd.kind);
        self.push_hex_field(" meta ", &packet.lsd.meta);
        self.push_frame_number(packet.number, packet.last);
        self.push_hex_field(" payload ", &packet.payload);
    }

    // Appends the name of a field, and its bytes as hex digits.
    fn push_hex_field(&mut self, name: &str, bytes: &[u8])
        requires { length self.old + length name.now + 2 * length bytes.now ≤ room }
        ensures appended { self.new ≡ self.old ++ hex_field_text name.now bytes.now }
        ensures longer { length self.new
            ≡ length self.old + length name.now + 2 * length bytes.now }
    {
        self.push_text(name);
        self.push_hex(bytes);
    }

    // Appends whom a stream goes to, and who sends it.
    fn push_ends(&mut self, lsd: &Lsd)
        requires { length self.old + 34 ≤ room }
        ensures appended { self.new ≡ self.old ++ ends_text lsd.now }
        ensures longer { length self.new ≤ length self.old + 34 }
    {
        self.push_text(" dst ");
        self.push_address(lsd.dst);
        self.push_text(" src ");
        self.push_address(lsd.src);
    }

    // Appends TYPE, as hex digits and in words.
    fn push_type_field(&mut self, kind: u16)
        requires { length self.old + 51 ≤ room }
        ensures appended { self.new ≡ self.old ++ type_field_text kind }
        ensures longer { length self.new ≤ length self.old + 51 }
    {
        self.push_hex_field(" type ", &kind.to_be_bytes());
        self.push_text(" ");
        self.push_text(type_text(kind).as_str());
    }

    // Appends the number of a frame, and its end bit.
    fn push_frame_number(&mut self, number: u16, last: bool)
        requires fits { length self.old + 35 ≤ room }
        requires numbered { number < 32768 }
        ensures appended { self.new ≡ self.old ++ number_text number last }
        ensures longer { length self.new ≤ length self.old + 20 }
    {
        self.push_text(" number ");
        self.push_number(u64::from(number));
        self.push_text(" last ");
        if last {
            self.push_text("1");
        } else {
            self.push_text("0");
        }
    }
}
