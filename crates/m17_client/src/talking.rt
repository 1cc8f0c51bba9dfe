ghost use Rattle.std.specs.Prelude.{◌≡◌};
ghost use Rattle.m17_client.specs.declared.state.State.{State};
ghost use Rattle.m17_client.specs.Talk.{IsInOrder};
ghost use Rattle.m17_client.specs.TalkDevices.{HasTalked, devices_told};

use crate::run::Run;
use crate::{Client, State};
use m17_ports::laws::{books_are_written_in_turn, ears_hear_in_turn, mouths_say_in_turn};
use m17_ports::{Book, Ear, Mouth};
use m17_stream::StreamPacket;
use m17_values::Peer;
use std::sync::Wait;

/// What a run of `talk` came to. The client is Closed exactly where neither `ended` nor `lost` holds.
#[derive(Clone, Copy, Debug, PartialEq, Eq)]
pub struct TalkEnd {
    /// The client's state at the end.
    pub state: State,
    /// How many packets it kept, counted to 2^64 - 1.
    pub kept: u64,
    /// Whether the ear said End.
    pub ended: bool,
    /// Whether the ear failed 16 times in a row.
    pub lost: bool,
    /// Whether the book failed; it was written no more then.
    pub book_failed: bool,
}

/// Runs a client over a link: it asks the reflector `to` for its module, says the packets of the script, keeps what it
/// hears in the book, and leaves when it has stayed for `stay` milliseconds after the last packet. The moments of the
/// script are milliseconds since it became connected. Each entry of the ear is one turn: what was heard is stepped, a
/// datagram of another peer as a quiet moment and a Fault not at all; then each record that is due is sent; and then
/// the client leaves, where it is time to. A datagram that the mouth fails to send is lost, and a book that failed is
/// written no more. The run is over at the ear's End, at its 16th Fault in a row, or where the client is Closed. It
/// waits as long as the ear does, and as long as none of the three comes.
pub fn talk<R: Wait, E: Ear, M: Mouth, B: Book>(
    rt: &R,
    ear: &mut E,
    mouth: &mut M,
    book: &mut B,
    to: &Peer,
    client: Client,
    script: &[(u64, StreamPacket)],
    stay: u64,
) -> TalkEnd
    requires idle { client.state ≡ State.Idle }
    requires in_order { IsInOrder script.now }
    ensures { HasTalked
        (record { to = to.now; client = client; script = script.now; stay = stay })
        result
        (devices_told (E.told ear.old) (M.told mouth.old) (B.told book.old))
        (devices_told (E.told ear.new) (M.told mouth.new) (B.told book.new)) }
{
    ears_hear_in_turn::<E::Label>();
    mouths_say_in_turn::<M::Label>();
    books_are_written_in_turn::<B::Label>();
    let mut run = Run::new(client);
    for _ in rt.forever() {
        let entry = ear.hear();
        run.take(entry, to, script, stay, mouth, book);
        if run.is_over() {
            return run.end();
        }
    }
    unreachable!()
}
