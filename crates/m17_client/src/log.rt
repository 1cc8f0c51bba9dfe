//! What a client's steps ask for, done: what is said, and the log of kept packets.

ghost use Rattle.std.specs.Prelude.{◌≡◌, List, ℕ, false, [], ◌∷◌, ◌++◌, ◌-◌, ◌^◌};
ghost use Rattle.std.specs.List.{flat_map};
ghost use Rattle.m17_ports.specs.Mouth.{MouthTold, SaidOf};
ghost use Rattle.m17_ports.specs.Book.{BookTold};
ghost use Rattle.m17_client.specs.TalkDevices.{datagrams_to, kept_by, kept_record, said_by};
ghost use Rattle.m17_client.specs.TalkSoFar.{IsLogged};

use crate::Action;
use m17_fields::put;
use m17_ports::laws::{books_are_written_in_turn, mouths_say_in_turn};
use m17_ports::{Book, Mouth};
use m17_stream::StreamPacket;
use m17_values::Peer;

/// How many bytes a record of a kept packet has: its moment in 8, its talker in 2, and the packet in 54.
const RECORD_BYTES: usize = 64;

const TALKER_AT: usize = 8;

const PACKET_AT: usize = 10;

// How many packets were kept, counted to 2^64 - 1, and whether the book has failed.
#[derive(Debug, Drop)]
pub(crate) struct Log {
    pub(crate) kept: u64,
    pub(crate) failed: bool,
}

impl Log {
    /// Nothing was kept yet.
    pub(crate) fn new() -> Log
        ensures kept { result.kept ≡ 0 }
        ensures failed { result.failed ≡ false }
    {
        Log {
            kept: 0,
            failed: false,
        }
    }

    /// Does what a step of a client at this moment asked for, in order: a datagram that the mouth fails to send is
    /// lost.
    pub(crate) fn carry_out<M: Mouth, B: Book>(
        &mut self,
        moment: u64,
        actions: &[Action],
        to: &Peer,
        mouth: &mut M,
        book: &mut B,
    )
        ensures said { (start : MouthTold M.Label) (before : List (List ℕ))
            → SaidOf start (datagrams_to to.now before) (M.told mouth.old)
            → SaidOf start (datagrams_to to.now (before ++ flat_map said_by actions.now))
            (M.told mouth.new) }
        ensures logged { (start : BookTold B.Label) (before : List (List ℕ))
            → IsLogged start before self.old (B.told book.old)
            → IsLogged start (before ++ flat_map (kept_by moment) actions.now) self.new
            (B.told book.new) }
    {
        for action in actions {
            match action {
                Action::Say(bytes) => say(to, bytes.as_slice(), mouth),
                Action::Keep(packet) => self.keep(moment, packet, book),
            }
        }
    }

    // Keeps a packet that reached the client at this moment. A book that failed is written no more.
    fn keep<B: Book>(&mut self, moment: u64, packet: &StreamPacket, book: &mut B)
        ensures { (start : BookTold B.Label) (before : List (List ℕ))
            → IsLogged start before self.old (B.told book.old)
            → IsLogged start (before ++ kept_record moment packet.now ∷ []) self.new
            (B.told book.new) }
    {
        books_are_written_in_turn::<B::Label>();
        self.kept = self.kept.saturating_add(1);
        if !self.failed {
            self.failed = book.write(&record(moment, packet)).is_err();
        }
    }
}

// Says a datagram, which is lost where the mouth fails.
fn say<M: Mouth>(to: &Peer, bytes: &[u8], mouth: &mut M)
    ensures { (start : MouthTold M.Label) (before : List (List ℕ))
        → SaidOf start (datagrams_to to.now before) (M.told mouth.old)
        → SaidOf start (datagrams_to to.now (before ++ bytes.now ∷ [])) (M.told mouth.new) }
{
    mouths_say_in_turn::<M::Label>();
    let _ = mouth.say(to, bytes);
}

// The record of a kept packet, with talker 0.
fn record(moment: u64, packet: &StreamPacket) -> [u8; RECORD_BYTES]
    ensures { result ≡ kept_record moment packet.now }
{
    let mut bytes = [0; RECORD_BYTES];
    put(&mut bytes, 0, &moment.to_be_bytes());
    put(&mut bytes, TALKER_AT, &0u16.to_be_bytes());
    put(&mut bytes, PACKET_AT, &m17_stream::write(packet));
    bytes
}
