ghost use Rattle.std.specs.Prelude.{◌≡◌, ◌≤◌, ◌++◌, length, is_some, option_and_then, option_map, None, Some, IfOk, IsTrue, if◌then◌else◌};
ghost use Rattle.std.specs.Option.{ForSome};
ghost use Rattle.m17_floor.specs.declared.verdict.Verdict.TheVariants.{Continued};
ghost use Rattle.m17_floor.specs.Acts.{is_packet};
ghost use Rattle.m17_floor.specs.Floor.{admits};
ghost use Rattle.m17_module.specs.Recording.{is_going_on, due_of, with_given};
ghost use Rattle.m17_module.specs.Events.{kind_of};
ghost use Rattle.m17_module.specs.Items.{echo_items, says};
ghost use Rattle.m17_module.specs.StandsFor.{PeopleAnswer};
ghost use Rattle.m17_module.specs.Following.{leaver, FloorFollows, RecordsHolder, turned, recording_heard, recording_then, unless_any};

use crate::Parrot;
use crate::basket::Tray;
use crate::room::Room;
use m17_control::{Body, Event};
use m17_floor::Verdict;
use m17_stream::StreamPacket;
use m17_values::{Member, NoMemory};
use std::alloc::Global;

// What a parrot module has beside its room: its recording.
#[derive(Debug, Drop)]
pub(crate) struct Recorder {
    pub(crate) parrot: Parrot,
}

impl Recorder {
    pub(crate) fn make(alloc: Global) -> Result<Recorder, NoMemory>
        ensures { IfOk result (λ r. r.parrot ≡ None) }
    {
        let parrot = Parrot::make(alloc)?;
        Ok(Recorder { parrot })
    }

    // Closes a recording if nobody has the floor any more, and gives a frame that is due.
    fn turn(&mut self, room: &Room, at: u64) -> Option<(Member, StreamPacket)>
        ensures echo { result
            ≡ option_and_then (due_of at) (turned at room.now.floor self.old.parrot) }
        ensures given { self.new.parrot
            ≡ option_map (with_given at) (turned at room.now.floor self.old.parrot) }
    {
        if room.is_free(at) {
            self.parrot.close(at);
        }
        self.parrot.due(at)
    }

    // Learns who is in no more.
    fn left(&mut self, leaver: &Option<Member>)
        ensures { self.new.parrot ≡ unless_any leaver.now self.old.parrot }
    {
        if let Some(m) = leaver {
            self.parrot.gone(*m);
        }
    }

    // Records an admitted packet; the end bit closes the recording.
    fn hear(&mut self, k: Member, at: u64, p: &StreamPacket, verdict: Verdict)
        requires { verdict ≡ Continued → IsTrue (is_going_on self.old.parrot) }
        ensures { self.new.parrot
            ≡ recording_heard at k p.now verdict self.old.parrot }
    {
        match verdict {
            Verdict::Opened => self.parrot.opened(k),
            Verdict::Continued => (),
            _ => return,
        }
        self.parrot.keep(p);
        if p.last {
            self.parrot.close(at);
        }
    }

    // Learns what has happened: who left by the event, and what its packet was answered.
    fn learn(&mut self, leaver: &Option<Member>, event: &Event, at: u64, answer: &Option<Verdict>)
        requires going_on { answer.now ≡ Some Continued → IsTrue (is_going_on self.old.parrot) }
        requires packets { is_some answer.now ≡ is_packet (kind_of event.now.body) }
        ensures { self.new.parrot
            ≡ recording_then leaver.now at event.now.body answer.now self.old.parrot }
    {
        match &event.body {
            Body::Packet { member, packet } => {
                if let Some(verdict) = answer {
                    self.hear(*member, at, packet, *verdict);
                }
            }
            _ => self.left(leaver),
        }
    }

    // What an event does to the room and to the recording, and what the two say.
    pub(crate) fn happen(
        &mut self,
        room: &mut Room,
        event: &Event,
        at: u64,
        position: u64,
        out: &mut Tray,
    ) -> Option<Verdict>
        requires room { length out.old ≤ 256 }
        requires tuned { RecordsHolder at room.old.floor self.old.parrot }
        ensures tuned { RecordsHolder at room.new.floor self.new.parrot }
        ensures told { let recording = turned at room.old.floor self.old.parrot in
            out.new ≡ (out.old
            ++ echo_items position room.old.seats (option_and_then (due_of at) recording))
            ++ says (record {
              seats = room.old.seats;
              position = position;
              link = event.now.tag.link;
              admitted = admits result;
            }) event.now.body }
        ensures recorded { let recording = turned at room.old.floor self.old.parrot in
            self.new.parrot
            ≡ recording_then (leaver room.old.seats event.now.body) at event.now.body result
            (option_map (with_given at) recording) }
        ensures length { length room.new.seats ≡ length room.old.seats }
        ensures limit { room.new.floor.limit ≡ room.old.floor.limit }
        ensures floor { FloorFollows room.old.seats at event.now.body result room.old.floor
            room.new.floor }
        ensures answer { is_some result ≡ is_packet (kind_of event.now.body) }
        ensures stands { PeopleAnswer event.now at result room.old room.new }
    {
        if let Some((k, packet)) = self.turn(room, at) {
            room.play(k, position, &packet, out);
        }
        let leaver = room.leaver(event);
        let answer = room.happen(event, at, position, out);
        self.learn(&leaver, event, at, &answer);
        answer
    }
}

// What an event does to the room, and to the recording of a parrot module, and what it gives.
pub(crate) fn happen(
    recorder: &mut Option<Recorder>,
    room: &mut Room,
    event: &Event,
    at: u64,
    position: u64,
    out: &mut Tray,
) -> Option<Verdict>
    requires room { length out.old ≤ 256 }
    requires tuned { ForSome recorder.old (λ r. RecordsHolder at room.old.floor r.parrot) }
    ensures tuned { ForSome recorder.new (λ r. RecordsHolder at room.new.floor r.parrot) }
    ensures told { out.new ≡ (out.old ++ echo_items position room.old.seats
        (option_and_then (λ r. option_and_then (due_of at) (turned at room.old.floor r.parrot))
        recorder.old)) ++ says (record {
          seats = room.old.seats;
          position = position;
          link = event.now.tag.link;
          admitted = admits result;
        }) event.now.body }
    ensures stays { is_some recorder.new ≡ is_some recorder.old }
    ensures recorded { (old new : Recorder) → recorder.old ≡ Some old → recorder.new ≡ Some new →
        new.parrot ≡ recording_then (leaver room.old.seats event.now.body) at event.now.body result
        (option_map (with_given at) (turned at room.old.floor old.parrot)) }
    ensures length { length room.new.seats ≡ length room.old.seats }
    ensures limit { room.new.floor.limit ≡ room.old.floor.limit }
    ensures floor { FloorFollows room.old.seats at event.now.body result room.old.floor
        room.new.floor }
    ensures answer { is_some result ≡ is_packet (kind_of event.now.body) }
    ensures stands { PeopleAnswer event.now at result room.old room.new }
{
    match recorder {
        None => room.happen(event, at, position, out),
        Some(recorder) => recorder.happen(room, event, at, position, out),
    }
}
