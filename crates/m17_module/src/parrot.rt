ghost use Rattle.std.specs.Prelude.{◌≡◌, ◌↔◌, ◌≤◌, ◌<◌, None, Some, IfOk, IsTrue, option_map, option_and_then, length};
ghost use Rattle.m17_module.specs.Recording.{most_frames, begun, is_going_on, frames_held, with_frame, closed, unless_of, due_of, with_given, due_after, played};

use m17_stream::StreamPacket;
use m17_values::{Member, NoMemory};
use std::alloc::Global;
use std::marker::Model;

/// How many frames a recording holds at most: half a minute of voice.
pub const MOST_FRAMES: usize = 750;

/// How many milliseconds after its close the first frame of a recording is due.
pub const FIRST_AFTER_MS: u64 = 1_000;

/// How many milliseconds after the one before each further frame is due.
pub const FRAME_EVERY_MS: u64 = 40;

/// What became of a frame that was to be kept.
#[derive(Clone, Copy, Debug, PartialEq, Eq)]
pub enum Kept {
    /// It is held.
    Held,
    /// The recording holds 750 frames already, and nothing changed.
    Full,
}

/// The recording of a parrot module: of whom it is, the frames held, its close, and how many frames were given. There is
/// none at first, and none once its member has gone. Contracts see the recording.
#[derive(Debug, Drop)]
pub struct Parrot {
    member: Option<Member>,
    frames: Vec<StreamPacket>,
    close: Option<u64>,
    given: usize,
}

impl Model for Parrot {
    ghost use Rattle.std.specs.Prelude.{◌≤◌, Option, option_map, length, vec_capacity};
    ghost use Rattle.m17_module.specs.Recording.{Recording, most_frames};

    ghost Value = { Option Recording };

    ghost view = { λ p. option_map
        (λ k. record { member = k; frames = p.frames.items; close = p.close; given = p.given })
        p.member };

    ghost invariant = { λ p. (most_frames ≤ vec_capacity p.frames)
        × (length p.frames.items ≤ most_frames) × (p.given ≤ length p.frames.items) };
}

// How long after the close this frame is due, in milliseconds.
fn due_after_ms(n: usize) -> u64
    requires { n ≤ most_frames }
    ensures { result ≡ due_after n }
{
    FIRST_AFTER_MS + FRAME_EVERY_MS * n as u64
}

// A frame as it is played back.
fn played_back(p: &StreamPacket, is_last: bool) -> StreamPacket
    ensures { result ≡ played is_last p.now }
{
    let mut packet = *p;
    packet.sid = u16::MAX - p.sid;
    packet.last = is_last || p.last;
    packet
}

impl Parrot {
    /// A parrot without a recording, with room for 750 frames. It fails only where there is no memory.
    pub fn make(alloc: Global) -> Result<Parrot, NoMemory>
        ensures { IfOk result (λ parrot. parrot ≡ None) }
    {
        let frames = Vec::with_capacity(alloc, MOST_FRAMES)?;
        Ok(Parrot {
            member: None,
            frames,
            close: None,
            given: 0,
        })
    }

    /// Forgets all, and records for this member from now on.
    pub fn opened(&mut self, m: Member)
        ensures { self.new ≡ Some (begun m) }
    {
        self.member = Some(m);
        self.frames.clear();
        self.close = None;
        self.given = 0;
    }

    /// Holds a frame of the recording that is going on. It is full exactly where it holds 750 frames, and then nothing
    /// changes.
    pub fn keep(&mut self, p: &StreamPacket) -> Kept
        requires { IsTrue (is_going_on self.old) }
        ensures full { (result ≡ Kept.Full) ↔ (frames_held self.old ≡ most_frames) }
        ensures kept { self.new ≡ option_map (with_frame p.now) self.old }
    {
        if self.frames.len() >= MOST_FRAMES {
            return Kept::Full;
        }
        self.frames.push_reserved(*p);
        Kept::Held
    }

    /// Ends a recording that is going on, at this moment in milliseconds; any other stays as it is.
    pub fn close(&mut self, at: u64)
        ensures { self.new ≡ option_map (closed at) self.old }
    {
        if self.close.is_none() {
            self.close = Some(at);
        }
    }

    /// Forgets all, if this member is the one recorded; else nothing changes.
    pub fn gone(&mut self, m: Member)
        ensures { self.new ≡ option_and_then (unless_of m) self.old }
    {
        if let Some(k) = self.member
            && m == k
        {
            self.member = None;
        }
    }

    /// The next frame not yet given, and the member that it is for, if it is due at this moment in milliseconds: frame n,
    /// counted from 0, is due where `at` is at least 1,000 + 40 n past the close. It has the complement of its stream id,
    /// and as the last one held the end bit. None exactly where no further frame is due, and then nothing changes.
    pub fn due(&mut self, at: u64) -> Option<(Member, StreamPacket)>
        ensures frame { result ≡ option_and_then (due_of at) self.old }
        ensures given { self.new ≡ option_map (with_given at) self.old }
    {
        let (Some(member), Some(close)) = (self.member, self.close) else {
            return None;
        };
        let n = self.given;
        if n >= self.frames.len() || at.saturating_sub(close) < due_after_ms(n) {
            return None;
        }
        self.given = n + 1;
        Some((
            member,
            played_back(&self.frames[n], n + 1 == self.frames.len()),
        ))
    }
}
