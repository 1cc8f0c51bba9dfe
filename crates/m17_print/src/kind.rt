ghost use Rattle.std.specs.Prelude.{◌≡◌, ◌<◌, ◌≤◌, length};
ghost use Rattle.m17_print.specs.Kinds.{kinds, kind_count, kind_word, kind_place, verdict_kind};

use m17_floor::Verdict;

/// How many kinds there are.
pub const KIND_COUNT: usize = 21;

/// What an entry of a link came to. The word of each kind stands here alone, for lines and summaries.
#[derive(Clone, Copy, Debug, PartialEq, Eq)]
pub enum Kind {
    /// A peer joined.
    Join,
    /// A member asked again for what it has.
    Again,
    /// A member left.
    Leave,
    /// A member was answered that the reflector is there.
    Pong,
    /// A member told that it is there.
    Alive,
    /// A packet opened a stream.
    Opened,
    /// A packet continued a stream.
    Continued,
    /// A packet met a floor that another stream holds.
    Busy,
    /// A packet has the number of the sender's last one.
    Repeat,
    /// A packet has a number behind that.
    Late,
    /// A packet came after its stream had ended.
    AfterEnd,
    /// A packet of a stream that is on for the whole limit on talking.
    TimedOut,
    /// A packet of one that is no member.
    NotMember,
    /// A packet of one that listens only.
    ListenOnly,
    /// Bytes that are no packet.
    Refused,
    /// A packet of a peer that isn't known.
    NotConnected,
    /// A module that isn't served.
    NotServed,
    /// No place was free.
    Full,
    /// A packet that only the reflector says.
    Stray,
    /// Nothing but time went by.
    Quiet,
    /// The socket failed.
    Fault,
}

// The kinds, in the order of a summary.
const KINDS: [Kind; KIND_COUNT] = [
    Kind::Join,
    Kind::Again,
    Kind::Leave,
    Kind::Pong,
    Kind::Alive,
    Kind::Opened,
    Kind::Continued,
    Kind::Busy,
    Kind::Repeat,
    Kind::Late,
    Kind::AfterEnd,
    Kind::TimedOut,
    Kind::NotMember,
    Kind::ListenOnly,
    Kind::Refused,
    Kind::NotConnected,
    Kind::NotServed,
    Kind::Full,
    Kind::Stray,
    Kind::Quiet,
    Kind::Fault,
];

impl Kind {
    /// All kinds, in the order of a summary.
    pub fn all() -> [Kind; KIND_COUNT]
        ensures { result ≡ kinds }
    {
        KINDS
    }

    /// The kind of a packet that was judged.
    #[inline]
    pub fn of_verdict(verdict: Verdict) -> Kind
        ensures { result ≡ verdict_kind verdict }
    {
        match verdict {
            Verdict::Opened => Kind::Opened,
            Verdict::Continued => Kind::Continued,
            Verdict::Busy { .. } => Kind::Busy,
            Verdict::Repeat => Kind::Repeat,
            Verdict::Late { .. } => Kind::Late,
            Verdict::AfterEnd => Kind::AfterEnd,
            Verdict::TimedOut => Kind::TimedOut,
            Verdict::NotMember => Kind::NotMember,
            Verdict::ListenOnly => Kind::ListenOnly,
        }
    }

    /// Its word, as in `after-end`.
    pub fn word(self) -> &'static str
        ensures value { result.now ≡ kind_word self }
        ensures short { length result.now ≤ 13 }
    {
        match self {
            Kind::Join => "join",
            Kind::Again => "again",
            Kind::Leave => "leave",
            Kind::Pong => "pong",
            Kind::Alive => "alive",
            Kind::Opened => "opened",
            Kind::Continued => "continued",
            Kind::Busy => "busy",
            Kind::Repeat => "repeat",
            Kind::Late => "late",
            Kind::AfterEnd => "after-end",
            Kind::TimedOut => "timed-out",
            Kind::NotMember => "not-member",
            Kind::ListenOnly => "listen-only",
            Kind::Refused => "refused",
            Kind::NotConnected => "not-connected",
            Kind::NotServed => "not-served",
            Kind::Full => "full",
            Kind::Stray => "stray",
            Kind::Quiet => "quiet",
            Kind::Fault => "fault",
        }
    }

    /// Its place in the order of a summary, from 0.
    #[inline]
    pub fn place(self) -> usize
        ensures value { result ≡ kind_place self }
        ensures within { result < kind_count }
    {
        self as usize
    }
}
