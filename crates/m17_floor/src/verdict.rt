use m17_values::Member;

/// What the floor rule says of a stream packet. A packet is admitted where it is `Opened` or `Continued`.
#[derive(Clone, Copy, Debug, PartialEq, Eq)]
pub enum Verdict {
    /// The packet is admitted, and opens the floor for its stream.
    Opened,
    /// The packet is admitted, and its stream holds the floor already.
    Continued,
    /// Another stream holds the floor: that of `holder`.
    Busy { holder: Member },
    /// The number is that of the sender's last admitted frame of this stream.
    Repeat,
    /// The number isn't ahead of `last`, that of the sender's last admitted frame of this stream.
    Late { last: u16 },
    /// The sender's last admitted frame of this stream was the stream's last one.
    AfterEnd,
    /// The sender's last admitted frame of this stream is of an opening that has run out the limit on talking.
    TimedOut,
    /// The sender is no member.
    NotMember,
    /// The sender joined to listen only.
    ListenOnly,
}

impl Verdict {
    ghost use Rattle.std.specs.Prelude.{◌≡◌, Some};
    ghost use Rattle.m17_floor.specs.Floor.{admits};

    /// Whether a packet with this verdict is admitted: `Opened` or `Continued`.
    pub fn is_admitted(self) -> bool
        ensures { result ≡ admits (Some self) }
    {
        matches!(self, Verdict::Opened | Verdict::Continued)
    }
}
