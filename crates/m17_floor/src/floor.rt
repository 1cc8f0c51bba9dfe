ghost use Rattle.std.specs.Prelude.{◌≡◌, ◌≢◌, ℕ, Bool, ◌<◌, true, false, max, List, length, None, Some, is_none, option_map};
ghost use Rattle.m17_values.specs.declared.member.Member.{Member};
ghost use Rattle.m17_floor.specs.declared.act.Act.{Act};
ghost use Rattle.m17_floor.specs.declared.verdict.Verdict.TheVariants.{NotMember, ListenOnly};
ghost use Rattle.m17_floor.specs.Setup.{FloorSetup};
ghost use Rattle.m17_floor.specs.Acts.{with_act, moment_before, IsMember};
ghost use Rattle.m17_floor.specs.Rule as rule;
ghost use Rattle.m17_floor.specs.Rule.{incoming, frame_from, is_compared, only_if, opened_by, frame_beside, beside_own, verdict_by_frames};
ghost use Rattle.m17_floor.specs.Floor.{admits};
ghost use Rattle.m17_floor.specs.StandsFor.{FloorStandsFor, OwnStandsFor, MaySpeak, HasNoPacket, without, packet_act, join_act, leave_act, IsJudged};

use crate::Verdict;
use m17_stream::{StreamPacket, ahead};
use m17_values::Member;
use std::marker::Model;

/// A floor is given up after 1,600 milliseconds without an admitted frame.
pub const FLOOR_TIMEOUT_MS: u64 = 1_600;

/// The stream of a member's last admitted frame is remembered for 10,000 milliseconds.
pub const STREAM_MEMORY_MS: u64 = 10_000;

// Whether one has talked out the limit, in milliseconds and 0 for none, at this moment: it passed since the floor was
// opened.
fn has_run_out(limit: u64, at: u64, opened: u64) -> bool
    ensures { result ≡ rule.has_run_out limit at opened }
{
    limit != 0 && at.saturating_sub(opened) >= limit
}

// An admitted frame: of whom it is, its stream, its number, whether it ended the stream, its moment, and the moment of
// the frame that opened the floor for it.
#[derive(Clone, Copy, Debug)]
struct AdmittedFrame {
    member: Member,
    sid: u16,
    number: u16,
    last: bool,
    at: u64,
    opened: u64,
    ghost numbered: { number < 32768 },
}

impl AdmittedFrame {
    ghost use Rattle.m17_floor.specs.Kept.{frame_seen};

    // `opened` is the moment of the frame that opened the floor.
    fn of(opened: u64, sender: Member, at: u64, p: &StreamPacket) -> AdmittedFrame
        ensures { frame_seen result ≡ frame_from opened (incoming sender at p.now) }
    {
        AdmittedFrame {
            member: sender,
            sid: p.sid,
            number: p.number,
            last: p.last,
            at,
            opened,
        }
    }

    // Whether the frame has the floor at this moment, under this limit.
    fn has_floor(self, limit: u64, at: u64) -> bool
        ensures { result ≡ rule.has_floor limit at (frame_seen self) }
    {
        !self.last
            && at.saturating_sub(self.at) < FLOOR_TIMEOUT_MS
            && !has_run_out(limit, at, self.opened)
    }
}

/// The floor of a module: its last admitted frame, unless its sender has left, and the limit on talking.
#[derive(Debug, Drop)]
pub struct Floor {
    frame: Option<AdmittedFrame>,
    limit: u64,
}

impl Model for Floor {
    ghost use Rattle.std.specs.Prelude.{option_map};
    ghost use Rattle.m17_floor.specs.Rule.{FloorState};
    ghost use Rattle.m17_floor.specs.Kept.{frame_seen};

    ghost Value = { FloorState };

    ghost view = { λ f. record { frame = option_map frame_seen f.frame; limit = f.limit } };
}

/// One sender's last admitted frame since it joined, with the moment of the frame that opened the floor for it.
#[derive(Debug, Drop)]
pub struct Last {
    frame: Option<AdmittedFrame>,
}

impl Model for Last {
    ghost use Rattle.std.specs.Prelude.{Option, option_map};
    ghost use Rattle.m17_floor.specs.Rule.{Frame};
    ghost use Rattle.m17_floor.specs.Kept.{frame_seen};

    ghost Value = { Option Frame };

    ghost view = { λ f. option_map frame_seen f.frame };
}

impl Last {
    /// Nothing admitted: what is kept of a sender that joins, also of one that was in before.
    pub fn new() -> Last
        ensures none { result ≡ None }
        // It stands for every list without a packet, and for every one that ends with the member's Join.
        ensures stands { (setup : FloorSetup) (acts : List Act) (k : Member) →
            HasNoPacket acts → OwnStandsFor setup acts k result }
        ensures joined { (setup : FloorSetup) (acts : List Act) (k : Member) (at : ℕ) (listens : Bool) →
            OwnStandsFor setup (with_act acts (join_act at k listens)) k result }
    {
        Last { frame: None }
    }

    // A frame of this packet, in an opening that began at this moment.
    pub(crate) fn of(opened: u64, sender: Member, at: u64, p: &StreamPacket) -> Last
        ensures { result ≡ Some (frame_from opened (incoming sender at p.now)) }
    {
        Last {
            frame: Some(AdmittedFrame::of(opened, sender, at, p)),
        }
    }

    // The verdict on a packet that the floor allows: `admitted`, unless the sender's own frame stands against it.
    #[inline(always)]
    fn verdict(
        &self,
        limit: u64,
        sender: Member,
        at: u64,
        p: &StreamPacket,
        admitted: Verdict,
    ) -> Verdict
        ensures { let own = only_if (is_compared p.now.sid at) self.now in
            result ≡ beside_own limit own (incoming sender at p.now) admitted }
    {
        match self.frame {
            Some(own) if own.sid == p.sid && at.saturating_sub(own.at) < STREAM_MEMORY_MS => {
                if own.last {
                    Verdict::AfterEnd
                } else if p.number == own.number {
                    Verdict::Repeat
                } else if !ahead(p.number, own.number) {
                    Verdict::Late { last: own.number }
                } else if has_run_out(limit, at, own.opened) {
                    Verdict::TimedOut
                } else {
                    admitted
                }
            }
            _ => admitted,
        }
    }
}

impl Floor {
    ghost use Rattle.m17_floor.specs.Kept.{frame_seen, continues};

    /// A free floor. `limit` is how long one may talk, in milliseconds; 0 is no limit. It stays the floor's own.
    pub fn new(limit: u64) -> Floor
        ensures free { result.frame ≡ None }
        ensures limit { result.limit ≡ limit }
        // It stands for every list of acts without a packet, in each module with this limit.
        ensures stands { (setup : FloorSetup) (acts : List Act) → setup.limit ≡ limit →
            HasNoPacket acts → FloorStandsFor setup acts result }
    {
        Floor { frame: None, limit }
    }

    // A floor whose last frame is of this packet, in an opening that began at this moment.
    pub(crate) fn of(limit: u64, opened: u64, sender: Member, at: u64, p: &StreamPacket) -> Floor
        ensures frame { result.frame ≡ Some (frame_from opened (incoming sender at p.now)) }
        ensures limit { result.limit ≡ limit }
    {
        Floor {
            frame: Some(AdmittedFrame::of(opened, sender, at, p)),
            limit,
        }
    }

    // The frame that has the floor at this moment.
    fn holder(&self, at: u64) -> Option<AdmittedFrame>
        ensures { option_map frame_seen result ≡ only_if (rule.has_floor self.now.limit at) self.now.frame }
    {
        match self.frame {
            Some(f) if f.has_floor(self.limit, at) => Some(f),
            _ => None,
        }
    }

    /// Whether nobody has the floor at this moment, in milliseconds.
    pub fn is_free(&self, at: u64) -> bool
        ensures { result ≡ is_none (only_if (rule.has_floor self.now.limit at) self.now.frame) }
    {
        self.holder(at).is_none()
    }

    // The verdict on a packet, with nothing changed.
    #[inline(always)]
    pub(crate) fn verdict(&self, sender: Member, at: u64, p: &StreamPacket, own: &Last) -> Verdict
        ensures { result ≡ verdict_by_frames self.now.limit self.now.frame own.now (incoming sender at p.now) }
    {
        match self.holder(at) {
            Some(f) => {
                if f.member == sender && f.sid == p.sid {
                    own.verdict(self.limit, sender, at, p, Verdict::Continued)
                } else {
                    Verdict::Busy { holder: f.member }
                }
            }
            None => own.verdict(self.limit, sender, at, p, Verdict::Opened),
        }
    }

    // The moment of the frame that opened the floor for a packet that is admitted at this moment with this verdict: so the
    // holder is looked for once.
    fn opening(&self, verdict: Verdict, at: u64) -> u64
        ensures { result ≡ opened_by (only_if (λ frame. continues verdict) self.now.frame) at }
    {
        match self.frame {
            Some(f) if matches!(verdict, Verdict::Continued) => f.opened,
            _ => at,
        }
    }

    /// Judges a packet that a member of the floor's module sent, and keeps it if it is admitted. `at` is the module's
    /// moment at the packet, in milliseconds; `own` is what is kept of the sender since it joined, and the sender did
    /// not join to listen only. A floor that another stream holds is `Busy`; a packet of a stream that the sender's own
    /// frame belongs to is `AfterEnd`, `Repeat` or `Late` beside that frame, and `TimedOut` where the limit has run out
    /// since that stream opened the floor; any other is `Opened` or `Continued`, and so admitted.
    // (Inside its callers, with the two verdicts that it is made of, since a call costs a third of the whole.)
    #[inline(always)]
    pub fn judge(&mut self, sender: Member, at: u64, p: &StreamPacket, own: &mut Last) -> Verdict
        // Whatever the two frames are, the verdict is that of the floor rule beside them.
        ensures by_frames { let new = incoming sender at p.now in
            result ≡ verdict_by_frames self.old.limit self.old.frame own.old new }
        // For every list that the floor has come from, the verdict is that of the floor rule, and all keeps standing.
        ensures by_rule { (setup : FloorSetup) (acts : List Act) (moment : ℕ) →
            FloorStandsFor setup acts self.old → OwnStandsFor setup acts sender own.old →
            MaySpeak setup acts sender → at ≡ max (moment_before acts (length acts)) moment →
            IsJudged setup acts (packet_act moment sender p.now) sender result self.new own.new }
        // An admitted packet becomes the floor's last frame and the sender's own, with the moment of its opening.
        ensures admitted { let new = incoming sender at p.now in
            let kept = Some (frame_beside self.old.limit self.old.frame new) in
            admits (Some result) ≡ true → (self.new.frame ≡ kept) × (own.new ≡ kept) }
        // Another one changes nothing.
        ensures refused { admits (Some result) ≡ false →
            (self.new ≡ self.old) × (own.new ≡ own.old) }
        // The limit stays.
        ensures limit { self.new.limit ≡ self.old.limit }
        // It gives one of seven verdicts.
        ensures of_a_speaker { (result ≢ NotMember) × (result ≢ ListenOnly) }
    {
        let verdict = self.verdict(sender, at, p, own);
        if verdict.is_admitted() {
            let frame = AdmittedFrame::of(self.opening(verdict, at), sender, at, p);
            self.frame = Some(frame);
            own.frame = Some(frame);
        }
        verdict
    }

    /// Learns that a member is in no more: because it left, or because its place was taken by a Join, its own or
    /// another's. A floor that it held becomes free; any other floor stays as it is. The limit stays.
    pub fn left(&mut self, m: Member)
        ensures freed { self.new ≡ without m self.old }
        // What stood for a list stands for the list with that Leave, whoever m is, ..
        ensures by_leave { (setup : FloorSetup) (acts : List Act) (moment : ℕ) →
            FloorStandsFor setup acts self.old →
            FloorStandsFor setup (with_act acts (leave_act moment m)) self.new }
        // .. and for the list with a Join at the place where m was in.
        ensures by_join { (setup : FloorSetup) (acts : List Act) (moment : ℕ) (k : Member) (listens : Bool) →
            FloorStandsFor setup acts self.old →
            IsMember setup.places acts m (length acts) → k.place ≡ m.place →
            FloorStandsFor setup (with_act acts (join_act moment k listens)) self.new }
    {
        if let Some(frame) = self.frame
            && frame.member == m
        {
            self.frame = None;
        }
    }
}
