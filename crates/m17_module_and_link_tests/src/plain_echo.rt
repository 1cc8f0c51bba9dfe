use m17_control::{Body, Event};
use m17_floor::Verdict;
use m17_stream::StreamPacket;
use m17_values::Member;

// What a parrot module plays back, looked up anew at each position as it is defined: the events of a module of so many
// places, with this limit on talking, the verdict on each, and of each position below n whether it has an echo.
#[derive(Clone, Copy)]
pub(crate) struct Looked<'a> {
    pub(crate) places: u32,
    pub(crate) limit: u64,
    pub(crate) events: &'a [Event],
    pub(crate) verdicts: &'a [Option<Verdict>],
    pub(crate) echoed: &'a [bool],
}

fn is_admitted(verdict: &Option<Verdict>) -> bool {
    matches!(verdict, Some(Verdict::Opened | Verdict::Continued))
}

impl Looked<'_> {
    fn moment(&self, n: usize) -> u64 {
        let mut moment = 0;
        for (i, event) in self.events.iter().enumerate() {
            if i <= n {
                moment = event.at.max(moment);
            }
        }
        moment
    }

    // The position of the Join by which the member is in before position n.
    fn joined(&self, k: Member, n: usize) -> Option<usize> {
        let mut found = None;
        for (i, event) in self.events.iter().enumerate() {
            if i >= n {
                return found;
            }
            match &event.body {
                Body::Join { member, .. } if member.place == k.place => {
                    found = if *member == k && k.place < self.places {
                        Some(i)
                    } else {
                        None
                    };
                }
                Body::Leave { member, .. } if *member == k => found = None,
                _ => (),
            }
        }
        found
    }

    fn is_in_since(&self, k: Member, o: usize, n: usize) -> bool {
        match self.joined(k, n) {
            Some(j) => j < o,
            None => false,
        }
    }

    fn packet(&self, n: usize) -> Option<(Member, StreamPacket)> {
        match &self.events.get(n)?.body {
            Body::Packet { member, packet } => Some((*member, *packet)),
            _ => None,
        }
    }

    fn is_admitted(&self, n: usize) -> bool {
        match self.verdicts.get(n) {
            Some(verdict) => is_admitted(verdict),
            None => false,
        }
    }

    // Whether somebody has the floor at position n.
    fn is_held(&self, n: usize) -> bool {
        let mut last = None;
        for (i, verdict) in self.verdicts.iter().enumerate() {
            if i < n && is_admitted(verdict) {
                last = Some(i);
            }
        }
        let Some(a) = last else {
            return false;
        };
        let Some((k, packet)) = self.packet(a) else {
            return false;
        };
        !packet.last
            && !self.is_out(n)
            && self.moment(n).saturating_sub(self.moment(a)) < 1_600
            && self.is_in_since(k, a, n)
    }

    // Whether the limit has passed since the last opened position below n.
    fn is_out(&self, n: usize) -> bool {
        match self.opened(n) {
            Some(o) if self.limit > 0 => {
                self.moment(n).saturating_sub(self.moment(o)) >= self.limit
            }
            _ => false,
        }
    }

    // The last opened position below n.
    fn opened(&self, n: usize) -> Option<usize> {
        let mut last = None;
        for (i, verdict) in self.verdicts.iter().enumerate() {
            if i < n && *verdict == Some(Verdict::Opened) {
                last = Some(i);
            }
        }
        last
    }

    // The first position from o on, up to n, that closes what was opened at o.
    fn close(&self, o: usize, n: usize) -> Option<usize> {
        for c in o..self.events.len() {
            let Some((_, packet)) = self.packet(c) else {
                if c <= n && c > o && !self.is_held(c) {
                    return Some(c);
                }
                continue;
            };
            let ends = c < n && self.is_admitted(c) && packet.last;
            if c <= n && (ends || c > o && !self.is_held(c)) {
                return Some(c);
            }
        }
        None
    }

    // Admitted packet q from o on, below n, and how many there are, 750 at most.
    fn held(&self, o: usize, n: usize, q: usize) -> (Option<StreamPacket>, usize) {
        let mut count = 0usize;
        let mut found = None;
        for i in o..self.events.len() {
            if i < n
                && count < 750
                && self.is_admitted(i)
                && let Some((_, packet)) = self.packet(i)
            {
                if count == q {
                    found = Some(packet);
                }
                count += 1;
            }
        }
        (found, count)
    }

    /// The echo at position n, and the member that it is for.
    pub(crate) fn echo(&self, n: usize) -> Option<(Member, StreamPacket)> {
        let o = self.opened(n)?;
        let (k, _) = self.packet(o)?;
        let c = self.close(o, n)?;
        let mut given = 0usize;
        for (i, has_echo) in self.echoed.iter().enumerate() {
            if i > o && i < n && *has_echo {
                given = given.saturating_add(1);
            }
        }
        let (packet, count) = self.held(o, n, given);
        let mut packet = packet?;
        let due = (given as u64).saturating_mul(40).saturating_add(1_000);
        if !self.is_in_since(k, o, n) || self.moment(n).saturating_sub(self.moment(c)) < due {
            return None;
        }
        packet.sid = !packet.sid;
        packet.last = packet.last || given.saturating_add(1) == count;
        Some((k, packet))
    }
}
