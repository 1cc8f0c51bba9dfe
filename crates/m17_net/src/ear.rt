ghost use Rattle.std.specs.Prelude.{◌≡◌, ◌≢◌, ℕ, ◌-◌, ◌^◌, ◌≤◌, min, suc, true, [], ◌∷◌, None, Some, option_map, ◌↔◌, IfOk, OnOk, OnErr};
ghost use Rattle.m17_io.specs.Faults.{HasRisen};
ghost use Rattle.m17_values.specs.declared.heard.Heard.{Heard};
ghost use Rattle.m17_ports.specs.Told.{told_then};
ghost use Rattle.m17_ports.specs.Ear.{EndsPastCount};
ghost use Rattle.m17_ports.specs.Ports.{next_number};
ghost use Rattle.m17_net.specs.Devices.{ear_found, CountsFault, IsOver, Listens};
ghost use Rattle.m17_net.specs.Moments.{ReadsMoment};
ghost use Rattle.m17_net.specs.Stops.{LooksSo, no_stop};
ghost use Rattle.m17_net.specs.Taking.{Comes, CountsUnread, SaysWhatCame, TellsAt};
ghost use Rattle.m17_net.specs.Waits.{ChoosesWait, IsAlone, IsEarly, WaitsLong, last_came, long_wait, wait_told};
ghost use Rattle.m17_net.specs.Wire.{CountsError};

use crate::stop::Stop;
use crate::taking::{Taken, take_one};
use crate::timer::Timer;
use crate::wire::Wire;
use m17_ports::Ear;
use m17_values::{Failed, Gram, Heard, Peer};
use std::marker::Model;
use std::net::UdpSocket;
use std::time::{Duration, Instant};

/// How long an ear waits for a datagram at the most while somebody may be there, in milliseconds; and how long it rests
/// after an error, so that nothing spins.
pub(crate) const WAIT_MS: u64 = 20;

/// How long an ear waits at the most where nobody is there, in milliseconds.
const LONG_WAIT_MS: u64 = 5_000;

/// The same where something may stop it, so that it sees that within a second.
const STOPPING_WAIT_MS: u64 = 1_000;

/// How long nothing has come where nobody is there, in milliseconds: longer than a reflector keeps a member that is silent,
/// so nobody is left who could be pinged, sent an echo or found silent.
const NOBODY_MS: u64 = 40_000;

/// How far off the end of an ear is at the least where it waits long, in milliseconds: no such wait passes it.
const FAR_MS: u64 = 2 * LONG_WAIT_MS;

/// The receiving half of a UDP socket. Moments are milliseconds since the ports were made. It waits for a datagram for 20 ms
/// at the most; one that may rest waits for 5 seconds where none came for 40 seconds, or none ever, while its end is 10
/// seconds away or more. One that something may stop waits for a second in place of the five; it ends at the first call
/// after that has come.
#[derive(Drop)]
pub struct UdpEar<C: Timer + Drop, W: Wire + Drop = UdpSocket> {
    clock: C,
    wire: W,
    start: Instant,
    until: Option<u64>,
    stop: Stop,
    last: u64,
    // Whether it may wait long, the moment of the last datagram, and whether its socket was told to wait long.
    rests: bool,
    came: Option<u64>,
    long: bool,
    faults: u64,
    number: u64,
}

impl<C: Timer + Drop, W: Wire + Drop> Model for UdpEar<C, W> {
    ghost use Rattle.m17_net.specs.Devices.{EarKept};

    ghost Value = { EarKept C W };

    ghost view = { λ e. record {
      clock = e.clock;
      wire = e.wire;
      start = e.start;
      until = e.until;
      stop = e.stop;
      last = e.last;
      rests = e.rests;
      came = e.came;
      long = e.long;
      faults = e.faults;
      number = e.number;
    } };
}

impl<C: Timer + Drop, W: Wire + Drop> UdpEar<C, W> {
    ghost use Rattle.m17_net.specs.Devices.{EarKept, new_ear};

    /// An ear on this socket, which is to wait for 20 ms (`sockets`), with moments that this clock tells and that are counted
    /// from `start`, in milliseconds. It ends at `until`, and never where that is none; it waits long where nobody is there if
    /// `rests` is true; and it is the ear of this number.
    pub fn new(
        clock: C,
        wire: W,
        start: Instant,
        until: Option<u64>,
        rests: bool,
        number: u64,
    ) -> UdpEar<C, W>
        ensures { result ≡ new_ear clock wire start until no_stop rests number }
    {
        UdpEar {
            clock,
            wire,
            start,
            until,
            stop: Stop::none(),
            last: 0,
            rests,
            came: None,
            long: false,
            faults: 0,
            number,
        }
    }

    /// The same ear, which this may stop.
    pub fn stopped_by(self, stop: Stop) -> UdpEar<C, W>
        ensures { result ≡ record self { stop = stop } }
    {
        let mut ear = self;
        ear.stop = stop;
        ear
    }

    // Whether its last moment is one at which it is over.
    fn is_over(&self) -> bool
        ensures { result ≡ true ↔ IsOver self.now.until self.now.last }
    {
        match self.until {
            Some(until) => until <= self.last,
            None => false,
        }
    }

    // Whether nothing came for so long that nobody is there.
    fn is_alone(&self) -> bool
        ensures { result ≡ true ↔ IsAlone self.now.came self.now.last }
    {
        match self.came {
            Some(at) => NOBODY_MS <= self.last.saturating_sub(at),
            None => true,
        }
    }

    // Whether its end is far off.
    fn is_early(&self) -> bool
        ensures { result ≡ true ↔ IsEarly self.now.until self.now.last }
    {
        match self.until {
            Some(until) => FAR_MS <= until.saturating_sub(self.last),
            None => true,
        }
    }

    // Tells its socket how long to wait, where that is not what it was told last.
    fn choose_wait(&mut self)
        ensures chosen { self.new.long ≡ true ↔ WaitsLong self.old }
        ensures told { W.waits self.new.wire ≡ told_then (W.waits self.old.wire)
            (wait_told self.old.stop.there self.old.long self.new.long) }
        ensures nothing_taken { W.taken self.new.wire ≡ W.taken self.old.wire }
        ensures nothing_sent { W.sent self.new.wire ≡ W.sent self.old.wire }
        ensures sound { W.broken self.new.wire ≡ W.broken self.old.wire }
        ensures same { self.new ≡ record self.old {
          wire = self.new.wire;
          long = self.new.long;
        } }
    {
        let long = self.rests && self.is_alone() && self.is_early();
        if long != self.long {
            let ms = if long { self.long_wait() } else { WAIT_MS };
            self.wire.wait_at_most(ms);
            self.long = long;
        }
    }

    // How long a long wait of its is.
    fn long_wait(&self) -> u64
        ensures { result ≡ long_wait self.now.stop.there }
    {
        if self.stop.is_there() {
            STOPPING_WAIT_MS
        } else {
            LONG_WAIT_MS
        }
    }

    // Takes what comes next, if something does. It rests after errors.
    fn take_next(&mut self) -> Result<Option<(Peer, Gram)>, Failed>
        ensures comes { Comes result (W.taken self.old.wire) (W.taken self.new.wire) }
        ensures nothing_sent { W.sent self.new.wire ≡ W.sent self.old.wire }
        ensures same_waits { W.waits self.new.wire ≡ W.waits self.old.wire }
        ensures sound { OnOk result (W.broken self.new.wire ≡ W.broken self.old.wire) }
        ensures broken { OnErr result
            (W.broken self.new.wire ≡ option_map suc (W.broken self.old.wire)) }
        ensures same { self.new ≡ record self.old { wire = self.new.wire } }
    {
        match take_one(&mut self.wire) {
            Taken::Datagram { from, bytes } => Ok(Some((from, bytes))),
            Taken::Nothing => Ok(None),
            Taken::Noise => {
                self.rest();
                Ok(None)
            }
            Taken::Failed => {
                self.rest();
                Err(Failed)
            }
        }
    }

    // Rests as long as it waits while somebody may be there.
    fn rest(&self) {
        self.clock.rest(Duration::from_millis(WAIT_MS));
    }

    // Reads the moment.
    fn read_moment(&mut self) -> Result<u64, Failed>
        ensures read { IfOk result (λ at. (at ≡ self.new.last) × (self.old.last ≤ at)) }
        ensures moment { OnOk result (ReadsMoment self.old.start
            (C.readings self.old.clock, self.old.last) (C.readings self.new.clock, self.new.last)) }
        ensures no_reading { OnErr result
            (C.readings self.new.clock ≡ C.readings self.old.clock) }
        ensures same { self.new ≡ record self.old {
          clock = self.new.clock;
          last = self.new.last;
        } }
        ensures failed { OnErr result (self.new ≡ record self.old { clock = self.new.clock }) }
        ensures unread { CountsError result (C.unread self.old.clock) (C.unread self.new.clock) }
    {
        match self.clock.read() {
            Ok(now) => {
                let since = now.duration_since(self.start).as_millis();
                let at = u64::try_from(since).unwrap_or(u64::MAX);
                self.last = at.max(self.last);
                Ok(self.last)
            }
            Err(_) => Err(Failed),
        }
    }

    // Counts a fault.
    fn fault(&mut self) -> Heard
        ensures counted { self.new ≡ record self.old { faults = next_number self.old.faults } }
        ensures fault { result ≡ Heard.Fault }
    {
        self.faults = self.faults.saturating_add(1);
        Heard::Fault
    }

    // What is said of what came, if something did, at the moment that is read now.
    fn tell(&mut self, came: Option<(Peer, Gram)>) -> Heard
        ensures at { TellsAt self.old.until self.old.last result self.new.last }
        ensures reads { result ≢ Heard.Fault → ReadsMoment self.old.start
            (C.readings self.old.clock, self.old.last) (C.readings self.new.clock, self.new.last) }
        ensures reads_none { result ≡ Heard.Fault
            → (C.readings self.new.clock ≡ C.readings self.old.clock)
            × (self.new.last ≡ self.old.last) }
        ensures came { SaysWhatCame result came }
        ensures counted_so { CountsFault result self.old.faults self.new.faults }
        ensures unread { CountsUnread result (C.unread self.old.clock) (C.unread self.new.clock) }
        ensures last_came { self.new.came ≡ last_came result self.old.came }
        ensures same { self.new ≡ record self.old {
          clock = self.new.clock;
          last = self.new.last;
          came = self.new.came;
          faults = self.new.faults;
        } }
    {
        match self.read_moment() {
            Ok(_) if self.is_over() => Heard::End,
            Ok(at) => match came {
                Some((from, bytes)) => {
                    self.came = Some(at);
                    Heard::Datagram { from, at, bytes }
                }
                None => Heard::Quiet { at },
            },
            Err(_) => self.fault(),
        }
    }
}

impl<C: Timer + Drop, W: Wire + Drop> Ear for UdpEar<C, W> {
    ghost use Rattle.std.proofs.Math.Nat.{min-le_right};
    ghost use Rattle.m17_ports.specs.Untold.{follows_none};
    ghost use Rattle.m17_net.specs.Devices.{udp_ear_told};

    type Label = ();

    ghost told = { udp_ear_told };

    ghost faults_fit = { λ e. min-le_right e.faults (2 ^ 64 - 1) };

    ghost follows_script = { λ _ script entries marked _. follows_none script entries marked };

    fn hear(&mut self) -> Heard
        ensures counted { min self.old.faults (2 ^ 64 - 1) ≤ min self.new.faults (2 ^ 64 - 1) }
        ensures fault { result ≡ Heard.Fault → HasRisen (min self.old.faults (2 ^ 64 - 1))
            (min self.new.faults (2 ^ 64 - 1)) }
        ensures no_fault { result ≢ Heard.Fault
            → min self.new.faults (2 ^ 64 - 1) ≡ min self.old.faults (2 ^ 64 - 1) }
        ensures appended { (EndsPastCount None → ⊥)
            → None ≡ told_then {A = Heard} None (result ∷ []) }
        ensures same_device { self.new.number ≡ self.old.number }

        // What it says is what its socket took, and when. It is stopped where it sees that at this call, or saw it before.
        ensures listens { Listens self.old.start self.old.until self.new.stop.seen
            (ear_found (W.taken self.old.wire) (W.sent self.old.wire) (W.broken self.old.wire)
            (C.readings self.old.clock) (C.unread self.old.clock) self.old.last) result
            (ear_found (W.taken self.new.wire) (W.sent self.new.wire) (W.broken self.new.wire)
            (C.readings self.new.clock) (C.unread self.new.clock) self.new.last) }
        ensures counted_so { CountsFault result self.old.faults self.new.faults }
        ensures same_start { self.new.start ≡ self.old.start }
        ensures same_end { self.new.until ≡ self.old.until }
        ensures stop { LooksSo self.old.stop self.new.stop.seen self.new.stop }

        // How long its socket waits for that.
        ensures waits { ChoosesWait self.old (W.waits self.old.wire) result
            self.new (W.waits self.new.wire) }
    {
        if self.stop.look() || self.is_over() {
            return Heard::End;
        }
        self.choose_wait();
        match self.take_next() {
            Ok(came) => self.tell(came),
            Err(_) => self.fault(),
        }
    }
}
