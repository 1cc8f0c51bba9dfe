ghost use Rattle.std.specs.Prelude.{◌≡◌, ℕ, ◌≤◌, List, [], ◌∷◌, length, take, Option, OnOk, IfOk, OnErr};
ghost use Rattle.std.specs.declared.io.ErrorKind.{ErrorKind};
ghost use Rattle.m17_ports.specs.Told.{told_then};
ghost use Rattle.m17_net.specs.Wire.{Sent, found, BreaksBy, HasTaken, TellsError};

use std::io;
use std::io::{Error, ErrorKind};
use std::net::{SocketAddr, UdpSocket};
use std::time::Duration;

/// A socket for datagrams, as an ear and a mouth use it: the system's, or one that a test makes.
pub trait Wire {
    /// The datagrams that it took so far, each with the address that it came from, where the socket tells them.
    ghost taken: { Self → Option (List Sent) };

    /// The datagrams that it sent so far, each with the address that it went to, where the socket tells them.
    ghost sent: { Self → Option (List Sent) };

    /// How often it broke at a call of `take`, where the socket tells that.
    ghost broken: { Self → Option ℕ };

    /// The errors that its calls of `send` gave so far, each by its kind, where the socket tells them.
    ghost unsent: { Self → Option (List ErrorKind) };

    /// The waits that it was told so far, in milliseconds, where the socket tells them.
    ghost waits: { Self → Option (List ℕ) };

    /// Takes the next datagram, puts as many of its bytes into `into` as there is room for, and answers how many these
    /// are and where it came from. It may wait for as long as the socket was told to. After an error nothing was taken.
    fn take(&mut self, into: &mut [u8]) -> io::Result<(usize, SocketAddr)>
        ensures within { IfOk result (λ r. r.0 ≤ length into.new) }
        ensures taken { IfOk result (λ r. HasTaken (taken self.old)
            (found r.1 (length into.new) (take r.0 into.new)) (taken self.new)) }
        ensures nothing_taken { OnErr result (taken self.new ≡ taken self.old) }
        ensures nothing_sent { sent self.new ≡ sent self.old }
        ensures broken { BreaksBy result (broken self.old) (broken self.new) }
        ensures same_unsent { unsent self.new ≡ unsent self.old }
        ensures same_waits { waits self.new ≡ waits self.old };

    /// Sends a datagram of these bytes to the address. After an error nothing was sent.
    fn send(&mut self, bytes: &[u8], to: SocketAddr) -> io::Result<()>
        ensures sent { OnOk result
            (sent self.new ≡ told_then (sent self.old) ((to, bytes.now) ∷ [])) }
        ensures nothing_sent { OnErr result (sent self.new ≡ sent self.old) }
        ensures nothing_taken { taken self.new ≡ taken self.old }
        ensures sound { broken self.new ≡ broken self.old }
        ensures unsent { TellsError result (unsent self.old) (unsent self.new) }
        ensures same_waits { waits self.new ≡ waits self.old };

    /// From now on a call of `take` is to wait for `ms` milliseconds at the most.
    fn wait_at_most(&mut self, ms: u64)
        ensures told { waits self.new ≡ told_then (waits self.old) (ms ∷ []) }
        ensures nothing_taken { taken self.new ≡ taken self.old }
        ensures nothing_sent { sent self.new ≡ sent self.old }
        ensures sound { broken self.new ≡ broken self.old }
        ensures same_unsent { unsent self.new ≡ unsent self.old };
}

// The trusted edge: one call of the system each, which tells no content.
impl Wire for UdpSocket {
    ghost use Rattle.std.specs.Prelude.{None};

    ghost taken = { λ _. None };

    ghost sent = { λ _. None };

    ghost broken = { λ _. None };

    ghost unsent = { λ _. None };

    ghost waits = { λ _. None };

    fn take(&mut self, into: &mut [u8]) -> io::Result<(usize, SocketAddr)> {
        self.recv_from(into)
    }

    fn send(&mut self, bytes: &[u8], to: SocketAddr) -> io::Result<()> {
        if self.send_to(bytes, to)? == bytes.len() {
            Ok(())
        } else {
            Err(Error::from(ErrorKind::WriteZero))
        }
    }

    // The system took this option when the socket was made (`sockets`), and has no reason to refuse it later.
    fn wait_at_most(&mut self, ms: u64) {
        match self.set_read_timeout(Some(Duration::from_millis(ms))) {
            Ok(()) | Err(_) => {}
        }
    }
}
