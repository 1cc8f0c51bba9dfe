ghost use Rattle.std.specs.Prelude.{◌≡◌};
ghost use Rattle.m17_net.specs.Errors.{meaning_of};

use std::io::ErrorKind;

/// What an error of a socket means to an ear or a mouth.
#[derive(Clone, Copy, Debug, PartialEq, Eq)]
pub(crate) enum Trouble {
    /// The socket waited as long as it may: nothing came, or its buffer stayed full.
    Waited,
    /// A signal interrupted the call, or the network tells of an earlier datagram: the next call may do.
    Passing,
    /// There is no way to where a datagram goes, or went: the socket is well, and the next call to there does not do.
    Unreachable,
    /// The socket failed.
    Broken,
}

// What an error of this kind means.
pub(crate) fn trouble_of(kind: ErrorKind) -> Trouble
    ensures { result ≡ meaning_of kind }
{
    match kind {
        ErrorKind::WouldBlock | ErrorKind::TimedOut => Trouble::Waited,
        ErrorKind::Interrupted | ErrorKind::ConnectionRefused | ErrorKind::ConnectionReset =>
            Trouble::Passing,
        ErrorKind::HostUnreachable | ErrorKind::NetworkUnreachable | ErrorKind::NetworkDown => {
            Trouble::Unreachable
        }
        _ => Trouble::Broken,
    }
}
