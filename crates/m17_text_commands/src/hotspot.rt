ghost use Rattle.std.specs.Prelude.{◌≡◌, ◌<◌};
ghost use Rattle.m17_text_commands.specs.Hotspots.{peer_of, address_of, module_of};

use m17_callsign::CallAddress;
use m17_control::ModuleLetter;
use m17_values::{Address, Peer};
use std::marker::Model;

/// How many hotspots there are.
pub(crate) const HOTSPOTS: u8 = 12;

/// How many modules they talk on: A, B and C.
pub(crate) const MODULES: u8 = 3;

/// The address of the callsign `HOTA`, and how much the next letter in its place is more.
const HOTA: u64 = 96_608;

const LETTER: u64 = 64_000;

const PORT: u16 = 17_000;

// One of the twelve hotspots, from 0. Contracts see its number.
#[derive(Clone, Copy, Debug)]
pub(crate) struct Hotspot(u8);

impl Model for Hotspot {
    ghost use Rattle.std.specs.Prelude.{ℕ, ◌<◌};

    ghost Value = { ℕ };

    ghost view = { λ h. h.0 };

    ghost invariant = { λ h. h.0 < 12 };

    ghost inverse = { λ n. record { 0 = n } };
}

impl Hotspot {
    // The hotspot with this number.
    pub(crate) fn new(number: u8) -> Hotspot
        requires { number < 12 }
        ensures { result ≡ number }
    {
        Hotspot(number)
    }

    // Its number, 0 to 11.
    pub(crate) fn number(self) -> u8
        ensures same { result ≡ self }
        ensures within { result < 12 }
    {
        self.0
    }

    // Where it sends from.
    pub(crate) fn peer(self) -> Peer
        ensures { result ≡ peer_of self }
    {
        let mut ip = [0; 16];
        ip[0] = 10;
        ip[3] = self.0 + 1;
        Peer {
            six: false,
            ip,
            port: PORT,
        }
    }

    // The address of its callsign.
    pub(crate) fn call(self) -> CallAddress
        ensures { result ≡ address_of self }
    {
        let address = Address::new(HOTA + LETTER * u64::from(self.0)).unwrap();
        CallAddress::new(address).unwrap()
    }

    // The module that it joins.
    pub(crate) fn module(self) -> ModuleLetter
        ensures { result ≡ module_of self }
    {
        ModuleLetter::new(b'A' + self.0 % MODULES).unwrap()
    }
}
