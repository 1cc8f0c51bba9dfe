ghost use Rattle.std.specs.Prelude.{◌≡◌, ℕ, ◌+◌, ◌-◌, ◌^◌, ◌<◌, ◌≤◌, ◌↔◌, ◌⊎◌, min, length, [], ◌∷◌, Contains, None, Some, IsErr, IsOk, IfOk, OnOk, OnErr};
ghost use Rattle.m17_io.specs.Faults.{HasCause};
ghost use Rattle.m17_values.specs.declared.peer.Peer.{Peer};
ghost use Rattle.m17_ports.specs.declared.tally.Tally.{Tally};
ghost use Rattle.m17_ports.specs.Told.{told_then};
ghost use Rattle.m17_ports.specs.Tallies.{IsTallied};

use m17_ports::{Mouth, Tally};
use m17_values::{Failed, Gram, NoMemory, Peer};
use std::alloc::Global;
use std::marker::Model;

/// The most bytes of a datagram that is kept.
const DATAGRAM_BYTES: usize = 64;

/// A mouth that keeps the datagrams said in memory, of a fixed room, which can be told to fail.
#[derive(Debug, Drop)]
pub struct ListMouth {
    list: Vec<(Peer, Gram)>,
    room: usize,
    fails: Vec<u64>,
    next_call: u64,
    faults: u64,
    number: u64,
}

impl Model for ListMouth {
    ghost use Rattle.std.specs.Prelude.{◌≤◌, length, vec_capacity};
    ghost use Rattle.m17_port_memory.specs.Kept.{SaidKept};

    ghost Value = { SaidKept };

    ghost view = { λ m. record {
      said = m.list.items;
      room = m.room;
      next_call = m.next_call;
      fails = m.fails.items;
      faults = m.faults;
      number = m.number;
    } };

    ghost invariant = { λ m. (length m.list.items ≤ m.room) × (m.room ≤ vec_capacity m.list) };
}

impl ListMouth {
    ghost use Rattle.m17_port_memory.specs.Kept.{SaidKept, new_mouth};

    /// A mouth with room for `room` datagrams of at most 64 bytes, with nothing said. `fails` lists the numbers of
    /// calls of `say`, from 0, that are to fail; a call that would pass the room, or 64 bytes, fails too. `NoMemory`
    /// where there is none for the room, and never for a room of 0.
    pub fn make(alloc: Global, room: usize, fails: Vec<u64>) -> Result<ListMouth, NoMemory>
        ensures made { IfOk result (λ mouth. mouth ≡ new_mouth room fails.items 0) }
        ensures no_room { room ≡ 0 → IsOk result }
    {
        let list = Vec::with_capacity(alloc, room)?;
        Ok(ListMouth {
            list,
            room,
            fails,
            next_call: 0,
            faults: 0,
            number: 0,
        })
    }

    /// The datagrams said, oldest first.
    pub fn list(&self) -> &[(Peer, Gram)]
        ensures { result.now ≡ self.now.said }
    {
        &self.list
    }

    // The mouth as it was when it was new, with this number.
    pub(crate) fn renewed(self, number: u64) -> ListMouth
        ensures { result ≡ new_mouth self.room self.fails number }
    {
        let mut mouth = self;
        mouth.list.clear();
        mouth.next_call = 0;
        mouth.faults = 0;
        mouth.number = number;
        mouth
    }
}

impl Mouth for ListMouth {
    ghost use Rattle.std.proofs.Math.Nat.{min-le_right};
    ghost use Rattle.m17_port_memory.specs.Kept.{SaidKept, fails_to_say, says};
    ghost use Rattle.m17_ports.specs.Untold.{names_nobody};
    ghost use Rattle.m17_port_memory.specs.Tells.{list_mouth_told};

    type Label = ();

    ghost told = { list_mouth_told };

    ghost faults_fit = { λ m. min-le_right m.faults (2 ^ 64 - 1) };

    ghost tells_named = { λ _. names_nobody };

    fn say(&mut self, to: &Peer, bytes: &[u8]) -> Result<(), Failed>
        ensures cause { HasCause (min self.old.faults (2 ^ 64 - 1))
            (min self.new.faults (2 ^ 64 - 1)) result }
        ensures appended { OnOk result (Some self.new.said
            ≡ told_then (Some self.old.said) ((to.now, bytes.now) ∷ [])) }
        ensures nothing_appended { OnErr result (Some self.new.said ≡ Some self.old.said) }

        // It fails exactly at the calls that were listed, and where the datagram or the room does not suffice.
        ensures told_to_fail { IsErr result ↔ (Contains self.old.fails self.old.next_call
            ⊎ ((64 < length bytes.now) ⊎ (self.old.room ≡ length self.old.said))) }

        // The call is counted, and so is its failure; the rest stays.
        ensures said { OnOk result (self.new ≡ says self.old (to.now, bytes.now)) }
        ensures failed { OnErr result (self.new ≡ fails_to_say self.old) }
        ensures same_device { self.new.number ≡ self.old.number }
    {
        let call = self.next_call;
        self.next_call = self.next_call.saturating_add(1);
        if self.fails.contains(&call)
            || bytes.len() > DATAGRAM_BYTES
            || self.list.len() == self.room
        {
            self.faults = self.faults.saturating_add(1);
            return Err(Failed);
        }
        match self.list.push(datagram_of(to, bytes)) {
            Ok(()) => Ok(()),
            Err(_) => Err(Failed),
        }
    }
}

// The datagram of these bytes to the peer.
fn datagram_of(to: &Peer, bytes: &[u8]) -> (Peer, Gram)
    requires { length bytes.now ≤ 64 }
    ensures { result ≡ (to.now, bytes.now) }
{
    (*to, Gram::of(bytes))
}
