ghost use Rattle.std.specs.Prelude.{◌≡◌, ◌≢◌, ◌↔◌, ℕ, ◌+◌, ◌<◌, ◌≤◌, ◌%◌, ◌^◌, ◌-◌, ◌∷◌, length, replicate, List, [], IfOk, IsTrue, slice_index, false, true};
ghost use Rattle.m17_values.specs.declared.heard.Heard.{Heard};
ghost use Rattle.m17_decorators.specs.Echo as echo;
ghost use Rattle.m17_decorators.specs.Echo.{is_echo};
ghost use Rattle.m17_decorators.specs.Frame as rule;
ghost use Rattle.m17_decorators.specs.GuardMemory.{peer_bucket, bytes_bucket, peer_bucket_of, bytes_bucket_of, IsWhole, Remembers, Recalls, IsKept, IsLatest, HasLeft, HasPut, with_left, is_kept, is_of, is_copy, parted_at, turned_at, said_at, is_echo_at, slot_of, echoes};

use crate::bytes::is_disc;
use crate::frame::{is_frame, same_peer};
use m17_values::{Gram, Heard, NoMemory, Peer};
use std::alloc::Global;
use std::hash::{BuildHasher, DefaultHasher, Hasher, RandomState};

/// How many stream packets are remembered.
const PLACES: u64 = 16_384;

/// How long a packet is remembered, in milliseconds.
const LONGEST_MS: u64 = 10_000;

// A stream packet that was heard. Others are named by their order: how many were heard up to them.
// `parted` is that of its peer's last one before the latest DISC, `turned` that of its latest one with
// other bytes, `said` that of the latest one of the same bytes before that; `left` says whether a
// DISC came since. `by_peer` and `by_bytes` lead to the one before in the same bucket.
#[derive(Drop)]
pub(crate) struct Slot {
    pub(crate) from: Peer,
    pub(crate) at: u64,
    pub(crate) bytes: Gram,
    pub(crate) parted: u64,
    pub(crate) turned: u64,
    pub(crate) said: u64,
    pub(crate) left: bool,
    pub(crate) by_peer: u64,
    pub(crate) by_bytes: u64,
}

// The last stream packets that were heard, each in the slot of its order, and the heads of the
// buckets of peers and of packets; how many packets were heard, and how many Ends since the last
// entry of another kind. These numbers stay at 2^64 - 1.
#[derive(Drop)]
pub(crate) struct Memory {
    pub(crate) keys: RandomState,
    pub(crate) slots: Vec<Slot>,
    pub(crate) peers: Vec<u64>,
    pub(crate) frames: Vec<u64>,
    pub(crate) count: u64,
    pub(crate) ends: u64,
}

// The slot of the packet of this order.
fn place_of(order: u64) -> usize
    ensures { result ≡ order % 16384 }
{
    (order % PLACES) as usize
}

// The buckets of a peer, and of bytes of that peer.
fn buckets_of(keys: &RandomState, peer: &Peer, bytes: &[u8]) -> (usize, usize)
    ensures peer { result.0 ≡ peer_bucket keys.now peer.now }
    ensures bytes { result.1 ≡ bytes_bucket keys.now peer.now bytes.now }
{
    let mut hasher = keys.build_hasher();
    hasher.write(&peer.ip);
    hasher.write(&peer.port.to_le_bytes());
    let by_peer = hasher.finish();
    hasher.write(bytes);
    (place_of(by_peer), place_of(hasher.finish()))
}

impl Memory {
    // A memory of nothing, with room for all that it may hold.
    pub(crate) fn make(alloc: Global, keys: RandomState) -> Result<Memory, NoMemory>
        ensures whole { IfOk result IsWhole }
        ensures empty { IfOk result (λ memory. Remembers memory []) }
    {
        let slots = blank_slots(alloc)?;
        let peers = empty_heads(alloc)?;
        let frames = empty_heads(alloc)?;
        Ok(Memory {
            keys,
            slots,
            peers,
            frames,
            count: 0,
            ends: 0,
        })
    }

    // Whether so many Ends came that no more are counted.
    pub(crate) fn is_over(&self) -> bool
        ensures { IsTrue result ↔ (self.now.ends ≡ 2 ^ 64 - 1) }
    {
        self.ends == u64::MAX
    }

    // Whether this entry is an echo. It is remembered.
    pub(crate) fn hear(&mut self, heard: &Heard) -> bool
        requires { IsWhole self.old }
        ensures whole { IsWhole self.new }
        ensures echo { (past : List Heard) → Remembers self.old past
            → result ≡ echoes past heard.now }
        ensures remembers { (past : List Heard) → Remembers self.old past
            → Remembers self.new (heard.now ∷ past) }
    {
        match heard {
            Heard::End => {
                self.ends = self.ends.saturating_add(1);
                false
            }
            Heard::Datagram { from, at, bytes } => {
                self.ends = 0;
                self.hear_bytes(from, *at, bytes.bytes())
            }
            _ => {
                self.ends = 0;
                false
            }
        }
    }

    // The same of a datagram, but of the count of Ends.
    fn hear_bytes(&mut self, from: &Peer, at: u64, bytes: &[u8]) -> bool
        requires { IsWhole self.old }
        ensures whole { IsWhole self.new }
        ensures ends { self.new.ends ≡ self.old.ends }
        ensures echo { (past : List Heard) → Recalls self.old past
            → result ≡ is_echo past from.now at bytes.now }
        ensures recalls { (past : List Heard) → Recalls self.old past
            → Recalls self.new (Heard.Datagram from.now at bytes.now ∷ past) }
    {
        if is_frame(bytes) {
            return self.hear_frame(from, at, bytes);
        }
        if is_disc(bytes) {
            self.part(from);
        }
        false
    }

    // A peer left: its latest packet says so.
    fn part(&mut self, from: &Peer)
        requires { IsWhole self.old }
        ensures whole { IsWhole self.new }
        ensures ends { self.new.ends ≡ self.old.ends }
        ensures left { HasLeft from.now self.old self.new }
    {
        let keys = self.keys;
        let (bucket, _) = buckets_of(&keys, from, &[]);
        let latest = self.latest_of(from, bucket);
        if latest > 0 {
            self.leave(latest);
        }
    }

    // The peer of this packet left.
    fn leave(&mut self, latest: u64)
        requires whole { IsWhole self.old }
        requires kept { IsKept self.old.count latest }
        ensures whole { IsWhole self.new }
        ensures ends { self.new.ends ≡ self.old.ends }
        ensures count { self.new.count ≡ self.old.count }
        ensures left { self.new.slots.items ≡ with_left self.old.slots.items latest }
    {
        self.slots[place_of(latest)].left = true;
    }

    // The same of a stream packet.
    fn hear_frame(&mut self, from: &Peer, at: u64, bytes: &[u8]) -> bool
        requires whole { IsWhole self.old }
        requires frame { rule.is_frame bytes.now ≡ true }
        ensures whole { IsWhole self.new }
        ensures ends { self.new.ends ≡ self.old.ends }
        ensures echo { (past : List Heard) → Recalls self.old past
            → result ≡ is_echo past from.now at bytes.now }
        ensures recalls { (past : List Heard) → Recalls self.old past
            → Recalls self.new (Heard.Datagram from.now at bytes.now ∷ past) }
    {
        if self.count == u64::MAX {
            return false;
        }
        let keys = self.keys;
        let (by_peer, by_bytes) = buckets_of(&keys, from, bytes);
        let latest = self.latest_of(from, by_peer);
        let (parted, turned) = self.standing(latest, bytes);
        let same = self.latest_same(from, bytes, by_bytes);
        let said = self.said_before(same, turned);
        let is_echo = self.is_echo(parted, said, at);
        let slot = Slot {
            from: *from,
            at,
            bytes: Gram::of(bytes),
            parted,
            turned,
            said,
            left: false,
            by_peer: self.peers[by_peer],
            by_bytes: self.frames[by_bytes],
        };
        self.put(by_peer, by_bytes, slot);
        is_echo
    }

    // The slot of the packet of this order.
    fn slot(&self, order: u64) -> &Slot
        requires { IsWhole self.now }
        ensures { result.now ≡ slot_of self.now.slots.items order }
    {
        &self.slots[place_of(order)]
    }

    // Whether the packet of this order is remembered.
    fn is_kept(&self, order: u64) -> bool
        ensures { result ≡ is_kept self.now.count order }
    {
        order > 0 && order <= self.count && self.count - order < PLACES
    }

    // The latest packet of this peer that is remembered, or 0.
    fn latest_of(&self, from: &Peer, bucket: usize) -> u64
        requires whole { IsWhole self.now }
        requires bucket { bucket ≡ peer_bucket self.now.keys from.now }
        ensures { IsLatest self.now.slots.items self.now.count (is_of from.now) result }
    {
        let mut order = self.peers[bucket];
        'walk: while self.is_kept(order) {
            let slot = self.slot(order);
            if same_peer(from, &slot.from) {
                return order;
            }
            order = slot.by_peer;
        }
        0
    }

    // The latest packet of this peer with these bytes that is remembered, or 0.
    fn latest_same(&self, from: &Peer, bytes: &[u8], bucket: usize) -> u64
        requires whole { IsWhole self.now }
        requires bucket { bucket ≡ bytes_bucket self.now.keys from.now bytes.now }
        ensures { IsLatest self.now.slots.items self.now.count (is_copy from.now bytes.now) result }
    {
        let mut order = self.frames[bucket];
        'walk: while self.is_kept(order) {
            let slot = self.slot(order);
            if is_copy(from, bytes, slot) {
                return order;
            }
            order = slot.by_bytes;
        }
        0
    }

    // Of a peer whose latest packet this is: its last packet before its latest DISC, and its latest
    // packet with other bytes than these.
    fn standing(&self, latest: u64, bytes: &[u8]) -> (u64, u64)
        requires { IsWhole self.now }
        ensures parted { result.0 ≡ parted_at self.now.slots.items latest }
        ensures turned { result.1 ≡ turned_at self.now.slots.items latest bytes.now }
    {
        if latest == 0 {
            return (0, 0);
        }
        let slot = self.slot(latest);
        let parted = if slot.left { latest } else { slot.parted };
        let turned = if slot.bytes.bytes() == bytes {
            slot.turned
        } else {
            latest
        };
        (parted, turned)
    }

    // The latest packet of the same bytes before the peer turned to others, where `same` is the latest
    // of all.
    fn said_before(&self, same: u64, turned: u64) -> u64
        requires { IsWhole self.now }
        ensures { result ≡ said_at self.now.slots.items same turned }
    {
        if turned < same {
            self.slot(same).said
        } else {
            same
        }
    }

    // Whether a packet that the peer said before is one of the last ten seconds, and remembered.
    fn is_echo(&self, parted: u64, said: u64, at: u64) -> bool
        requires { IsWhole self.now }
        ensures { result ≡ is_echo_at self.now.slots.items self.now.count parted said at }
    {
        parted < said && self.is_kept(said) && at.saturating_sub(LONGEST_MS) <= self.slot(said).at
    }

    // The next packet.
    fn put(&mut self, by_peer: usize, by_bytes: usize, slot: Slot)
        requires whole { IsWhole self.old }
        requires room { self.old.count < 2 ^ 64 - 1 }
        requires by_peer { by_peer ≡ peer_bucket_of self.old.keys slot }
        requires by_bytes { by_bytes ≡ bytes_bucket_of self.old.keys slot }
        requires peer_link { slot.by_peer ≡ slice_index self.old.peers.items by_peer }
        requires bytes_link { slot.by_bytes ≡ slice_index self.old.frames.items by_bytes }
        ensures whole { IsWhole self.new }
        ensures ends { self.new.ends ≡ self.old.ends }
        ensures put { HasPut slot self.old self.new }
    {
        self.count += 1;
        let place = place_of(self.count);
        self.slots[place] = slot;
        self.peers[by_peer] = self.count;
        self.frames[by_bytes] = self.count;
    }
}

// Whether the slot holds a packet of this peer and these bytes.
fn is_copy(from: &Peer, bytes: &[u8], slot: &Slot) -> bool
    ensures { result ≡ is_copy from.now bytes.now slot.now }
{
    same_peer(from, &slot.from) && slot.bytes.bytes() == bytes
}

// A slot for each packet that is remembered.
fn blank_slots(alloc: Global) -> Result<Vec<Slot>, NoMemory>
    ensures { IfOk result (λ slots. length slots.items ≡ 16384) }
{
    let mut slots = Vec::with_capacity(alloc, PLACES as usize)?;
    'fill: while slots.len() < PLACES as usize {
        slots.push(blank())?;
    }
    Ok(slots)
}

// The heads of empty buckets.
fn empty_heads(alloc: Global) -> Result<Vec<u64>, NoMemory>
    ensures { IfOk result (λ heads. heads.items ≡ replicate 16384 0) }
{
    let heads = vec![in alloc; 0u64; PLACES as usize]?;
    Ok(heads)
}

// The slot of no packet.
fn blank() -> Slot
    ensures { result.left ≡ false }
{
    Slot {
        from: Peer {
            six: false,
            ip: [0; 16],
            port: 0,
        },
        at: 0,
        bytes: Gram::of(&[]),
        parted: 0,
        turned: 0,
        said: 0,
        left: false,
        by_peer: 0,
        by_bytes: 0,
    }
}
