//! The floor rule as it is stated, by looking back through the whole list of acts at each position. It is slow, and
//! there to compare the fast way with. The rule beside two frames is that of the fast way; which frames these are is
//! looked up anew each time.
ghost use Rattle.std.specs.Prelude.{◌≡◌, ℕ, ◌<◌, take, length, Some, IfOk, IfSome, slice_get};
ghost use Rattle.m17_lookup.specs.Lookup.{last_below};
ghost use Rattle.m17_floor.specs.Setup.{floor_setup};
ghost use Rattle.m17_floor.specs.Acts.{kind_at, greatest_moment, settles, joined_at};
ghost use Rattle.m17_floor.specs.Floor as floor;
ghost use Rattle.m17_floor.specs.Floor.{floor_frame, own_frame, verdict_after, verdict_given, verdict_at};
ghost use Rattle.m17_floor.specs.Rule.{incoming};
ghost use Rattle.m17_floor.specs.Plain.{past_answered, was_answered, was_answered_opened, opened_answered, has_been_in};
ghost use Rattle.m17_floor.specs.Plain.{is_answered_own};

use crate::{Act, ActKind, Floor, Last, Verdict};
use m17_stream::StreamPacket;
use m17_values::Member;
use std::alloc::{AllocError, Global};

/// The verdicts of a list of acts in a module of `places` places where one may talk for `limit` milliseconds, or without
/// limit where it is 0: one for each act, and none but for a packet. It fails only where there is no memory for the
/// answer.
pub fn verdicts(
    alloc: Global,
    places: u32,
    limit: u64,
    acts: &[Act],
) -> Result<Vec<Option<Verdict>>, AllocError>
    ensures { IfOk result (λ verdicts. (length verdicts.items ≡ length acts.now)
        × ((n : ℕ) → n < length acts.now →
        slice_get verdicts.items n ≡ Some (verdict_at (floor_setup places limit) acts.now n))) }
{
    let mut verdicts = Vec::with_capacity(alloc, acts.len())?;
    for _ in acts {
        let n = verdicts.len();
        let at = moment(acts, n + 1);
        let verdict = verdict_on(
            places,
            limit,
            &acts[..n],
            verdicts.as_slice(),
            at,
            &kind(acts, n),
        );
        verdicts.push(verdict)?;
    }
    Ok(verdicts)
}

// The verdict on what happens after these acts, at this moment.
#[tactic(auto, unfolding(crate::specs::Floor::verdict_given))]
fn verdict_on(
    places: u32,
    limit: u64,
    acts: &[Act],
    answered: &[Option<Verdict>],
    at: u64,
    kind: &ActKind,
) -> Option<Verdict>
    ensures { let past = past_answered (floor_setup places limit) acts.now answered.now in
        result ≡ verdict_given past at kind.now }
{
    match kind {
        ActKind::Packet { member, packet } => {
            Some(on_packet(places, limit, acts, answered, *member, at, packet))
        }
        _ => None,
    }
}

// The verdict on a packet: by the sender's membership, and then beside the two frames that are looked up.
fn on_packet(
    places: u32,
    limit: u64,
    acts: &[Act],
    answered: &[Option<Verdict>],
    k: Member,
    at: u64,
    p: &StreamPacket,
) -> Verdict
    ensures { let past = past_answered (floor_setup places limit) acts.now answered.now in
        result ≡ verdict_after past (incoming k at p.now) }
{
    let Some(join) = last_join(places, acts, k) else {
        return Verdict::NotMember;
    };
    if let ActKind::Join { listens: true, .. } = kind(acts, join) {
        return Verdict::ListenOnly;
    }
    let floor = floor(places, limit, acts, answered);
    let own = own(places, acts, answered, k);
    floor.verdict(k, at, p, &own)
}

// The floor's last frame, if its sender has been in since before it.
#[tactic(auto, unfolding(crate::specs::Floor::floor_frame))]
fn floor(places: u32, limit: u64, acts: &[Act], answered: &[Option<Verdict>]) -> Floor
    ensures frame { let past = past_answered (floor_setup places limit) acts.now answered.now in
        result.frame ≡ floor_frame past }
    ensures limit { result.limit ≡ limit }
{
    let Some(a) = last_admitted(acts, answered) else {
        return Floor::new(limit);
    };
    match kind(acts, a) {
        ActKind::Packet { member, packet } if is_in_since(places, acts, member, a) => {
            let opened = opened(acts, answered, a);
            Floor::of(limit, opened, member, moment(acts, a + 1), &packet)
        }
        _ => Floor::new(limit),
    }
}

// The member's last frame since its Join.
#[tactic(auto, unfolding(crate::specs::Floor::own_frame))]
fn own(places: u32, acts: &[Act], answered: &[Option<Verdict>], k: Member) -> Last
    ensures { (limit : ℕ) →
        let past = past_answered (floor_setup places limit) acts.now answered.now in
        result ≡ own_frame past k }
{
    let Some(a) = last_of(places, acts, answered, k) else {
        return Last::new();
    };
    match kind(acts, a) {
        ActKind::Packet { member, packet } => {
            let opened = opened(acts, answered, a);
            Last::of(opened, member, moment(acts, a + 1), &packet)
        }
        _ => Last::new(),
    }
}

// The moment of the last opened position at or below this one.
fn opened(acts: &[Act], answered: &[Option<Verdict>], a: usize) -> u64
    requires { a < length acts.now }
    ensures { result ≡ opened_answered acts.now answered.now a }
{
    match last_opened(answered, a + 1) {
        Some(o) => moment(acts, o + 1),
        None => 0,
    }
}

// The last position below n that opened the floor.
fn last_opened(answered: &[Option<Verdict>], n: usize) -> Option<usize>
    ensures found { result ≡ last_below (was_answered_opened answered.now) n }
    ensures within { IfSome result (λ o. o < n) }
{
    let mut o = n;
    while o > 0 {
        o -= 1;
        if is_opened(answered, o) {
            return Some(o);
        }
    }
    None
}

// The last admitted position.
fn last_admitted(acts: &[Act], answered: &[Option<Verdict>]) -> Option<usize>
    ensures found { result ≡ last_below (was_answered answered.now) (length acts.now) }
    ensures within { IfSome result (λ a. a < length acts.now) }
{
    let mut a = acts.len();
    while a > 0 {
        a -= 1;
        if is_admitted(answered, a) {
            return Some(a);
        }
    }
    None
}

// The position of the member's last admitted packet since its Join.
fn last_of(places: u32, acts: &[Act], answered: &[Option<Verdict>], k: Member) -> Option<usize>
    ensures found { let own = is_answered_own places acts.now answered.now k in
        result ≡ last_below own (length acts.now) }
    ensures within { IfSome result (λ a. a < length acts.now) }
{
    let mut a = acts.len();
    while a > 0 {
        a -= 1;
        if is_own(places, acts, answered, k, a) {
            return Some(a);
        }
    }
    None
}

// Whether the position is an admitted packet of the member since its Join.
fn is_own(places: u32, acts: &[Act], answered: &[Option<Verdict>], k: Member, a: usize) -> bool
    ensures { result ≡ is_answered_own places acts.now answered.now k a }
{
    is_admitted(answered, a) && is_packet_of(k, &kind(acts, a)) && is_in_since(places, acts, k, a)
}

// Whether the member is in at the end of the acts, by a Join below position a.
fn is_in_since(places: u32, acts: &[Act], k: Member, a: usize) -> bool
    ensures { result ≡ has_been_in places acts.now k a }
{
    match last_join(places, acts, k) {
        Some(join) => join < a,
        None => false,
    }
}

// The position of the Join by which the member is in at the end of the acts.
#[tactic(auto, unfolding(crate::specs::Acts::joined_at))]
fn last_join(places: u32, acts: &[Act], k: Member) -> Option<usize>
    ensures { result ≡ joined_at places acts.now k (length acts.now) }
{
    if k.place >= places {
        return None;
    }
    let position = last_settling(acts, k)?;
    match kind(acts, position) {
        ActKind::Join { member, .. } if member == k => Some(position),
        _ => None,
    }
}

// The last position of an act that decides whether the member is in.
fn last_settling(acts: &[Act], k: Member) -> Option<usize>
    ensures { result ≡ last_below (λ j. settles k (kind_at acts.now j)) (length acts.now) }
{
    let mut j = acts.len();
    while j > 0 {
        j -= 1;
        if is_settling(k, &kind(acts, j)) {
            return Some(j);
        }
    }
    None
}

// Whether the act decides whether the member is in.
fn is_settling(k: Member, kind: &ActKind) -> bool
    ensures { result ≡ settles k kind.now }
{
    match kind {
        ActKind::Join { member, .. } => member.place == k.place,
        ActKind::Leave { member } => *member == k,
        _ => false,
    }
}

// Whether the act is a packet of the member.
fn is_packet_of(k: Member, kind: &ActKind) -> bool
    ensures { result ≡ floor.is_packet_of k kind.now }
{
    match kind {
        ActKind::Packet { member, .. } => *member == k,
        _ => false,
    }
}

// Whether the position is admitted.
fn is_admitted(answered: &[Option<Verdict>], a: usize) -> bool
    ensures { result ≡ was_answered answered.now a }
{
    match answered.get(a) {
        Some(Some(verdict)) => verdict.is_admitted(),
        _ => false,
    }
}

// Whether the position opened the floor.
fn is_opened(answered: &[Option<Verdict>], a: usize) -> bool
    ensures { result ≡ was_answered_opened answered.now a }
{
    matches!(answered.get(a), Some(Some(Verdict::Opened)))
}

// What happened at a position; nothing of note past the end.
fn kind(acts: &[Act], n: usize) -> ActKind
    ensures { result ≡ kind_at acts.now n }
{
    match acts.get(n) {
        Some(act) => act.kind,
        None => ActKind::Other,
    }
}

// The greatest moment of the first n acts.
fn moment(acts: &[Act], n: usize) -> u64
    ensures { result ≡ greatest_moment (take n acts.now) }
{
    acts.iter()
        .take(n)
        .map(|act| act.at)
        .fold(0, |greatest, at| greatest.max(at))
}
