use crate::floor_list_tests::must;
use crate::module_tests::{event, join, leave, made, sends, tick};
use crate::plain_echo::Looked;
use m17_control::{Body, Control, Event, Item, Said, Why};
use m17_floor::{Act, ActKind, Verdict, plain};
use m17_module::{Basket, Module};
use m17_samples::member;
use m17_stream::StreamPacket;
use m17_values::Member;
use std::alloc::Global;
use std::process::Abort;

// The Join of who is in at a place after these events, in a module of `places` places: the last one there, unless its
// member has left since.
fn seat(places: u32, events: &[Event], place: u32) -> Option<Event> {
    let mut found: Option<Event> = None;
    for event in events {
        match &event.body {
            Body::Join { member, .. } if member.place == place && place < places => {
                found = Some(*event);
            }
            Body::Leave { member, .. } if is_of(&found, *member) => found = None,
            _ => (),
        }
    }
    found
}

fn is_of(found: &Option<Event>, k: Member) -> bool {
    match found {
        Some(
            Event {
                body: Body::Join { member, .. },
                ..
            },
        ) => *member == k,
        _ => false,
    }
}

// The next item is this, said to the peer and the link of that Join.
fn expect(rt: &impl Abort, basket: &mut Basket, join: &Event, body: &Said) {
    let Body::Join { member, peer, .. } = &join.body else {
        return;
    };
    let want = Item {
        member: *member,
        link: join.tag.link,
        peer: *peer,
        body: *body,
    };
    assert_eq!(rt; basket.take(), Some(want));
}

fn greatest(events: &[Event]) -> u64 {
    let mut moment = 0;
    for event in events {
        moment = event.at.max(moment);
    }
    moment
}

// The basket holds what the last of the events gives, by the definition.
fn expect_items(
    rt: &impl Abort,
    places: u32,
    events: &[Event],
    admitted: bool,
    echo: &Option<(Member, StreamPacket)>,
    basket: &mut Basket,
) {
    let Some((now, before)) = events.split_last() else {
        return;
    };
    if greatest(before) / 3_000 < greatest(events) / 3_000 {
        for place in 0..places {
            if let Some(join) = seat(places, before, place) {
                expect(rt, basket, &join, &Said::Ping);
            }
        }
    }
    if let Some((k, packet)) = echo
        && let Some(join) = seat(places, before, k.place)
    {
        let position = before.len() as u64;
        let packet = *packet;
        expect(rt, basket, &join, &Said::Echo { position, packet });
    }
    expect_said(rt, places, before, now, admitted, basket);
    assert!(rt; basket.is_empty());
}

// What the event itself says.
fn expect_said(
    rt: &impl Abort,
    places: u32,
    before: &[Event],
    now: &Event,
    admitted: bool,
    basket: &mut Basket,
) {
    match &now.body {
        Body::Join { member, after, .. } if member.place < places => {
            if let Some(join) = seat(places, before, member.place) {
                expect(rt, basket, &join, &Said::Bye { why: Why::Replaced });
            }
            expect(rt, basket, now, &Said::Hello { after: *after });
        }
        Body::Leave { member, why } => {
            let found = seat(places, before, member.place);
            if is_of(&found, *member)
                && let Some(join) = found
            {
                expect(rt, basket, &join, &Said::Bye { why: *why });
            }
        }
        Body::Packet { member, packet } if admitted => {
            let frame = Said::Frame {
                position: before.len() as u64,
                packet: *packet,
            };
            for place in 0..places {
                let found = seat(places, before, place);
                if !is_of(&found, *member)
                    && let Some(join) = found
                {
                    expect(rt, basket, &join, &frame);
                }
            }
        }
        Body::Reply { member, control } => {
            let found = seat(places, before, member.place);
            if is_of(&found, *member)
                && let Some(join) = found
            {
                expect(rt, basket, &join, &Said::Reply { control: *control });
            }
        }
        _ => (),
    }
}

// An event out of a number: of four places, of which the module has three, and two memberships at each.
fn generated(rt: &impl Abort, n: u64) -> Event {
    let k = member((n % 4) as u32, n / 4 % 2);
    let at = n / 8 % 64 * 100;
    let sid = (n / 512 % 2) as u16;
    let number = (n / 1_024 % 4) as u16;
    let last = n / 4_096 % 8 == 0;
    match n / 32_768 % 8 {
        0 => join(rt, k, at, false),
        1 => join(rt, k, at, n / 262_144 % 4 == 0),
        2 => leave(k, at, Why::Asked),
        3 => event(
            k,
            at,
            Body::Reply {
                member: k,
                control: Control::Ackn,
            },
        ),
        4 => tick(at),
        _ => sends(k, at, sid, number, last),
    }
}

fn act(event: &Event) -> Act {
    let kind = match &event.body {
        Body::Join { member, listen, .. } => ActKind::Join {
            member: *member,
            listens: *listen,
        },
        Body::Leave { member, .. } => ActKind::Leave { member: *member },
        Body::Packet { member, packet } => ActKind::Packet {
            member: *member,
            packet: *packet,
        },
        _ => ActKind::Other,
    };
    Act { at: event.at, kind }
}

// A list of events that comes of a number. The moments rise on the whole, and sometimes go back.
fn listed(rt: &impl Abort, seed: u64) -> [Event; 48] {
    let mut n = seed;
    let mut events = [tick(0); 48];
    for i in 0..48 {
        n = (n & 0xffff_ffff) * 0x5deece6d + 0xb;
        let mut event = generated(rt, n >> 12);
        event.at = (event.at >> 1) + 300 * (i as u64);
        events[i] = event;
    }
    events
}

// What the floor rule says of the events, under this limit.
fn verdicts_on(
    rt: &impl Abort,
    alloc: Global,
    limit: u64,
    events: &[Event; 48],
) -> Vec<Option<Verdict>> {
    let mut acts = [act(&tick(0)); 48];
    for i in 0..48 {
        acts[i] = act(&events[i]);
    }
    must(rt, plain::verdicts(alloc, 3, limit, &acts))
}

// Steps through a list of events, beside the definition, and answers how many echoes there were.
fn step_beside(
    rt: &impl Abort,
    module: &mut Module,
    basket: &mut Basket,
    limit: u64,
    events: &[Event; 48],
    verdicts: &[Option<Verdict>],
) -> u32 {
    let mut echoed = [false; 48];
    let mut echoes = 0u32;
    for i in 0..48 {
        assert!(rt; basket.is_empty());
        let answer = module.step(&events[i], basket);
        assert!(rt; verdicts.get(i).copied() == Some(answer));
        let admitted = matches!(answer, Some(Verdict::Opened | Verdict::Continued));
        let looked = Looked {
            places: 3,
            limit,
            events,
            verdicts,
            echoed: &echoed,
        };
        let echo = if module.is_parrot() {
            looked.echo(i)
        } else {
            None
        };
        echoed[i] = echo.is_some();
        echoes = echoes.saturating_add(u32::from(echo.is_some()));
        expect_items(rt, 3, &events[..i + 1], admitted, &echo, basket);
    }
    echoes
}

// The same by a new module, for a list that comes of a number; each second list under a limit.
fn run_list(rt: &impl Abort, alloc: Global, seed: u64, parrot: bool) -> u32 {
    let limit = seed % 2 * 900;
    let events = listed(rt, seed);
    let verdicts = verdicts_on(rt, alloc, limit, &events);
    let (mut module, mut basket) = made(rt, alloc, 3, parrot, limit);
    step_beside(rt, &mut module, &mut basket, limit, &events, &verdicts)
}

#[test]
fn every_step_gives_what_the_definition_says(rt: HostRuntime) {
    let mut echoes = 0u32;
    for seed in 0..60 {
        assert!(rt; run_list(&rt, rt.alloc(), seed * 7_919, false) == 0);
        echoes = echoes.saturating_add(run_list(&rt, rt.alloc(), seed * 7_919, true));
    }
    assert!(rt; echoes > 20, "{echoes} echoes");
}
