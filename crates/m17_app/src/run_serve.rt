ghost use Rattle.std.specs.Prelude.{◌≡◌, ◌≢◌, ℕ, ◌<◌, Contains, IfErr, IfOk, IsSome, None, Some, List, true, vec_len};
ghost use Rattle.m17_io.specs.Faults.{HasCauses};
ghost use Rattle.m17_io.specs.Source.{SourceTold};
ghost use Rattle.m17_ports.specs.Ports.{FailsLast, next_number};
ghost use Rattle.m17_gate.specs.Links.{rules_at};
ghost use Rattle.m17_gate.specs.Taking.{fault_told, SaysFailure};
ghost use Rattle.m17_words.specs.declared.command.Command.TheVariants as commands;
ghost use Rattle.m17_serve.specs.Served.{IsServable};
ghost use Rattle.m17_app.specs.Commands.{Runs};
ghost use Rattle.m17_app.specs.Doing.{doing, done_of};
ghost use Rattle.m17_app.specs.Fitted.{guards_of, paces_of};
ghost use Rattle.m17_app.specs.Serve.{serve_last_line, serve_status, KeepsBy, TakesBy};
ghost use Rattle.m17_app.specs.Status.{streams, WritesLast};

use crate::conclude::conclude;
use crate::done::{Ended, alone};
use crate::fitted::{Behind, BehindMouth, Fitted, Fittings};
use crate::status::Status;
use m17_crew::Crew;
use m17_decorators::{Guards, LinkPaces, PaceClock};
use m17_gate::laws::no_rules_are_refused;
use m17_gate::{LinkRules, RulesFailure, take_rules};
use m17_io::{Input, Sink};
use m17_ports::{Book, Ear, Mouth, Ports};
use m17_serve::{ServeEnding, Served, serve};
use m17_values::NoMemory;
use m17_words::ServeOrder;
use std::alloc::Global;
use std::hash::RandomState;
use std::sync::Wait;
use std::thread::Threads;
use std::time::Clock;

// Runs `serve` to its last line, by the rules of the input where the words say so, which are read whole before the ports are
// asked for anything. The ports come back.
pub(crate) fn run_serve<
    R: Threads + Wait + Clock + Copy + Drop + Send + 'static,
    P: Ports + Drop,
    C: Crew,
    S: Input<K>,
    K: Sink,
>(
    rt: &R,
    alloc: Global,
    keys: RandomState,
    order: &ServeOrder,
    ports: P,
    crew: &mut C,
    input: &mut S,
    out: &mut K,
) -> (Ended<P::Ear, P::Mouth, P::Book, R>, P)
where
    <P::Ear as Ear>::Label: 'static,
    <P::Book as Book>::Label: 'static,
    requires servable { IsServable order.now }
    ensures runs { Runs (commands.Serve order.now) result.0.status
        (streams (S.told input.old) (K.told out.old)) (streams (S.told input.new) (K.told out.new))
        (doing P.Ear.told P.Mouth.told P.Book.told (P.told ports) (P.told result.1)
        (C.refusals crew.old) (C.refusals crew.new) (done_of result.0)) }
    ensures fails_last { FailsLast P.told ports result.1 }
    ensures unasked { result.0.status ≡ Status.NoMemory → result.0.board ≡ None
        → crew.new ≡ crew.old }
    ensures watch { result.0.refused ≢ None → IsSome order.now.board
        → result.0.board ≡ None → C.starts crew.new ≡ next_number (C.starts crew.old) }
    ensures withheld { Contains (C.refuses crew.old) (C.starts crew.old) → result.0.board ≡ None }
{
    no_rules_are_refused();
    match fittings_for(alloc, keys, order, input, out) {
        Ok(fittings) => {
            let mut fitted = Fitted {
                ports,
                fittings,
                clock: PaceClock::new(*rt),
            };
            let served = serve(rt, alloc, order, &mut fitted, crew, out);
            (end_served(served, out), fitted.ports)
        }
        Err(failure) => (alone(conclude(out, &failure.into_ending())), ports),
    }
}

// What is to stand before the ears of the links of the words, and behind their mouths: what fills in CRCs, where the words say
// so, guards, unless they leave them out, gates of these rules, and paces, where they have a bound. All memory that is needed
// is taken here.
fn fittings_for<S: Input<K>, K: Sink>(
    alloc: Global,
    keys: RandomState,
    order: &ServeOrder,
    input: &mut S,
    out: &mut K,
) -> Result<Fittings, RulesFailure>
    ensures fill { IfOk result (λ made. made.fills ≡ order.now.fill) }
    ensures guards { IfOk result (λ made. made.guards ≡ guards_of order.now) }
    ensures paces { IfOk result (λ made. made.paces ≡ paces_of order.now) }
    ensures rules { IfOk result (λ made. TakesBy order.now.rules made.rules.rules
        (streams (S.told input.old) (K.told out.old)) (streams (S.told input.new) (K.told out.new))) }
    ensures each { IfOk result (λ made. (i : ℕ) → i < vec_len order.now.binds
        → rules_at made.rules i ≡ made.rules.rules) }
    ensures kept { IfOk result (λ _. KeepsBy order.now.rules
        (streams (S.told input.old) (K.told out.old)) (streams (S.told input.new) (K.told out.new))) }
    ensures asked { IfErr result (λ failure. failure ≢ RulesFailure.NoMemory
        → order.now.rules ≡ true) }
    ensures no_memory { IfErr result (λ failure. failure ≡ RulesFailure.NoMemory
        → KeepsBy order.now.rules (streams (S.told input.old) (K.told out.old))
        (streams (S.told input.new) (K.told out.new))) }
    ensures refused { IfErr result (λ failure. (text : List ℕ)
        → (S.told input.old).left ≡ Some text → SaysFailure failure text) }
    ensures causes { HasCauses ((S.told input.old).faults, (K.told out.old).faults)
        ((S.told input.new).faults, (K.told out.new).faults) (fault_told result) }
    ensures nothing_written { (K.told out.new).written ≡ (K.told out.old).written }
{
    let Ok(guards) = guards_for(alloc, keys, order) else {
        return Err(RulesFailure::NoMemory);
    };
    let Ok(paces) = paces_for(alloc, order) else {
        return Err(RulesFailure::NoMemory);
    };
    match rules_for(alloc, order, input, out) {
        Ok(rules) => Ok(Fittings {
            fills: order.fill,
            guards,
            rules,
            paces,
        }),
        Err(failure) => Err(failure),
    }
}

// A guard for each link of the words, unless they leave it out.
fn guards_for(alloc: Global, keys: RandomState, order: &ServeOrder) -> Result<Guards, NoMemory>
    ensures { IfOk result (λ guards. guards ≡ guards_of order.now) }
{
    if order.guard {
        Guards::make(alloc, keys, order.binds.len())
    } else {
        Ok(Guards::none(alloc))
    }
}

// A pace for each link of the words, where they have a bound.
fn paces_for(alloc: Global, order: &ServeOrder) -> Result<LinkPaces, NoMemory>
    ensures { IfOk result (λ paces. paces ≡ paces_of order.now) }
{
    if order.pace > 0 {
        LinkPaces::make(alloc, order.pace as usize, order.binds.len())
    } else {
        Ok(LinkPaces::none(alloc))
    }
}

// The rules for the gates of the links of the words: those of the input, which is read whole, where the words say so; and else
// none, and nothing is read.
fn rules_for<S: Input<K>, K: Sink>(
    alloc: Global,
    order: &ServeOrder,
    input: &mut S,
    out: &mut K,
) -> Result<LinkRules, RulesFailure>
    ensures rules { IfOk result (λ made. TakesBy order.now.rules made.rules
        (streams (S.told input.old) (K.told out.old)) (streams (S.told input.new) (K.told out.new))) }
    ensures each { IfOk result (λ made. (i : ℕ) → i < vec_len order.now.binds
        → rules_at made i ≡ made.rules) }
    ensures kept { IfOk result (λ _. KeepsBy order.now.rules
        (streams (S.told input.old) (K.told out.old)) (streams (S.told input.new) (K.told out.new))) }
    ensures asked { IfErr result (λ _. order.now.rules ≡ true) }
    ensures refused { IfErr result (λ failure. (text : List ℕ)
        → (S.told input.old).left ≡ Some text → SaysFailure failure text) }
    ensures causes { HasCauses ((S.told input.old).faults, (K.told out.old).faults)
        ((S.told input.new).faults, (K.told out.new).faults) (fault_told result) }
    ensures nothing_written { (K.told out.new).written ≡ (K.told out.old).written }
{
    if order.rules {
        match take_rules(alloc, input, out) {
            Ok(rules) => match LinkRules::make(alloc, &rules, order.binds.len()) {
                Ok(made) => Ok(made),
                Err(_) => Err(RulesFailure::NoMemory),
            },
            Err(failure) => Err(failure),
        }
    } else {
        Ok(LinkRules::none(alloc))
    }
}

// Ends a run of `serve` that came to this: writes its last line, and hands on all that was written. Where there was no
// memory, nothing is written or handed on.
fn end_served<E: Ear + Drop, M: Mouth + Drop, B: Drop, R: Clock + Copy + Drop, K: Sink>(
    served: Served<Behind<E>, BehindMouth<M, R>, B>,
    out: &mut K,
) -> Ended<E, M, B, R>
    ensures memory { served.ending ≡ ServeEnding.NoMemory
        → (result.status ≡ Status.NoMemory) × (out.new ≡ out.old) }
    ensures concluded { served.ending ≢ ServeEnding.NoMemory
        → (source : SourceTold)
        → WritesLast (serve_last_line served.ending) (serve_status served.ending) result.status
        (streams source (K.told out.old)) (streams source (K.told out.new)) }
    ensures no_talk { result.talk ≡ None }
    ensures no_bridge { result.bridge ≡ None }
    ensures house { result.house ≡ served.house }
    ensures refused { result.refused ≡ served.refused }
    ensures board { result.board ≡ served.board }
{
    let Served {
        ending,
        house,
        refused,
        board,
    } = served;
    Ended {
        status: conclude(out, &ending.into_ending()),
        talk: None,
        house,
        refused,
        bridge: None,
        board,
    }
}
