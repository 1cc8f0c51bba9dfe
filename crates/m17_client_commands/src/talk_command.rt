ghost use Rattle.std.specs.Prelude.{◌≡◌, ℕ, None, IfOk, OnOk, OnErr, option_map};
ghost use Rattle.m17_io.specs.Faults.{HasCause, HasCauses};
ghost use Rattle.m17_print.specs.Endings.{Grows};
ghost use Rattle.m17_ports.specs.Book.{shelf_told};
ghost use Rattle.m17_ports.specs.Ports.{FailsLast};
ghost use Rattle.m17_client.specs.Talk.{IsInOrder};
ghost use Rattle.m17_client.specs.TalkDevices.{HasTalked};
ghost use Rattle.m17_client_commands.specs.Devices.{devices_told};
ghost use Rattle.m17_client_commands.specs.Talked.{failed_device, handed, talk_plan, ending_of, ComesToTalk, HasPrinted, HasPrintedPart, Streams};
ghost use Rattle.m17_client_commands.specs.Walk.{Prints};

use crate::talk_line::make_talk_line;
use crate::talk_opening::open;
use crate::{ScriptFailure, TalkEnding, Talked, read_script};
use m17_client::{Client, TalkEnd};
use m17_io::{Fault, Input, Sink};
use m17_ports::{Book, Ear, Mouth, Ports, Shelf};
use m17_print::Line;
use m17_stream::StreamPacket;
use m17_values::{Failed, NoMemory};
use m17_words::TalkOrder;
use std::alloc::Global;
use std::sync::Wait;

/// Runs a client as its words and its script say: reads the script whole, asks the ports for the link and then for the
/// book, where one is named, runs the client over them, and writes a line that says what became of it. The answer says
/// how it ended, with the devices where the talk ran; the last line is the caller's to write. It may wait as long as the
/// ear does. `NoMemory` where there is none for the script, before the ports are asked for anything.
pub fn talk<R: Wait, P: Ports, S: Input<K>, K: Sink>(
    rt: &R,
    alloc: Global,
    order: &TalkOrder,
    ports: &mut P,
    input: &mut S,
    out: &mut K,
) -> Result<Talked<P::Ear, P::Mouth, P::Book>, NoMemory>
    // A device is told to have failed exactly where its count of faults rose.
    ensures causes { IfOk result (λ done. HasCauses ((S.told input.old).faults, (K.told out.old).faults)
        ((S.told input.new).faults, (K.told out.new).faults) (failed_device done.ending)) }
    // What the ending says of the input, the ports and the devices holds, and what it prints stands written.
    ensures ended { IfOk result (λ done. ComesToTalk order.now done.ending (handed
        (P.told ports.old) (P.told ports.new)
        (option_map (λ d. devices_told (P.Ear.told d.0) (P.Mouth.told d.1)
        (shelf_told (option_map P.Book.told d.2.inner))) done.devices))
        (record {
          left = (S.told input.old).left;
          rest = (S.told input.new).left;
          first = (K.told out.old).written;
          written = (K.told out.new).written;
        })) }
    ensures appended { Grows (K.told out.old).written (K.told out.new).written }
    // Where the ports fail, that was the last question: until then their count of faults stands.
    ensures fails_last { FailsLast P.told ports.old ports.new }
    // Want of memory comes before the ports are asked and before anything is written, and no device has failed then.
    ensures untouched { OnErr result ((ports.new ≡ ports.old)
        × ((K.told out.new).written ≡ (K.told out.old).written)) }
    ensures no_fault { OnErr result (((S.told input.new).faults ≡ (S.told input.old).faults)
        × ((K.told out.new).faults ≡ (K.told out.old).faults)) }
{
    let script = match read_script(alloc, input, out) {
        Ok(script) => script,
        Err(ScriptFailure::Refused { place, reason }) => {
            return Ok(without(TalkEnding::Refused { place, reason }));
        }
        Err(ScriptFailure::Device(Fault::Read)) => return Ok(without(TalkEnding::ReadFailed)),
        Err(ScriptFailure::Device(Fault::Write)) => return Ok(without(TalkEnding::WriteFailed)),
        Err(ScriptFailure::NoMemory) => return Err(NoMemory),
    };
    let (ear, mouth, shelf) = match open(order, ports) {
        Ok(devices) => devices,
        Err(_) => return Ok(without(TalkEnding::PortFailed)),
    };
    let (mut ear, mut mouth, mut shelf) = (ear, mouth, shelf);
    let end = run_client(rt, order, &script, &mut ear, &mut mouth, &mut shelf);
    let printed = print_end(&end, out);
    Ok(Talked {
        ending: ending(&end, printed),
        devices: Some((ear, mouth, shelf)),
    })
}

// What a command came to that hands back no devices.
fn without<E, M, B>(ending: TalkEnding) -> Talked<E, M, B>
    ensures ending { result.ending ≡ ending }
    ensures none { result.devices ≡ None }
{
    Talked {
        ending,
        devices: None,
    }
}

// Runs the client over its devices.
fn run_client<R: Wait, E: Ear, M: Mouth, B: Book>(
    rt: &R,
    order: &TalkOrder,
    script: &[(u64, StreamPacket)],
    ear: &mut E,
    mouth: &mut M,
    shelf: &mut Shelf<B>,
) -> TalkEnd
    requires { IsInOrder script.now }
    ensures { HasTalked (talk_plan order.now script.now) result
        (devices_told (E.told ear.old) (M.told mouth.old)
        (shelf_told (option_map B.told shelf.old.inner)))
        (devices_told (E.told ear.new) (M.told mouth.new)
        (shelf_told (option_map B.told shelf.new.inner))) }
{
    let client = Client::new(order.call, order.letter, order.listen);
    m17_client::talk(rt, ear, mouth, shelf, &order.to, client, script, order.stay)
}

// Writes the line of a talk.
fn print_end<K: Sink>(end: &TalkEnd, out: &mut K) -> Result<(), Failed>
    ensures cause { HasCause (K.told out.old).faults (K.told out.new).faults result }
    ensures prints { Prints result end.now (K.told out.old).written (K.told out.new).written }
{
    let mut line = Line::new();
    make_talk_line(&mut line, end);
    out.write(line.bytes())
}

// How the command ends whose talk came to this end.
fn ending(end: &TalkEnd, printed: Result<(), Failed>) -> TalkEnding
    ensures ok { OnOk printed (result ≡ ending_of end.now) }
    ensures err { OnErr printed (result ≡ TalkEnding.WriteFailed) }
{
    if printed.is_err() {
        return TalkEnding::WriteFailed;
    }
    if end.lost {
        return TalkEnding::LinkLost;
    }
    if end.book_failed {
        return TalkEnding::BookFailed;
    }
    TalkEnding::Finished
}
