ghost use Rattle.std.specs.Prelude.{◌≡◌, ◌↔◌, IsSome, IfOk, OnErr, option_map, string_bytes};
ghost use Rattle.m17_io.specs.Faults.{HasCause};
ghost use Rattle.m17_ports.specs.Book.{IsNewBook, shelf_told};
ghost use Rattle.m17_ports.specs.Ports.{FailsLast, HasAsked, next_number};
ghost use Rattle.m17_client_commands.specs.Asking.{AsksBook};
ghost use Rattle.m17_client_commands.specs.Devices.{AreNew, FailsAmong, devices_told};
ghost use Rattle.m17_client_commands.specs.Talked.{questions_of};

use m17_ports::laws::ports_are_asked_in_turn;
use m17_ports::{Ports, Shelf};
use m17_values::Failed;
use m17_words::TalkOrder;

// The book of this name, or a shelf without one where there is none.
fn open_book<P: Ports>(name: &Option<String>, ports: &mut P) -> Result<Shelf<P::Book>, Failed>
    ensures asked { AsksBook (option_map string_bytes name.now)
        (P.told ports.old) (P.told ports.new) }
    ensures cause { HasCause (P.told ports.old).faults (P.told ports.new).faults result }
    ensures new { IfOk result (λ shelf. IsNewBook (P.told ports.old).calls
        (shelf_told (option_map P.Book.told shelf.inner))) }
    ensures there { IfOk result (λ shelf. IsSome shelf.inner ↔ IsSome name.now) }
    ensures named { OnErr result (IsSome name.now) }
    ensures fails_last { FailsLast P.told ports.old ports.new }
{
    match name {
        Some(name) => match ports.book(name.as_str()) {
            Ok(book) => Ok(Shelf { inner: Some(book) }),
            Err(failed) => Err(failed),
        },
        None => Ok(Shelf { inner: None }),
    }
}

// The devices of a talk, as its words name them: its link, and then its book, where it has one.
pub(crate) fn open<P: Ports>(
    order: &TalkOrder,
    ports: &mut P,
) -> Result<(P::Ear, P::Mouth, Shelf<P::Book>), Failed>
    ensures asked { IfOk result (λ d. HasAsked (questions_of order.now)
        (P.told ports.old) (P.told ports.new)) }
    ensures no_fault { IfOk result (λ d. (P.told ports.new).faults ≡ (P.told ports.old).faults) }
    ensures new { IfOk result (λ d. AreNew (P.told ports.old).calls (devices_told
        (P.Ear.told d.0) (P.Mouth.told d.1) (shelf_told (option_map P.Book.told d.2.inner)))) }
    ensures there { IfOk result (λ d. IsSome d.2.inner ↔ IsSome order.now.book) }
    ensures failed { OnErr result (FailsAmong (questions_of order.now)
        (P.told ports.old) (P.told ports.new)) }
    ensures fails_last { FailsLast P.told ports.old ports.new }
{
    ports_are_asked_in_turn();
    let (ear, mouth) = match ports.link(order.bind.as_str(), None) {
        Ok(link) => link,
        Err(failed) => return Err(failed),
    };
    match open_book(&order.book, ports) {
        Ok(shelf) => Ok((ear, mouth, shelf)),
        Err(failed) => Err(failed),
    }
}
