//! How the devices come to the jobs.
ghost use Rattle.std.specs.Prelude.{◌≡◌, ◌<◌, ◌≤◌, [], ◌∷◌, List, All, map, vec_len, vec_capacity};
ghost use Rattle.m17_ports.specs.Told.{StartsEmpty};
ghost use Rattle.m17_plan.specs.Planned.{IsPlan};
ghost use Rattle.m17_receiver.specs.Ready as receivers;
ghost use Rattle.m17_worker.specs.Ready as workers;
ghost use Rattle.m17_sender.specs.Ready as senders;
ghost use Rattle.m17_sender.specs.declared.sender.Sender.{Sender};
ghost use Rattle.m17_reflect.specs.Groups.{CanStart};
ghost use Rattle.m17_reflect.specs.Bare.{bare, bare_worker, IsSameBut};
ghost use Rattle.m17_reflect.specs.Jobs.{AreJobs};
ghost use Rattle.m17_plan.specs.Planned.{module_count};
ghost use Rattle.m17_reflect.specs.Rooms.{IsRoom};
ghost use Rattle.m17_reflect.specs.Site.{AreOrdersOf, IsSite};

use crate::site::{Site, Staffed};
use crate::vectors::take_last;
use m17_ports::{Book, Ear, Mouth};
use m17_receiver::Receiver;
use m17_sender::Sender;
use m17_worker::Worker;

/// Puts the devices into the jobs of the site: an ear, a trace and a mouth for each link, and a book for each module.
/// The vectors of ears, traces and books are empty then, and keep their room, so that the devices can come back into
/// them; the mouths stay in theirs. It allocates nothing.
pub fn staff<
    E: Ear + Drop + Send + 'static,
    M: Mouth + Drop + Send + 'static,
    B: Book + Drop + Send + 'static,
>(
    site: Site<E, M, B>,
    ears: &mut Vec<E>,
    mouths: Vec<M>,
    traces: &mut Vec<B>,
    books: &mut Vec<B>,
) -> Staffed<E, M, B>
    requires plan { IsPlan site.plan }
    requires links { (0 < vec_len ears.old) × (vec_len ears.old ≤ 4) }
    requires mouths { vec_len mouths ≡ vec_len ears.old }
    requires traces { vec_len traces.old ≡ vec_len ears.old }
    requires books { vec_len books.old ≡ module_count site.plan }
    requires new_ears { All (λ ear. StartsEmpty (E.told ear).heard) ears.old.items }
    requires new_traces { All (λ trace. StartsEmpty (B.told trace).written) traces.old.items }
    requires new_books { All (λ book. StartsEmpty (B.told book).written) books.old.items }
    requires site { IsSite (vec_len ears.old) site }
    ensures jobs { (s : Sender M) × (result.senders.jobs.items ≡ s ∷ []) × (s.mouths ≡ mouths)
        × AreJobs site.plan (vec_len ears.old) result.receivers.jobs.items
        result.workers.jobs.items s }
    ensures ears { map (λ j. j.ear) result.receivers.jobs.items ≡ ears.old.items }
    ensures traces { map (λ j. j.trace) result.receivers.jobs.items ≡ traces.old.items }
    ensures books { map (λ w. w.book) result.workers.jobs.items ≡ books.old.items }
    ensures to_receivers { AreOrdersOf (λ j. j.order)
        result.receivers.orders.items result.receivers.jobs.items }
    ensures to_workers { AreOrdersOf (λ w. w.order)
        result.workers.orders.items result.workers.jobs.items }
    ensures to_sender { AreOrdersOf (λ s. s.order)
        result.senders.orders.items result.senders.jobs.items }
    ensures receivers { CanStart (receivers.IsReady E.told B.told) result.receivers.jobs.items
        result.receivers.running.items (vec_capacity result.receivers.running) }
    ensures workers { CanStart (workers.IsReady B.told) result.workers.jobs.items
        result.workers.running.items (vec_capacity result.workers.running) }
    ensures sender { CanStart senders.IsReady result.senders.jobs.items
        result.senders.running.items (vec_capacity result.senders.running) }
    ensures emptied { (ears.new.items ≡ []) × (traces.new.items ≡ []) × (books.new.items ≡ []) }
    ensures same_room { (vec_capacity ears.new ≡ vec_capacity ears.old)
        × (vec_capacity traces.new ≡ vec_capacity traces.old)
        × (vec_capacity books.new ≡ vec_capacity books.old) }
    ensures rooms { result.rooms ≡ site.staffed.rooms }
{
    let Site {
        plan: _,
        receivers,
        workers,
        sender,
        mut staffed,
    } = site;
    staff_receivers(receivers, ears, traces, &mut staffed.receivers.jobs);
    staff_workers(workers, books, &mut staffed.workers.jobs);
    staffed
        .senders
        .jobs
        .push_reserved(with_mouths(sender, mouths));
    staffed
}

// Puts the receivers with their devices where they come, in order.
fn staff_receivers<E, B>(
    made: Vec<Receiver<(), ()>>,
    ears: &mut Vec<E>,
    traces: &mut Vec<B>,
    jobs: &mut Vec<Receiver<E, B>>,
)
    requires ears { vec_len ears.old ≡ vec_len made }
    requires traces { vec_len traces.old ≡ vec_len made }
    requires room { IsRoom (vec_len made) jobs.old }
    ensures bare { map bare jobs.new.items ≡ map bare made.items }
    ensures ears { map (λ j. j.ear) jobs.new.items ≡ ears.old.items }
    ensures traces { map (λ j. j.trace) jobs.new.items ≡ traces.old.items }
    ensures emptied { (ears.new.items ≡ []) × (traces.new.items ≡ []) }
    ensures same_room { (vec_capacity ears.new ≡ vec_capacity ears.old)
        × (vec_capacity traces.new ≡ vec_capacity traces.old) }
{
    let mut made = made;
    while let Some(receiver) = made.pop() {
        let ear = take_last(ears);
        let trace = take_last(traces);
        jobs.push_reserved(with_devices(receiver, ear, trace));
    }
    jobs.reverse();
}

fn with_devices<E, B>(receiver: Receiver<(), ()>, ear: E, trace: B) -> Receiver<E, B>
    ensures bare { bare result ≡ bare receiver }
    ensures ear { result.ear ≡ ear }
    ensures trace { result.trace ≡ trace }
{
    Receiver {
        link: receiver.link,
        modules: receiver.modules,
        places: receiver.places,
        patient: receiver.patient,
        ear,
        trace,
        directory: receiver.directory,
        post: receiver.post,
        inboxes: receiver.inboxes,
        door: receiver.door,
        notes: receiver.notes,
        order: receiver.order,
        seat: receiver.seat,
        tape: receiver.tape,
        lost: receiver.lost,
        trace_failed: receiver.trace_failed,
    }
}

// Puts the workers with their books where they come, in order.
fn staff_workers<B>(made: Vec<Worker<()>>, books: &mut Vec<B>, jobs: &mut Vec<Worker<B>>)
    requires books { vec_len books.old ≡ vec_len made }
    requires room { IsRoom (vec_len made) jobs.old }
    ensures bare { map bare_worker jobs.new.items ≡ map bare_worker made.items }
    ensures books { map (λ w. w.book) jobs.new.items ≡ books.old.items }
    ensures emptied { books.new.items ≡ [] }
    ensures same_room { vec_capacity books.new ≡ vec_capacity books.old }
{
    let mut made = made;
    while let Some(worker) = made.pop() {
        let book = take_last(books);
        jobs.push_reserved(with_book(worker, book));
    }
    jobs.reverse();
}

fn with_book<B>(worker: Worker<()>, book: B) -> Worker<B>
    ensures bare { bare_worker result ≡ bare_worker worker }
    ensures book { result.book ≡ book }
{
    Worker {
        letter: worker.letter,
        links: worker.links,
        limit: worker.limit,
        module: worker.module,
        basket: worker.basket,
        book,
        inbox: worker.inbox,
        offers: worker.offers,
        order: worker.order,
        seat: worker.seat,
        tape: worker.tape,
        book_failed: worker.book_failed,
    }
}

fn with_mouths<M>(sender: Sender<()>, mouths: Vec<M>) -> Sender<M>
    ensures mouths { result.mouths ≡ mouths }
    ensures rest { IsSameBut sender result }
{
    Sender {
        name: sender.name,
        mouths,
        queues: sender.queues,
        door: sender.door,
        notes: sender.notes,
        held: sender.held,
        order: sender.order,
        places: sender.places,
        hint: sender.hint,
    }
}
