//! The run of the reflector over threads.
ghost use Rattle.std.specs.Prelude.{◌≡◌, ◌<◌, ◌≤◌, true, All, IfOk, IfErr, MatchResult, vec_len};
ghost use Rattle.m17_ports.specs.Told.{StartsEmpty};
ghost use Rattle.m17_plan.specs.Planned.{IsPlan};
ghost use Rattle.m17_reflect.specs.Headline.{Headline};
ghost use Rattle.m17_reflect.specs.declared.returned.HouseRefusal.TheVariants as refusals;
ghost use Rattle.m17_reflect.specs.Run.{module_count};
ghost use Rattle.m17_reflect.specs.Views.{run_of, IsRefusedFor};

use crate::gather::gather;
use crate::jobs::part;
use crate::laws::{of_lanes, of_links, of_modules};
use crate::parted::Parted;
use crate::{HouseRefusal, Refused, Returned, launch, prepare, staff};
use m17_crew::Crew;
use m17_plan::Plan;
use m17_ports::{Book, Ear, Mouth};
use std::alloc::Global;
use std::sync::Wait;
use std::thread::Threads;

/// Runs the reflector of this plan over these devices, each job in a thread of its own: a receiver for each ear, with its
/// trace, a worker for each module, with its book, and one sender for all mouths. It ends when each ear has come to its
/// end and what was queued by then is said. There are 1 to 4 ears, as many mouths and traces, and a book for each module; a
/// plan is patient with one ear alone; and ears, traces and books that tell their content have none yet.
///
/// `Crew` where the crew refused a start, and whoever was started has quit; `NoMemory` where there is none for the lanes and
/// the tables, before anything was heard. Both times all devices come back as they were. It waits for the threads, and
/// for ever where an ear goes on for ever. From the first thing heard on it takes no memory.
pub fn reflect<
    E: Ear + Drop + Send + 'static,
    M: Mouth + Drop + Send + 'static,
    B: Book + Drop + Send + 'static,
    C: Crew,
    R: Threads + Wait + Copy + Send + 'static,
>(
    rt: &R,
    alloc: Global,
    plan: &Plan,
    ears: Vec<E>,
    mouths: Vec<M>,
    traces: Vec<B>,
    books: Vec<B>,
    crew: &mut C,
) -> Result<Returned<E, M, B>, Refused<E, M, B>>
    requires plan { IsPlan plan.now }
    requires links { (0 < vec_len ears) × (vec_len ears ≤ 4) }
    requires alone { plan.now.patient ≡ true → vec_len ears ≡ 1 }
    requires mouths { vec_len mouths ≡ vec_len ears }
    requires traces { vec_len traces ≡ vec_len ears }
    requires books { vec_len books ≡ module_count plan.now }
    requires new_ears { All (λ ear. StartsEmpty (E.told ear).heard) ears.items }
    requires new_traces { All (λ trace. StartsEmpty (B.told trace).written) traces.items }
    requires new_books { All (λ book. StartsEmpty (B.told book).written) books.items }
    ensures headline { IfOk result (λ r.
        Headline (run_of E.told M.told B.told plan.now (record {
          ears = ears.items;
          mouths = mouths.items;
          traces = traces.items;
          books = books.items;
        }) r)) }
    ensures refused { IfErr result (λ r. (r.ears.items ≡ ears.items)
        × (r.mouths.items ≡ mouths.items) × (r.traces.items ≡ traces.items)
        × (r.books.items ≡ books.items)) }
    ensures cause { MatchResult result (λ _. C.refusals crew.new ≡ C.refusals crew.old)
        (λ r. IsRefusedFor r.why (C.refusals crew.old) (C.refusals crew.new)) }
    // Want of memory comes before the crew is asked for anything: no thread was started.
    ensures unasked { IfErr result (λ r. r.why ≡ refusals.NoMemory → crew.new ≡ crew.old) }
{
    of_lanes();
    of_links();
    of_modules::<M::Label>();
    let mut ears = ears;
    let mut traces = traces;
    let mut books = books;
    let links = ears.len() as u32;
    let Ok(site) = prepare(alloc, plan, links) else {
        return Err(Refused {
            why: HouseRefusal::NoMemory,
            ears,
            mouths,
            traces,
            books,
        });
    };
    let mut staffed = staff(site, &mut ears, mouths, &mut traces, &mut books);
    let started = launch(
        rt,
        alloc,
        crew,
        &mut staffed.receivers,
        &mut staffed.workers,
        &mut staffed.senders,
    );
    let parted = part(staffed, ears, traces, books);
    match started {
        Ok(()) => Ok(gather(rt, parted)),
        Err(_) => Err(hand_back(parted)),
    }
}

// What is handed back where nothing was run.
fn hand_back<E: Drop, M: Drop, B: Drop>(parted: Parted<E, M, B>) -> Refused<E, M, B>
    ensures why { result.why ≡ refusals.Crew }
    ensures ears { result.ears ≡ parted.links.ears }
    ensures mouths { result.mouths ≡ parted.voice.mouths }
    ensures traces { result.traces ≡ parted.links.traces }
    ensures books { result.books ≡ parted.modules.books }
{
    let Parted {
        links,
        modules,
        voice,
        ..
    } = parted;
    Refused {
        why: HouseRefusal::Crew,
        ears: links.ears,
        mouths: voice.mouths,
        traces: links.traces,
        books: modules.books,
    }
}
