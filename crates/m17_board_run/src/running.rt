//! The run itself, and its watch where a board is shown.
ghost use Rattle.std.specs.Prelude.{◌≡◌, ◌<◌, ◌≤◌, true, All, Contains, IfErr, IfOk, IsSome, MatchResult, None, Some, is_some, length, option_map, vec_capacity, vec_len, []};
ghost use Rattle.m17_ports.specs.Told.{StartsEmpty};
ghost use Rattle.m17_ports.specs.Ports.{next_number};
ghost use Rattle.m17_control.specs.Modules.{letters_of};
ghost use Rattle.m17_plan.specs.Planned.{IsPlan, module_count};
ghost use Rattle.m17_board.specs.Ends.{AreOfOneBoard};
ghost use Rattle.m17_board.specs.Ending.{IsFresh};
ghost use Rattle.m17_board.specs.Written.{ShowsBoard};
ghost use Rattle.m17_reflect.specs.Views.{devices_of, handed_of, kinds_back, kinds_refused, IsRefusedFor};
ghost use Rattle.m17_reflect.specs.declared.returned.HouseRefusal.TheVariants as refusals;
ghost use Rattle.m17_board_run.specs.Board.{HasEnds, HasRooms, IsMade};
ghost use Rattle.m17_board_run.specs.Boarded.{LinesBack, RanOnBoard};
ghost use Rattle.m17_board_run.specs.Kept.{told_of_shelf};

use crate::board::{Board, Desk, Rooms};
use crate::keeping::reflect_kept;
use m17_board::{Glance, Poster, Watch};
use m17_crew::{Crew, Order, Running};
use m17_lane::Pusher;
use m17_plan::Plan;
use m17_ports::{Book, Ear, Mouth, Shelf};
use m17_reflect::{HouseRefusal, Refused, Returned};
use std::alloc::Global;
use std::sync::Wait;
use std::thread::Threads;
use std::time::Clock;

/// What a run hands back: what the reflector does, and where a board is shown the book of the lines, and whether a write of
/// it failed.
#[derive(Drop)]
pub struct OnBoard<E, M, B> {
    /// What the reflector hands back.
    pub house: Returned<E, M, Shelf<B>>,
    /// Where the lines were written.
    pub lines: Option<B>,
    /// Whether a write of a line failed.
    pub lines_failed: bool,
}

/// What comes back where nothing was run: the devices as they were handed in, and the book of the lines, where the watch had
/// begun.
#[derive(Drop)]
pub struct RefusedOnBoard<E, M, B> {
    /// The devices, and why nothing was run.
    pub refused: Refused<E, M, Shelf<B>>,
    /// Where lines would have been written. None where the crew refused the watch, or no board is shown.
    pub lines: Option<B>,
}

/// Runs the reflector of this plan over these devices as `reflect` does. With a book of lines it shows a board: the books of
/// its modules post, and a watch, which is started before all other jobs and ends after them, writes to `lines` what changed
/// of a module, ten times a second at most. The board is made for as many links and modules, and to be shown exactly where
/// there is a book of lines. Without one nothing posts, no watch is started, and the books are kept as they are.
///
/// Where the crew refuses the watch, or the reflector refuses to run, all devices come back as they were. The watch is joined
/// in any case but the first, and its book comes back, in which nothing was written. `Crew` comes only where the crew's count
/// of refusals rose; with `NoMemory` it stands, but the crew has started the watch. Labels of books are types that live for
/// ever, since the type of a book that posts has one in it.
pub fn reflect_on_board<
    E: Ear + Drop + Send + 'static,
    M: Mouth + Drop + Send + 'static,
    B: Book + Drop + Send + 'static,
    C: Crew,
    R: Threads + Wait + Clock + Copy + Drop + Send + 'static,
>(
    rt: &R,
    alloc: Global,
    plan: &Plan,
    ears: Vec<E>,
    mouths: Vec<M>,
    traces: Vec<Shelf<B>>,
    books: Vec<Shelf<B>>,
    lines: Option<B>,
    board: Board<B, R>,
    crew: &mut C,
) -> Result<OnBoard<E, M, B>, RefusedOnBoard<E, M, B>>
where
    B::Label: 'static,
    requires plan { IsPlan plan.now }
    requires board { IsMade (vec_len ears) (module_count plan.now) (is_some lines) board }
    requires links { (0 < vec_len ears) × (vec_len ears ≤ 4) }
    requires alone { plan.now.patient ≡ true → vec_len ears ≡ 1 }
    requires mouths { vec_len mouths ≡ vec_len ears }
    requires traces { vec_len traces ≡ vec_len ears }
    requires books { vec_len books ≡ module_count plan.now }
    requires new_ears { All (λ ear. StartsEmpty (E.told ear).heard) ears.items }
    requires new_traces { All (λ trace. StartsEmpty (told_of_shelf B.told trace).written) traces.items }
    requires new_books { All (λ book. StartsEmpty (told_of_shelf B.told book).written) books.items }
    // The reflector ran, and the lines show what its books were written, where there are lines.
    ensures ran { IfOk result (λ r. RanOnBoard plan.now
        (devices_of E.told M.told (told_of_shelf B.told) (record {
          ears = ears.items;
          mouths = mouths.items;
          traces = traces.items;
          books = books.items;
        }))
        (devices_of E.told M.told (told_of_shelf B.told) (kinds_back r.house))
        (handed_of r.house) r.lines_failed (option_map B.told lines) (option_map B.told r.lines)) }
    // Nothing was run, and all comes back as it was; the book of the lines stays away only where the crew refused the watch.
    ensures refused { IfErr result (λ r. kinds_refused r.refused ≡ record {
      ears = ears.items;
      mouths = mouths.items;
      traces = traces.items;
      books = books.items;
    }) }
    ensures lines_back { IfErr result (λ r.
        LinesBack r.refused.why (option_map B.told lines) (option_map B.told r.lines)) }
    ensures cause { MatchResult result (λ _. C.refusals crew.new ≡ C.refusals crew.old)
        (λ r. IsRefusedFor r.refused.why (C.refusals crew.old) (C.refusals crew.new)) }
    // Where it stays away, the crew refused the first start, that of the watch; and it does where the crew withholds that.
    ensures first { IfErr result (λ r. IsSome lines → r.lines ≡ None →
        C.starts crew.new ≡ next_number (C.starts crew.old)) }
    ensures withheld { Contains (C.refuses crew.old) (C.starts crew.old) →
        MatchResult result (λ r. r.lines ≡ None) (λ r. r.lines ≡ None) }
    ensures unasked { IfErr result (λ r. r.lines ≡ None → r.refused.why ≡ refusals.NoMemory
        → crew.new ≡ crew.old) }
{
    let Board {
        posters,
        rooms,
        desk,
    } = board;
    match lines {
        None => match reflect_kept(
            rt, alloc, plan, ears, mouths, traces, books, posters, rooms, crew,
        ) {
            Ok(ran) => Ok(OnBoard {
                house: ran.0,
                lines: None,
                lines_failed: false,
            }),
            Err(back) => Err(RefusedOnBoard {
                refused: back.0,
                lines: None,
            }),
        },
        Some(lines) => match desk {
            None => unreachable!(),
            Some(desk) => reflect_watched(
                rt, alloc, plan, ears, mouths, traces, books, posters, rooms, lines, desk, crew,
            ),
        },
    }
}

// The same with a book of lines and what a watch needs.
fn reflect_watched<
    E: Ear + Drop + Send + 'static,
    M: Mouth + Drop + Send + 'static,
    B: Book + Drop + Send + 'static,
    C: Crew,
    R: Threads + Wait + Clock + Copy + Drop + Send + 'static,
>(
    rt: &R,
    alloc: Global,
    plan: &Plan,
    ears: Vec<E>,
    mouths: Vec<M>,
    traces: Vec<Shelf<B>>,
    books: Vec<Shelf<B>>,
    posters: Vec<Poster>,
    rooms: Rooms<B, R>,
    lines: B,
    desk: Desk,
    crew: &mut C,
) -> Result<OnBoard<E, M, B>, RefusedOnBoard<E, M, B>>
where
    B::Label: 'static,
    requires plan { IsPlan plan.now }
    requires rooms { HasRooms (vec_len ears) (module_count plan.now) rooms }
    requires desk { HasEnds (module_count plan.now) posters.items desk }
    requires links { (0 < vec_len ears) × (vec_len ears ≤ 4) }
    requires alone { plan.now.patient ≡ true → vec_len ears ≡ 1 }
    requires mouths { vec_len mouths ≡ vec_len ears }
    requires traces { vec_len traces ≡ vec_len ears }
    requires books { vec_len books ≡ module_count plan.now }
    requires new_ears { All (λ ear. StartsEmpty (E.told ear).heard) ears.items }
    requires new_traces { All (λ trace. StartsEmpty (told_of_shelf B.told trace).written) traces.items }
    requires new_books { All (λ book. StartsEmpty (told_of_shelf B.told book).written) books.items }
    ensures ran { IfOk result (λ r. RanOnBoard plan.now
        (devices_of E.told M.told (told_of_shelf B.told) (record {
          ears = ears.items;
          mouths = mouths.items;
          traces = traces.items;
          books = books.items;
        }))
        (devices_of E.told M.told (told_of_shelf B.told) (kinds_back r.house))
        (handed_of r.house) r.lines_failed (Some (B.told lines)) (option_map B.told r.lines)) }
    ensures refused { IfErr result (λ r. kinds_refused r.refused ≡ record {
      ears = ears.items;
      mouths = mouths.items;
      traces = traces.items;
      books = books.items;
    }) }
    ensures lines_back { IfErr result (λ r.
        LinesBack r.refused.why (Some (B.told lines)) (option_map B.told r.lines)) }
    ensures cause { MatchResult result (λ _. C.refusals crew.new ≡ C.refusals crew.old)
        (λ r. IsRefusedFor r.refused.why (C.refusals crew.old) (C.refusals crew.new)) }
    ensures first { IfErr result (λ r. r.lines ≡ None →
        C.starts crew.new ≡ next_number (C.starts crew.old)) }
    ensures withheld { Contains (C.refuses crew.old) (C.starts crew.old) →
        MatchResult result (λ r. r.lines ≡ None) (λ r. r.lines ≡ None) }
{
    let Desk {
        eyes,
        last,
        quit,
        order,
        glances,
    } = desk;
    let watch = Watch {
        modules: plan.modules,
        eyes,
        last,
        book: lines,
        failed: false,
        order,
        clock: *rt,
    };
    let watching = match crew.start(rt, alloc, watch) {
        Ok(watching) => watching,
        Err(_) => return Err(unwatched(ears, mouths, traces, books)),
    };
    match reflect_kept(
        rt, alloc, plan, ears, mouths, traces, books, posters, rooms, crew,
    ) {
        Ok(ran) => {
            let (house, posters) = ran;
            let (lines, lines_failed) = end_watch(rt, alloc, watching, quit, posters, glances);
            Ok(OnBoard {
                house,
                lines: Some(lines),
                lines_failed,
            })
        }
        Err(back) => {
            let (refused, posters) = back;
            let (unwritten, _) = end_watch(rt, alloc, watching, quit, posters, glances);
            Err(RefusedOnBoard {
                refused,
                lines: Some(unwritten),
            })
        }
    }
}

// What comes back where the crew refused the watch.
fn unwatched<E, M, B>(
    ears: Vec<E>,
    mouths: Vec<M>,
    traces: Vec<Shelf<B>>,
    books: Vec<Shelf<B>>,
) -> RefusedOnBoard<E, M, B>
    ensures same { kinds_refused result.refused ≡ record {
      ears = ears.items;
      mouths = mouths.items;
      traces = traces.items;
      books = books.items;
    } }
    ensures why { result.refused.why ≡ refusals.Crew }
    ensures lines { result.lines ≡ None }
{
    RefusedOnBoard {
        refused: Refused {
            why: HouseRefusal::Crew,
            ears,
            mouths,
            traces,
            books,
        },
        lines: None,
    }
}

// Tells the watch to quit, waits for it, and ends its board with these posters.
fn end_watch<B: Book + Drop + Send + 'static, R: Threads + Wait + Clock + Drop + Send + 'static>(
    rt: &R,
    alloc: Global,
    watching: Running<Watch<B, R>>,
    quit: Pusher<Order>,
    posters: Vec<Poster>,
    glances: Vec<Glance>,
) -> (B, bool)
    requires fresh { IsFresh watching }
    requires board { AreOfOneBoard posters.items watching.eyes.items }
    requires each { vec_len posters ≡ length (letters_of watching.modules) }
    requires numbers { vec_len watching.last ≡ length (letters_of watching.modules) }
    requires empty { glances.items ≡ [] }
    requires room { vec_len posters ≤ vec_capacity glances }
    ensures { ShowsBoard watching.modules posters.items result.1 (B.told watching.book)
        (B.told result.0) }
{
    m17_board::laws::ends_stay::<B, R>();
    m17_board::laws::numbers_of_lines_rise::<B, R>();
    let mut quit = quit;
    let mut glances = glances;
    quit.push_waiting(rt, Order::Quit);
    let watch = watching.join(rt);
    watch.end(rt, alloc, posters, &mut glances)
}
