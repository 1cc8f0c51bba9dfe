//! The reflector over books that are kept as they are or post, from their shelves to these.
ghost use Rattle.std.specs.Prelude.{◌≡◌, ◌⊎◌, ◌<◌, ◌≤◌, [], true, false, All, IfErr, IfOk, MatchResult, length, map, nat_lt, vec_capacity, vec_len};
ghost use Rattle.std.specs.List.{AllZip};
ghost use Rattle.m17_ports.specs.Told.{StartsEmpty};
ghost use Rattle.m17_plan.specs.Planned.{IsPlan, module_count};
ghost use Rattle.m17_reflect.specs.Views.{devices_of, handed_of, kinds_back, kinds_refused, IsRefusedFor};
ghost use Rattle.m17_reflect.specs.declared.returned.HouseRefusal.TheVariants as refusals;
ghost use Rattle.m17_board_run.specs.Board.{HasRooms};
ghost use Rattle.m17_board_run.specs.Boarded.{RanOver};
ghost use Rattle.m17_board_run.specs.Kept.{told_of_shelf};
ghost use Rattle.m17_board_run.specs.Putting.{plain_of, posters_of, IsBack, IsKept, IsSameEnd};
ghost use Rattle.m17_board_run.specs.Returning.{HasRoom, IsOff, IsOffRefused};

use crate::board::Rooms;
use crate::kept::{Kept, KeptLabel};
use crate::putting::{keep_plain, keep_posting, plain_back, posting_back};
use m17_board::Poster;
use m17_crew::Crew;
use m17_plan::Plan;
use m17_ports::{Book, Ear, Mouth, Shelf};
use m17_reflect::{Refused, Returned, reflect};
use std::alloc::Global;
use std::sync::Wait;
use std::thread::Threads;

// What came back, and the posters.
pub(crate) type KeptRun<E, M, B> = Result<
    (Returned<E, M, Shelf<B>>, Vec<Poster>),
    (Refused<E, M, Shelf<B>>, Vec<Poster>),
>;

// Room for what comes back.
#[derive(Drop)]
struct Back<B> {
    traces: Vec<Shelf<B>>,
    books: Vec<Shelf<B>>,
    posters: Vec<Poster>,
}

// Runs the reflector over these devices: where there are posters, one for each book, the books post by them.
pub(crate) fn reflect_kept<
    E: Ear + Drop + Send + 'static,
    M: Mouth + Drop + Send + 'static,
    B: Book + Drop + Send + 'static,
    C: Crew,
    R: Threads + Wait + Copy + Drop + Send + 'static,
>(
    rt: &R,
    alloc: Global,
    plan: &Plan,
    ears: Vec<E>,
    mouths: Vec<M>,
    traces: Vec<Shelf<B>>,
    books: Vec<Shelf<B>>,
    posters: Vec<Poster>,
    rooms: Rooms<B, R>,
    crew: &mut C,
) -> KeptRun<E, M, B>
where
    B::Label: 'static,
    requires plan { IsPlan plan.now }
    requires rooms { HasRooms (vec_len ears) (module_count plan.now) rooms }
    requires links { (0 < vec_len ears) × (vec_len ears ≤ 4) }
    requires alone { plan.now.patient ≡ true → vec_len ears ≡ 1 }
    requires mouths { vec_len mouths ≡ vec_len ears }
    requires traces { vec_len traces ≡ vec_len ears }
    requires books { vec_len books ≡ module_count plan.now }
    requires posters { 0 < vec_len posters → vec_len posters ≡ vec_len books }
    requires unposted { All (λ poster. poster.posted ≡ []) posters.items }
    requires untaken { All (λ poster. poster.taken ≡ []) posters.items }
    requires new_ears { All (λ ear. StartsEmpty (E.told ear).heard) ears.items }
    requires new_traces { All (λ trace. StartsEmpty (told_of_shelf B.told trace).written) traces.items }
    requires new_books { All (λ book. StartsEmpty (told_of_shelf B.told book).written) books.items }
    // The reflector ran; its posters are of the board of those that were handed in.
    ensures ran { IfOk result (λ back. RanOver plan.now back.1.items
        (devices_of E.told M.told (told_of_shelf B.told) (record {
          ears = ears.items;
          mouths = mouths.items;
          traces = traces.items;
          books = books.items;
        }))
        (devices_of E.told M.told (told_of_shelf B.told) (kinds_back back.0))
        (handed_of back.0)) }
    ensures ends { IfOk result (λ back. AllZip IsSameEnd posters.items back.1.items) }
    ensures count { IfOk result (λ back. vec_len back.0.books ≡ vec_len books) }
    // Or it refused to, and all is as it was.
    ensures refused { IfErr result (λ back. kinds_refused back.0 ≡ record {
      ears = ears.items;
      mouths = mouths.items;
      traces = traces.items;
      books = books.items;
    }) }
    ensures same_posters { IfErr result (λ back. back.1.items ≡ posters.items) }
    ensures cause { MatchResult result (λ _. C.refusals crew.new ≡ C.refusals crew.old)
        (λ back. IsRefusedFor back.0.why (C.refusals crew.old) (C.refusals crew.new)) }
    ensures unasked { IfErr result (λ back. back.0.why ≡ refusals.NoMemory → crew.new ≡ crew.old) }
{
    m17_board::laws::one_list_stands_whole();
    m17_reflect::laws::devices_stay::<E::Label, M::Label, KeptLabel<B::Label>>();
    let Rooms {
        kept_traces,
        kept_books,
        traces: back_traces,
        books: back_books,
        posters: back_posters,
    } = rooms;
    let back = Back {
        traces: back_traces,
        books: back_books,
        posters: back_posters,
    };
    let posts = are_some(&posters);
    let kept_traces = keep_plain(traces, kept_traces);
    let kept_books = keep_books(rt, posts, books, posters, kept_books);
    match reflect(rt, alloc, plan, ears, mouths, kept_traces, kept_books, crew) {
        Ok(house) => Ok(house_back(posts, house, back)),
        Err(refused) => Err(refused_back(posts, refused, back)),
    }
}

// Whether there are posters.
fn are_some(posters: &Vec<Poster>) -> bool
    ensures some { result ≡ true → 0 < vec_len posters.now }
    ensures none { result ≡ false → posters.now.items ≡ [] }
{
    !posters.is_empty()
}

// A book over each shelf that posts by its poster, or where no book posts the shelves as they are.
fn keep_books<B: Book + Drop, R: Wait + Copy + Drop>(
    rt: &R,
    posts: bool,
    shelves: Vec<Shelf<B>>,
    posters: Vec<Poster>,
    kept: Vec<Kept<B, R>>,
) -> Vec<Kept<B, R>>
    requires none { kept.items ≡ [] }
    requires room { vec_len shelves ≤ vec_capacity kept }
    requires each { posts ≡ true → vec_len posters ≡ vec_len shelves }
    requires no_posters { posts ≡ false → posters.items ≡ [] }
    requires empty { All (λ shelf. StartsEmpty (told_of_shelf B.told shelf).written) shelves.items }
    requires unposted { All (λ poster. poster.posted ≡ []) posters.items }
    requires untaken { All (λ poster. poster.taken ≡ []) posters.items }
    ensures shelves { map plain_of result.items ≡ shelves.items }
    ensures posters { posters_of result.items ≡ posters.items }
    ensures kept { All (IsKept posts) result.items }
{
    if posts {
        keep_posting(rt, shelves, posters, kept)
    } else {
        keep_plain(shelves, kept)
    }
}

// The shelves of these books, and the posters of those that post. There is room for them.
fn books_back<B: Book + Drop, R: Drop>(
    posts: bool,
    kept: Vec<Kept<B, R>>,
    shelves: Vec<Shelf<B>>,
    posters: Vec<Poster>,
) -> (Vec<Shelf<B>>, Vec<Poster>)
    requires no_shelves { shelves.items ≡ [] }
    requires room { vec_len kept ≤ vec_capacity shelves }
    requires no_posters { posters.items ≡ [] }
    requires room_for_posters { vec_len kept ≤ vec_capacity posters }
    requires kept { All (IsKept posts) kept.items }
    ensures shelves { result.0.items ≡ map plain_of kept.items }
    ensures posters { result.1.items ≡ posters_of kept.items }
    // What was posted at each is what stands whole in the bytes of its shelf.
    ensures posted { (result.1.items ≡ [])
        ⊎ AllZip (IsBack B.told) result.0.items result.1.items }
{
    if posts {
        posting_back(kept, shelves, posters)
    } else {
        (plain_back(kept, shelves), posters)
    }
}

// What the reflector hands back, its traces and books as shelves, and the posters.
fn house_back<E: Drop, M: Drop, B: Book + Drop, R: Drop>(
    posts: bool,
    house: Returned<E, M, Kept<B, R>>,
    back: Back<B>,
) -> (Returned<E, M, Shelf<B>>, Vec<Poster>)
    requires kept { All (IsKept posts) house.books.items }
    requires room { HasRoom (vec_len house.traces) (vec_len house.books) back }
    ensures off { IsOff house result.0 }
    ensures posters { result.1.items ≡ posters_of house.books.items }
    ensures posted { (result.1.items ≡ [])
        ⊎ AllZip (IsBack B.told) result.0.books.items result.1.items }
{
    let Back {
        traces,
        books,
        posters,
    } = back;
    let (books, posters) = books_back(posts, house.books, books, posters);
    let house = Returned {
        ears: house.ears,
        mouths: house.mouths,
        traces: plain_back(house.traces, traces),
        books,
        trails: house.trails,
        queues: house.queues,
        roll: house.roll,
        missed: house.missed,
        admitted: house.admitted,
        link_tapes: house.link_tapes,
        tapes: house.tapes,
        lost: house.lost,
        book_failed: house.book_failed,
    };
    (house, posters)
}

// The same where nothing was run.
fn refused_back<E: Drop, M: Drop, B: Book + Drop, R: Drop>(
    posts: bool,
    refused: Refused<E, M, Kept<B, R>>,
    back: Back<B>,
) -> (Refused<E, M, Shelf<B>>, Vec<Poster>)
    requires kept { All (IsKept posts) refused.books.items }
    requires room { HasRoom (vec_len refused.traces) (vec_len refused.books) back }
    ensures off { IsOffRefused refused result.0 }
    ensures posters { result.1.items ≡ posters_of refused.books.items }
{
    let Back {
        traces,
        books,
        posters,
    } = back;
    let (books, posters) = books_back(posts, refused.books, books, posters);
    let refused = Refused {
        why: refused.why,
        ears: refused.ears,
        mouths: refused.mouths,
        traces: plain_back(refused.traces, traces),
        books,
    };
    (refused, posters)
}
