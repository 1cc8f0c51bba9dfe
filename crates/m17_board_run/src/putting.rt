//! Books on a board, and the same books when they come back.
ghost use Rattle.std.specs.Prelude.{◌≡◌, ◌≤◌, [], All, map, vec_len, vec_capacity};
ghost use Rattle.std.specs.List.{AllZip};
ghost use Rattle.m17_ports.specs.Told.{StartsEmpty};
ghost use Rattle.m17_board_run.specs.Kept.{told_of_shelf};
ghost use Rattle.m17_board_run.specs.Putting.{IsBack, IsPosting, plain, plain_of, posters_of};

use crate::kept::Kept;
use m17_board::{BoardBook, Poster};
use m17_ports::{Book, Shelf};
use std::sync::Wait;

// The shelves as they are, in order. There is room for them.
pub(crate) fn keep_plain<B: Book + Drop, R: Drop>(
    shelves: Vec<Shelf<B>>,
    kept: Vec<Kept<B, R>>,
) -> Vec<Kept<B, R>>
    requires none { kept.items ≡ [] }
    requires room { vec_len shelves ≤ vec_capacity kept }
    ensures { result.items ≡ map plain shelves.items }
{
    let mut shelves = shelves;
    let mut kept = kept;
    while let Some(shelf) = shelves.pop() {
        kept.push_reserved(Kept::Plain(shelf));
    }
    kept.reverse();
    kept
}

// A book over each shelf that posts by its poster, in order. Nothing is written yet, and nothing was posted.
pub(crate) fn keep_posting<B: Book + Drop, R: Wait + Copy + Drop>(
    rt: &R,
    shelves: Vec<Shelf<B>>,
    posters: Vec<Poster>,
    kept: Vec<Kept<B, R>>,
) -> Vec<Kept<B, R>>
    requires none { kept.items ≡ [] }
    requires room { vec_len shelves ≤ vec_capacity kept }
    requires each { vec_len posters ≡ vec_len shelves }
    requires empty { All (λ shelf. StartsEmpty (told_of_shelf B.told shelf).written) shelves.items }
    requires unposted { All (λ poster. poster.posted ≡ []) posters.items }
    requires untaken { All (λ poster. poster.taken ≡ []) posters.items }
    ensures shelves { map plain_of result.items ≡ shelves.items }
    ensures posters { posters_of result.items ≡ posters.items }
    ensures posting { All IsPosting result.items }
{
    let mut shelves = shelves;
    let mut posters = posters;
    let mut kept = kept;
    while let Some(shelf) = shelves.pop() {
        let Some(poster) = posters.pop() else {
            unreachable!()
        };
        kept.push_reserved(Kept::Posting(BoardBook::new(*rt, shelf, poster)));
    }
    kept.reverse();
    kept
}

// The shelf of a trace, which posts nothing.
fn shelf_of<B: Book + Drop, R: Drop>(kept: Kept<B, R>) -> Shelf<B>
    ensures { result ≡ plain_of kept }
{
    match kept {
        Kept::Plain(shelf) => shelf,
        Kept::Posting(book) => book.into_parts().0,
    }
}

// The shelves of these traces, in order. There is room for them.
pub(crate) fn plain_back<B: Book + Drop, R: Drop>(
    kept: Vec<Kept<B, R>>,
    shelves: Vec<Shelf<B>>,
) -> Vec<Shelf<B>>
    requires none { shelves.items ≡ [] }
    requires room { vec_len kept ≤ vec_capacity shelves }
    ensures { result.items ≡ map plain_of kept.items }
{
    let mut kept = kept;
    let mut shelves = shelves;
    while let Some(one) = kept.pop() {
        shelves.push_reserved(shelf_of(one));
    }
    shelves.reverse();
    shelves
}

// The shelves and the posters of these books, in order. There is room for them, and each posts.
pub(crate) fn posting_back<B: Book + Drop, R: Drop>(
    kept: Vec<Kept<B, R>>,
    shelves: Vec<Shelf<B>>,
    posters: Vec<Poster>,
) -> (Vec<Shelf<B>>, Vec<Poster>)
    requires no_shelves { shelves.items ≡ [] }
    requires room { vec_len kept ≤ vec_capacity shelves }
    requires no_posters { posters.items ≡ [] }
    requires room_for_posters { vec_len kept ≤ vec_capacity posters }
    requires posting { All IsPosting kept.items }
    ensures shelves { result.0.items ≡ map plain_of kept.items }
    ensures posters { result.1.items ≡ posters_of kept.items }
    ensures each { vec_len result.1 ≡ vec_len kept }
    // What was posted at each is what stands whole in the bytes of its shelf.
    ensures posted { AllZip (IsBack B.told) result.0.items result.1.items }
{
    let mut kept = kept;
    let mut shelves = shelves;
    let mut posters = posters;
    while let Some(one) = kept.pop() {
        match one {
            Kept::Plain(_) => unreachable!(),
            Kept::Posting(book) => {
                let (shelf, poster) = book.into_parts();
                shelves.push_reserved(shelf);
                posters.push_reserved(poster);
            }
        }
    }
    shelves.reverse();
    posters.reverse();
    (shelves, posters)
}
