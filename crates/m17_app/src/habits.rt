//! What is known of a command before it runs: what its words say of the ports of the machine.
ghost use Rattle.std.specs.Prelude.{◌≡◌, ◌+◌, ◌<◌, ◌≤◌, ◌^◌, ◌++◌, codes, map, option_map, string_bytes, IfOk, IfSome, Some, None, true, false};
ghost use Rattle.m17_app.specs.Habits.{AreHabits, AreOf, kept_in, one_if};

use m17_values::NoMemory;
use m17_words::{Command, ServeOrder, WordsRefusal, read_words};
use std::alloc::Global;

/// What a command asks of the ports of the machine.
#[derive(Drop)]
pub(crate) struct Habits {
    /// Whether their ears may wait long where nobody is there.
    pub(crate) rests: bool,
    /// How many traces and books the command keeps.
    pub(crate) books: usize,
    /// The file that is locked before one of these is opened.
    pub(crate) lock: Option<String>,
    /// The file whose end stops their ears.
    pub(crate) stop: Option<String>,
}

/// The words, where there are any, with the habits of the command that they name. None where there was no memory for reading
/// them.
pub(crate) fn with_habits(
    alloc: Global,
    words: Option<Vec<String>>,
) -> Option<(Vec<String>, Habits)>
    ensures same { IfSome result (λ r. words ≡ Some r.0) }
    ensures habits { IfSome result (λ r. AreHabits (map string_bytes r.0.items) r.1) }
{
    let words = words?;
    match habits_of(alloc, words.as_slice()) {
        Ok(habits) => Some((words, habits)),
        Err(_) => None,
    }
}

// The habits of the command that these words name. `NoMemory` where there was none for reading them.
fn habits_of(alloc: Global, words: &[String]) -> Result<Habits, NoMemory>
    ensures { IfOk result (AreHabits (map string_bytes words.now)) }
{
    match read_words(alloc, words) {
        Ok(command) => of_command(alloc, command),
        Err(WordsRefusal::Refused) => Ok(none()),
        Err(WordsRefusal::NoMemory) => Err(NoMemory),
    }
}

// Those of this command. A bridge hears its sides in turn, and a client asks and has its answer by then, so the ears of
// neither may wait long.
fn of_command(alloc: Global, command: Command) -> Result<Habits, NoMemory>
    ensures { IfOk result (AreOf command) }
{
    match command {
        Command::Serve(order) => of_serve(alloc, order),
        Command::Talk(order) => Ok(Habits {
            books: one_if(&order.book),
            ..none()
        }),
        Command::Bridge(order) => Ok(Habits {
            stop: order.stop,
            ..none()
        }),
        _ => Ok(none()),
    }
}

// Those of a reflector.
fn of_serve(alloc: Global, order: ServeOrder) -> Result<Habits, NoMemory>
    ensures { IfOk result (AreOf (Command.Serve order)) }
{
    let books = kept_of(&order).saturating_add(one_if(&order.board));
    Ok(Habits {
        rests: true,
        books,
        lock: lock_of(alloc, &order.book)?,
        stop: order.stop,
    })
}

// Of a command that keeps nothing and asks for nothing.
fn none() -> Habits
    ensures { result ≡ record { rests = false; books = 0; lock = None; stop = None } }
{
    Habits {
        rests: false,
        books: 0,
        lock: None,
        stop: None,
    }
}

// One where there is such a thing.
fn one_if(thing: &Option<String>) -> usize
    ensures one { result ≡ one_if thing.now }
    ensures at_most { result ≤ 1 }
{
    match thing {
        Some(_) => 1,
        None => 0,
    }
}

// How many traces and books of modules a reflector keeps.
fn kept_of(order: &ServeOrder) -> usize
    ensures kept { result ≡ kept_in order.now.book order.now }
    ensures few { result + 1 < 2 ^ 64 }
{
    match &order.book {
        Some(_) => order
            .binds
            .len()
            .saturating_add(order.modules.count() as usize),
        None => 0,
    }
}

// The file by which a folder is locked, where there is one.
fn lock_of(alloc: Global, folder: &Option<String>) -> Result<Option<String>, NoMemory>
    ensures { IfOk result (λ lock. option_map string_bytes lock
        ≡ option_map (λ folder. string_bytes folder ++ codes "/lock") folder.now) }
{
    match folder {
        Some(folder) => {
            let mut name = folder.clone()?;
            name.push_str("/lock")?;
            Ok(Some(name))
        }
        None => Ok(None),
    }
}
