//! The names of the traces and the books, made before the ports are asked for anything.
ghost use Rattle.std.specs.Prelude.{◌≡◌, ◌≤◌, length, map, string_bytes, vec_len, All, IfOk};
ghost use Rattle.std.specs.List.{range_with_len};
ghost use Rattle.m17_control.specs.Forms.{IsModule};
ghost use Rattle.m17_control.specs.Modules.{letters_of};
ghost use Rattle.m17_serve.specs.Asked.{book_name, trace_name};
ghost use Rattle.m17_serve.specs.Steps.{AreNames};

use crate::letters::room;
use itoa::Buffer;
use m17_values::NoMemory;
use m17_words::ServeOrder;
use std::alloc::{AllocError, Global};

// The names of the traces and of the books, in their order; none where no folder is named.
#[derive(Drop)]
pub(crate) struct Names {
    pub traces: Vec<String>,
    pub books: Vec<String>,
}

// The name of the trace of the link with this number.
fn trace_name(alloc: Global, folder: &str, number: u64) -> Result<String, AllocError>
    ensures { IfOk result (λ name. string_bytes name ≡ trace_name folder.now number) }
{
    let mut digits = Buffer::new();
    let mut name = String::from_str(alloc, folder)?;
    name.push_str("/link")?;
    name.push_str(digits.format(number))?;
    name.push_str(".trace")?;
    Ok(name)
}

// The name of the book of the module with this letter.
fn book_name(alloc: Global, folder: &str, letter: u8) -> Result<String, AllocError>
    requires { IsModule letter }
    ensures { IfOk result (λ name. string_bytes name ≡ book_name folder.now letter) }
{
    let mut name = String::from_str(alloc, folder)?;
    name.push_str("/")?;
    name.push(letter as char)?;
    name.push_str(".book")?;
    Ok(name)
}

// The names of the traces of `links` links.
pub(crate) fn trace_names(
    alloc: Global,
    folder: &str,
    links: usize,
) -> Result<Vec<String>, NoMemory>
    requires { links ≤ 4 }
    ensures names { IfOk result (λ names. map string_bytes names.items
        ≡ map (trace_name folder.now) (range_with_len 0 links)) }
    ensures count { IfOk result (λ names. vec_len names ≡ links) }
{
    let mut names = room(alloc, links)?;
    for number in 0..links as u64 {
        match trace_name(alloc, folder, number) {
            Ok(name) => names.push_reserved(name),
            Err(_) => return Err(NoMemory),
        }
    }
    Ok(names)
}

// The names of the books of the modules with these letters.
pub(crate) fn book_names(
    alloc: Global,
    folder: &str,
    letters: &[u8],
) -> Result<Vec<String>, NoMemory>
    requires { All IsModule letters.now }
    ensures names { IfOk result (λ names. map string_bytes names.items
        ≡ map (book_name folder.now) letters.now) }
    ensures count { IfOk result (λ names. vec_len names ≡ length letters.now) }
{
    let mut names = room(alloc, letters.len())?;
    for letter in letters {
        match book_name(alloc, folder, *letter) {
            Ok(name) => names.push_reserved(name),
            Err(_) => return Err(NoMemory),
        }
    }
    Ok(names)
}

// The names of what is kept of a run in a folder, where one is named.
pub(crate) fn make_names(
    alloc: Global,
    order: &ServeOrder,
    letters: &[u8],
) -> Result<Names, NoMemory>
    requires letters { letters.now ≡ letters_of order.now.modules }
    requires each { All IsModule letters.now }
    requires few { vec_len order.now.binds ≤ 4 }
    ensures { IfOk result (AreNames order.now) }
{
    match &order.book {
        Some(folder) => {
            let traces = trace_names(alloc, folder.as_str(), order.binds.len())?;
            let books = book_names(alloc, folder.as_str(), letters)?;
            Ok(Names { traces, books })
        }
        None => Ok(Names {
            traces: Vec::new(alloc),
            books: Vec::new(alloc),
        }),
    }
}
