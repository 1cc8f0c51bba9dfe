//! Laws over several crates: what the promises of these come to together. Both make no call and have no code.
//!
//! `legal_books_laws`: the books of a run of the reflector are legal. It says what the headline of a run
//! (`m17_reflect`), what a worker writes (`m17_worker`) and the rule of legal books (`m17_book`) come to together.
//! It promises that a book which told nothing before a run, tells its bytes after it, and whose count of faults didn't
//! rise, is the header of its module and the records of the module's trail, and that these break no rule under the limit
//! of that header: for every run of the reflector, and for the books that `serve` hands back, whatever stands before its ears,
//! with a board and without; and that `check` (`m17_text_commands`) finds such a book legal, if it isn't too large for it. That
//! a book of the machine tells its bytes is left to whoever reads the file.
//!
//! `client_and_link_laws`: both ends of a way, a client of a reflector at one end, a link of a run of the reflector at the other. It says what
//! the promises of the two ends come to together, where the way between them may
//! lose, repeat and reorder datagrams, but makes none up.
//! It promises that a client that is connected heard an ACKN after it had said its CONN or LSTN, that the link heard
//! that one from it, and that a module gave the client an ACKN for it: at the Join that came of that entry, or behind it
//! in its trail; that each packet that the client keeps was said to it byte for byte, and is an admitted
//! packet of some module's trail, or a parrot's echo; and that of two neighbours among these with one stream id the
//! later number is ahead (`both_ends_agree`). What a run of the reflector is stands in `m17_reflect`, what a run
//! of a client is, and what follows of that end alone, in `m17_client`. That a datagram ever comes is left to the
//! network.
#![tactic(auto)]

pub mod client_and_link_laws;
pub mod legal_books_laws;
