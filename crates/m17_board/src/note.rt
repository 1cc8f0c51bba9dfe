//! What was posted of a module at a moment.
use crate::rule::Seen;
use std::marker::Model;

/// Names what was posted of a module when it was taken. An eye that is told it looks back no further.
#[derive(Drop)]
pub struct Note {
    pub(crate) pass: Seen,
    pub(crate) number: u32,
}

impl Model for Note {
    ghost use Rattle.m17_board.specs.Ends.{NoteEnd};

    ghost Value = { NoteEnd };

    ghost use Rattle.m17_board.specs.Models.{note_end, IsNote};

    ghost view = { note_end };

    ghost invariant = { IsNote };
}
