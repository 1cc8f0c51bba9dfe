ghost use Rattle.std.specs.Prelude.{◌≡◌, None};
ghost use Rattle.m17_app.specs.Status.{code_of};

use crate::fitted::{Behind, BehindMouth};
use crate::status::Status;
use m17_decorators::Guarded;
use m17_ports::{Ear, Shelf};
use m17_reflect::{Refused, Returned};

/// What a run of the program came to: its status, and the devices of a talk or a bridge that ran or of a reflector. Paces go by
/// the clock of the runtime `R`.
#[derive(Drop)]
pub struct Done<E: Ear + Drop, M, B, R: Copy> {
    /// The number that the program ends with.
    pub status: u8,
    /// The ear, the mouth and the book of `talk`, where it ran.
    pub talk: Option<(E, M, Shelf<B>)>,
    /// What the reflector of `serve` handed back, where it ran: its ears and mouths behind all that stood there.
    pub house: Option<Returned<Behind<E>, BehindMouth<M, R>, Shelf<B>>>,
    /// The devices of `serve`, where its reflector refused to run, and why.
    pub refused: Option<Refused<Behind<E>, BehindMouth<M, R>, Shelf<B>>>,
    /// The ear, behind its guard, and the mouth of each side of `bridge`, near first, where it ran.
    pub bridge: Option<((Guarded<E>, M), (Guarded<E>, M))>,
    /// The book of the lines of `serve --board`, where its watch was joined.
    pub board: Option<B>,
}

// The same before its status is a number.
#[derive(Drop)]
pub(crate) struct Ended<E: Ear + Drop, M, B, R: Copy> {
    pub(crate) status: Status,
    pub(crate) talk: Option<(E, M, Shelf<B>)>,
    pub(crate) house: Option<Returned<Behind<E>, BehindMouth<M, R>, Shelf<B>>>,
    pub(crate) refused: Option<Refused<Behind<E>, BehindMouth<M, R>, Shelf<B>>>,
    pub(crate) bridge: Option<((Guarded<E>, M), (Guarded<E>, M))>,
    pub(crate) board: Option<B>,
}

// The run of a command that hands back no devices.
pub(crate) fn alone<E: Ear + Drop, M, B, R: Copy>(status: Status) -> Ended<E, M, B, R>
    ensures status { result.status ≡ status }
    ensures none { result.talk ≡ None }
    ensures no_house { result.house ≡ None }
    ensures no_refusal { result.refused ≡ None }
    ensures no_bridge { result.bridge ≡ None }
    ensures no_board { result.board ≡ None }
{
    Ended {
        status,
        talk: None,
        house: None,
        refused: None,
        bridge: None,
        board: None,
    }
}

// What the caller is told of a run.
pub(crate) fn answer_of<E: Ear + Drop, M, B, R: Copy>(ended: Ended<E, M, B, R>) -> Done<E, M, B, R>
    ensures code { result.status ≡ code_of ended.status }
    ensures talk { result.talk ≡ ended.talk }
    ensures house { result.house ≡ ended.house }
    ensures refused { result.refused ≡ ended.refused }
    ensures bridge { result.bridge ≡ ended.bridge }
    ensures board { result.board ≡ ended.board }
{
    let Ended {
        status,
        talk,
        house,
        refused,
        bridge,
        board,
    } = ended;
    Done {
        status: status.code(),
        talk,
        house,
        refused,
        bridge,
        board,
    }
}
