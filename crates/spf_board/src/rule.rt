//! The rule of a board, and what each step passes on.

use crate::kind::Replay;
use crate::posted::{Post, Posted};
use atomic_table::{Join, Split};
use crossbeam_utils::rule::{Outcome, Protocol};
use left_right::reader::Reader;
use left_right::writer::Writer;

/// What a reader or the writer knows: how often it has entered, how many entries were posted when
/// it entered last, and which history the board has, once it is bound to it. No value of it is made.
pub struct Place {
    pub bound: bool,
    pub enters: u64,
    pub entries: u64,
    pub number: u64,
    pub log_name: u64,
    pub cells_name: u64,
}

pub struct Reads;

impl<K: Replay> Protocol<Posted<K>, Place> for Reads {
    ghost use Rattle.spf_board.specs.Board.{Keeps, unbound};

    ghost holds = { λ x views. Keeps K.replays x.snapshot x.front views };

    ghost first = { unbound };
}

pub type PostReader<K> = Reader<Posted<K>, Place, Reads>;

pub type PostWriter<K> = Writer<Posted<K>, Post<K>, Place, Reads>;

/// A reader takes what is posted.
pub(crate) struct Takes;

impl<K: Replay> Outcome<Posted<K>, Place> for Takes {
    ghost use Rattle.spf_board.specs.Board.{Enters};

    ghost then = { λ v x y w. Enters K.replays v y.snapshot y.front w };
}

/// The writer posts.
pub(crate) struct Puts;

impl<K: Replay> Outcome<Posted<K>, Place> for Puts {
    ghost use Rattle.spf_board.specs.Board.{Posts};

    ghost then = { λ v x y w. Posts K.replays y.snapshot y.front w };
}

/// What the writer passes on to a reader: which history the board has.
pub(crate) struct Notes;

impl Split<Place> for Notes {
    ghost use Rattle.spf_board.specs.Board.{note_of};

    ghost left = { λ v. v };

    ghost right = { note_of };
}

impl Join<Place> for Notes {
    ghost use Rattle.spf_board.specs.Board.{informed, unbound};

    ghost both = { informed };

    ghost spent = { unbound };
}
