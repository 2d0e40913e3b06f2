//! A command that is committed by the first of its words. The view doesn't say which command it is, so the
//! step's type does: by the words that the caller goes on to send.
ghost use Rattle.std.specs.Prelude.{ℕ, List, []};
ghost use Rattle.svga_link.specs.Plays.{sent_first};

use crate::board::View;
use atomic_table::Play;
use std::marker::{Brand, PhantomData};
use svga_cmd::Page;

/// All words of the command. Each call picks them.
pub trait Words {
    ghost words: { List ℕ };
}

impl Words for Brand {
    ghost words = { [] };
}

pub(crate) struct SendFirst<J: Words> {
    of: PhantomData<J>,
}

impl<J: Words> Play<Option<Page>, View> for SendFirst<J> {
    ghost then = { sent_first J.words };
}
