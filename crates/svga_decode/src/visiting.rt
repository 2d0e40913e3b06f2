//! The one loop over words: each whole command is handed to a visitor.
ghost use Rattle.std.specs.Prelude.{◌≡◌, ℕ, ◌+◌, ◌<◌, ◌≤◌, length, IfErr, IfOk, OnOk};
ghost use Rattle.svga_cmd.specs.Spelling.{Spells};
ghost use Rattle.svga_cmd.specs.declared.command.Command.{Command};
ghost use Rattle.svga_decode.specs.Nexts.{words_between};
ghost use Rattle.svga_decode.specs.Visits.{IsVisited, IsVisitedUpTo};
ghost use Rattle.svga_model.specs.Sentences.{SpellsSome};

use crate::next::{Next, next_command};
use crate::parse::spelled;
use crate::visitor::Visitor;
use crate::words::Words;
use svga_cmd::Ending;

/// Hands the whole commands of the words to the visitor, in order, up to the end or the first bad word,
/// unless the visitor stops. Where the words don't stand in a slice, each command is gathered in the room.
pub fn each_command<W: Words, T, V: Visitor<T>>(
    words: &W,
    room: &mut [u32],
    visitor: &mut V,
    on: &mut T,
) -> Result<Ending, V::Stop>
    requires room { W.wanted ≤ length room.old }
    requires can { V.can_take visitor.old on.old 0 }
    ensures ended { IfOk result (λ ending. IsVisited V.takes (W.words words.now) visitor.old on.old ending
        visitor.new on.new) }
    ensures stopped { IfErr result (λ stop. IsVisitedUpTo V.takes V.stops (W.words words.now) visitor.old
        on.old stop visitor.new on.new) }
{
    let count = words.count();
    let mut first = 0;
    while first < count {
        match next_command(words, first) {
            Next::Whole { end } => match visit(words, first, end, room, visitor, on) {
                Ok(()) => first = end,
                Err(stop) => return Err(stop),
            },
            Next::Refused { word, cause } => return Ok(Ending::Refused { word, cause }),
            Next::Torn => return Ok(Ending::Torn { word: count }),
        }
    }
    Ok(Ending::Whole)
}

/// Hands the command from word `first` up to word `end` to the visitor.
fn visit<W: Words, T, V: Visitor<T>>(
    words: &W,
    first: u32,
    end: u32,
    room: &mut [u32],
    visitor: &mut V,
    on: &mut T,
) -> Result<(), V::Stop>
    requires some { first < end }
    requires within { end ≤ length (W.words words.now) }
    requires spells { SpellsSome (words_between (W.words words.now) first end) }
    requires room { W.wanted ≤ length room.old }
    requires can { V.can_take visitor.old on.old first }
    ensures taken { OnOk result ((c : Command) × Spells c (words_between (W.words words.now) first end)
        × V.takes visitor.old on.old first c visitor.new on.new) }
    ensures can { OnOk result (V.can_take visitor.new on.new end) }
    ensures stopped { IfErr result (λ stop. (c : Command)
        × Spells c (words_between (W.words words.now) first end)
        × V.stops visitor.old on.old first c stop visitor.new on.new) }
{
    match words.lent(first, end - first) {
        Some(list) => visit_list(list, first, end, visitor, on),
        None => {
            words.gather(first, end - first, room);
            visit_list(&room[..(end - first) as usize], first, end, visitor, on)
        }
    }
}

/// The same, of the words themselves.
fn visit_list<T, V: Visitor<T>>(
    list: &[u32],
    first: u32,
    end: u32,
    visitor: &mut V,
    on: &mut T,
) -> Result<(), V::Stop>
    requires spells { SpellsSome list.now }
    requires end { end ≡ first + length list.now }
    requires can { V.can_take visitor.old on.old first }
    ensures taken { OnOk result ((c : Command) × Spells c list.now
        × V.takes visitor.old on.old first c visitor.new on.new) }
    ensures can { OnOk result (V.can_take visitor.new on.new end) }
    ensures stopped { IfErr result (λ stop. (c : Command) × Spells c list.now
        × V.stops visitor.old on.old first c stop visitor.new on.new) }
{
    let command = spelled(list);
    visitor.command(on, first, end, &command)
}
