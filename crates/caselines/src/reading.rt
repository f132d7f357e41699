// Reading one line.
ghost use Rattle.std.specs.Prelude.{◌≡◌};
ghost use Rattle.executions.specs.Ties.{relations, relation_name};
ghost use Rattle.caselines.specs.declared.lines.Letter.TheVariants.{Read, Write, Fence};
ghost use Rattle.caselines.specs.Fields.{called};
ghost use Rattle.caselines.specs.Lines.{mark, letters, letter_name, sorts_of, access_from, event_from, tie_from, line_from, line_of, Named};

use crate::fields::{cut, number, same};
use crate::lines::{Letter, Line};
use crate::words::{called, sorts};
use executions::{Relation, Sort};

// The line that bytes spell, without the byte 10 at its end; None where they spell none.
pub fn read_line(bytes: &[u8]) -> Option<Line>
    ensures value { result ≡ line_of bytes.now }
    ensures named { Named bytes.now result }
{
    let (word, rest) = cut(bytes, b' ')?;
    line_from(word, rest)
}

// A line behind its first word, by that word.
fn line_from(word: &[u8], rest: &[u8]) -> Option<Line>
    ensures { result ≡ line_from word.now rest.now }
{
    match word {
        b"events" => number(rest).map(Line::Events),
        b"ties" => number(rest).map(Line::Ties),
        _ => match letter_named(word) {
            Some(letter) => {
                let (thread, rest) = cut(rest, b' ')?;
                event_from(letter, number(thread)?, rest)
            }
            None => tie_from(relation_named(word)?, rest),
        },
    }
}

// The letter that begins an event line.
fn letter_named(word: &[u8]) -> Option<Letter>
    ensures { result ≡ called letter_name letters word.now }
{
    let [byte] = word else {
        return None;
    };
    match char::from(*byte) {
        'R' => Some(Letter::Read),
        'W' => Some(Letter::Write),
        'F' => Some(Letter::Fence),
        _ => None,
    }
}

// The rest of an event line behind its thread.
fn event_from(letter: Letter, thread: u32, rest: &[u8]) -> Option<Line>
    ensures { result ≡ event_from letter thread rest.now }
{
    match letter {
        Letter::Read | Letter::Write => access_from(letter, thread, rest),
        Letter::Fence => Some(Line::Event(sort_named(Letter::Fence, rest)?, thread, 0)),
    }
}

// A read or write of some thread: mark word and place.
fn access_from(letter: Letter, thread: u32, rest: &[u8]) -> Option<Line>
    ensures { result ≡ access_from letter thread rest.now }
{
    let (word, place) = cut(rest, b' ')?;
    let sort = sort_named(letter, word)?;
    Some(Line::Event(sort, thread, number(place)?))
}

// The rest of a tie line behind its relation.
fn tie_from(relation: Relation, rest: &[u8]) -> Option<Line>
    ensures { result ≡ tie_from relation rest.now }
{
    let (first, second) = cut(rest, b' ')?;
    Some(Line::Tie(relation, number(first)?, number(second)?))
}

// The sort that a mark word names behind a letter.
fn sort_named(letter: Letter, word: &[u8]) -> Option<Sort>
    ensures { result ≡ called mark (sorts_of letter) word.now }
{
    called(sorts(letter), word)
}

fn relation_named(word: &[u8]) -> Option<Relation>
    ensures { result ≡ called relation_name relations word.now }
{
    called(&Relation::ALL, word)
}
