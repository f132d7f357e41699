// Writing one line.
ghost use Rattle.std.specs.Prelude.{◌≡◌, ◌+◌, ◌^◌, ◌<◌, ◌≤◌, List, [], ◌∷◌, ◌++◌, length, decimal};
ghost use Rattle.caselines.specs.declared.lines.Line.TheVariants.{Event, Tie};
ghost use Rattle.caselines.specs.Lines.{spaced};
ghost use Rattle.casetext.specs.Text.{line as line_of};
ghost use Rattle.casewriter.specs.Laid.{Put, place_field};

use crate::bytes::Pen;
use caselines::words::Keyword;
use caselines::{Letter, Line};
use executions::{Relation, Sort};

impl<'a> Pen<'a> {
    // A line with the byte 10 at its end.
    pub(crate) fn put_line(&mut self, line: Line)
        requires { self.old.at < 2 ^ 48 }
        ensures same { self.new.buffer.ghost_name ≡ self.old.buffer.ghost_name }
        ensures put { Put self.old.at (line_of line) self.old.buffer.now self.new.buffer.now self.new.at }
        ensures within { self.new.at ≤ self.old.at + 48 }
    {
        match line {
            Line::Events(count) => self.put_count(b"events", count),
            Line::Event(sort, thread, place) => self.put_event(sort, thread, place),
            Line::Ties(count) => self.put_count(b"ties", count),
            Line::Tie(relation, first, second) => self.put_tie(relation, first, second),
        }
    }

    fn put_tie(&mut self, relation: Relation, first: u32, second: u32)
        requires { self.old.at < 2 ^ 48 }
        ensures same { self.new.buffer.ghost_name ≡ self.old.buffer.ghost_name }
        ensures put { Put self.old.at (line_of (Tie relation first second)) self.old.buffer.now self.new.buffer.now self.new.at }
        ensures within { self.new.at ≤ self.old.at + 48 }
    {
        self.put_word(relation.word());
        self.put_field(first);
        self.put_field(second);
        self.put(b'\n');
    }

    // The word that a count begins with, and the count.
    fn put_count(&mut self, word: &[u8], count: u32)
        requires room { self.old.at < 2 ^ 48 }
        requires short { length word.now ≤ 10 }
        ensures same { self.new.buffer.ghost_name ≡ self.old.buffer.ghost_name }
        ensures put { Put self.old.at (spaced word.now (decimal count) ++ 10 ∷ []) self.old.buffer.now self.new.buffer.now self.new.at }
        ensures within { self.new.at ≤ self.old.at + 48 }
    {
        self.put_word(word);
        self.put_field(count);
        self.put(b'\n');
    }

    fn put_event(&mut self, sort: Sort, thread: u32, place: u32)
        requires { self.old.at < 2 ^ 48 }
        ensures same { self.new.buffer.ghost_name ≡ self.old.buffer.ghost_name }
        ensures put { Put self.old.at (line_of (Event sort thread place)) self.old.buffer.now self.new.buffer.now self.new.at }
        ensures within { self.new.at ≤ self.old.at + 48 }
    {
        let letter = Letter::from(sort);
        self.put_word(letter.word());
        self.put_field(thread);
        self.put(b' ');
        self.put_word(sort.word());
        self.put_place(letter, place);
        self.put(b'\n');
    }

    // The place of a read or write.
    fn put_place(&mut self, letter: Letter, place: u32)
        requires { self.old.at < 2 ^ 49 }
        ensures same { self.new.buffer.ghost_name ≡ self.old.buffer.ghost_name }
        ensures put { Put self.old.at (place_field letter place) self.old.buffer.now self.new.buffer.now self.new.at }
        ensures within { self.new.at ≤ self.old.at + 11 }
    {
        match letter {
            Letter::Read | Letter::Write => self.put_field(place),
            Letter::Fence => (),
        }
    }
}
