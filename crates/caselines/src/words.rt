// The words that name the sorts behind a letter and the relations.
ghost use Rattle.std.specs.Prelude.{◌≡◌, ◌≤◌, ℕ, List, length};
ghost use Rattle.executions.specs.Ties.{relations, relation_name};
ghost use Rattle.caselines.specs.Fields.{called as called_among};
ghost use Rattle.caselines.specs.Lines.{letter_name, mark, sorts_of};

use crate::fields::same;
use crate::lines::Letter;
use executions::{Relation, Sort};

// What a line names by a word.
pub trait Keyword: Copy {
    ghost name: { Self → List ℕ };

    fn word(self) -> &'static [u8]
        ensures name { result.now ≡ name self }
        ensures short { length result.now ≤ 10 };
}

// A sort is told from the others of its letter by its mark word.
impl Keyword for Sort {
    ghost name = { mark };

    fn word(self) -> &'static [u8] {
        match self {
            Sort::ReadOnce | Sort::WriteOnce => b"once",
            Sort::ReadAcquire => b"acquire",
            Sort::WriteRelease => b"release",
            Sort::Rmb => b"rmb",
            Sort::Wmb => b"wmb",
            Sort::Mb => b"mb",
            Sort::RbDep => b"rb-dep",
            Sort::RcuLock => b"rcu-lock",
            Sort::RcuUnlock => b"rcu-unlock",
            Sort::SyncRcu => b"sync-rcu",
            Sort::Blank => b"blank",
        }
    }
}

impl Keyword for Relation {
    ghost name = { relation_name };

    fn word(self) -> &'static [u8] {
        self.name().as_bytes()
    }
}

impl Keyword for Letter {
    ghost name = { letter_name };

    fn word(self) -> &'static [u8] {
        match self {
            Letter::Read => b"R",
            Letter::Write => b"W",
            Letter::Fence => b"F",
        }
    }
}

// The sorts of a letter.
pub(crate) fn sorts(letter: Letter) -> &'static [Sort]
    ensures { result.now ≡ sorts_of letter }
{
    match letter {
        Letter::Read => &[Sort::ReadOnce, Sort::ReadAcquire],
        Letter::Write => &[Sort::WriteOnce, Sort::WriteRelease],
        Letter::Fence => &[
            Sort::Rmb,
            Sort::Wmb,
            Sort::Mb,
            Sort::RbDep,
            Sort::RcuLock,
            Sort::RcuUnlock,
            Sort::SyncRcu,
            Sort::Blank,
        ],
    }
}

// The one of some things that a word names.
pub(crate) fn called<T: Keyword>(among: &[T], word: &[u8]) -> Option<T>
    ensures { result ≡ called_among T.name among.now word.now }
{
    among.iter().copied().find(|thing| same(word, thing.word()))
}
