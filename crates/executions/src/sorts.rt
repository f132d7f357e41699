// The sorts of events.
ghost use Rattle.std.specs.Prelude.{◌≡◌, Some, None, MatchResult};
ghost use Rattle.executions.specs.Sorts.{sort_number, sort_of, sort_name};

use std::fmt;

// What an event is: a read or a write with its mark, or a fence.
#[derive(Clone, Copy, PartialEq, Eq, Debug)]
pub enum Sort {
    ReadOnce = 1,
    ReadAcquire = 2,
    WriteOnce = 3,
    WriteRelease = 4,
    Rmb = 5,
    Wmb = 6,
    Mb = 7,
    RbDep = 8,
    RcuLock = 9,
    RcuUnlock = 10,
    SyncRcu = 11,
    // A fence that was taken out: it orders nothing.
    Blank = 12,
}

impl Sort {
    // The number by which an event record names the sort. It has a name of its own, since a sort is no number: `number` says which one is meant.
    pub fn number(self) -> u8
        ensures { result ≡ sort_number self }
    {
        self as u8
    }

    // The sort in words, also for callers that hold the text; `Display` prints it.
    pub fn name(self) -> &'static str
        ensures { result.now ≡ sort_name self }
    {
        match self {
            Sort::ReadOnce => "read once",
            Sort::ReadAcquire => "read acquire",
            Sort::WriteOnce => "write once",
            Sort::WriteRelease => "write release",
            Sort::Rmb => "rmb",
            Sort::Wmb => "wmb",
            Sort::Mb => "mb",
            Sort::RbDep => "rb-dep",
            Sort::RcuLock => "rcu-lock",
            Sort::RcuUnlock => "rcu-unlock",
            Sort::SyncRcu => "sync-rcu",
            Sort::Blank => "blank",
        }
    }
}

// A number that names no sort.
#[derive(Clone, Copy, PartialEq, Eq, Debug)]
pub struct UnknownSort(pub u8);

impl TryFrom<u8> for Sort {
    type Error = UnknownSort;

    ghost try_from_gives = { λ number r. MatchResult r (λ sort. Some sort ≡ sort_of number) (λ unknown. (None ≡ sort_of number) × (unknown.0 ≡ number)) };

    fn try_from(number: u8) -> Result<Sort, UnknownSort> {
        match number {
            1 => Ok(Sort::ReadOnce),
            2 => Ok(Sort::ReadAcquire),
            3 => Ok(Sort::WriteOnce),
            4 => Ok(Sort::WriteRelease),
            5 => Ok(Sort::Rmb),
            6 => Ok(Sort::Wmb),
            7 => Ok(Sort::Mb),
            8 => Ok(Sort::RbDep),
            9 => Ok(Sort::RcuLock),
            10 => Ok(Sort::RcuUnlock),
            11 => Ok(Sort::SyncRcu),
            12 => Ok(Sort::Blank),
            _ => Err(UnknownSort(number)),
        }
    }
}

impl fmt::Display for Sort {
    ghost output = { λ sort. Some (sort_name sort) };

    fn fmt<W: fmt::Write>(&self, f: &mut fmt::Formatter<W>) -> fmt::Result {
        f.write_str(self.name())
    }
}
