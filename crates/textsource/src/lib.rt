// A case text as a case source.
#![tactic(auto)]

ghost use Rattle.std.specs.Prelude.{◌≡◌, ◌≤◌};
ghost use Rattle.textsource.specs.Meaning.{meant, holding};

use casetext::reading::read;
use executions::{Event, Relation};
use sources::CaseSource;

// A source that borrows a text and scans it anew for each question. It is about the case that read would enter, or the blank case where read refuses.
#[derive(Clone, Copy)]
pub struct TextSource<'a> {
    pub text: &'a [u8],
}

impl CaseSource for TextSource<'_> {
    ghost meaning = { λ s. meant s.text.now };

    fn count(&self) -> usize {
        scan(self.text).count
    }

    fn event(&self, number: usize) -> Option<Event> {
        let found = scan(self.text);
        found.events[..found.count].get(number).copied()
    }

    fn row(&self, relation: u32, event: usize) -> u64 {
        let Ok(known) = Relation::try_from(relation) else {
            return 0;
        };
        let found = scan(self.text);
        if event < found.count {
            known.targets(&found.ties, event)
        } else {
            0
        }
    }
}

// What a scan finds: how many events there are, and the two tables of the case.
#[derive(Clone, Copy)]
struct Scanned {
    count: usize,
    events: [Event; 64],
    ties: [u64; 384],
}

fn scan(text: &[u8]) -> Scanned
    ensures held { holding result.count result.events result.ties ≡ meant text.now }
    ensures few { result.count ≤ 64 }
{
    let mut events = [Event::UNUSED; 64];
    let mut ties = [0u64; 384];
    let count = match read(text, &mut events, &mut ties) {
        Ok(case) => case.count(),
        Err(_) => 0,
    };
    Scanned {
        count,
        events,
        ties,
    }
}
