// How the rows that a comparison wrote came about, in their order.
ghost use Rattle.std.specs.Prelude.{◌≡◌, ◌≤◌, length};

use crate::origin::Origin;
use crate::source::Source;
use sheet::{Marks, ROWS};

// The sources of at most 32 rows, in place: the first `len` count.
#[derive(Drop)]
pub(crate) struct Sources {
    list: [Source; 32],
    len: u8,
    ghost within: { len ≤ 32 },
    ghost room: { length list ≡ 32 },
}

impl Sources {
    ghost use Rattle.std.specs.Prelude.{ℕ, suc, ◌<◌, Some, MatchOption, slice_set};
    ghost use Rattle.std.specs.List.{slice_get};

    // No row was written.
    pub(crate) fn none() -> Sources
        ensures { result.len ≡ 0 }
    {
        let source = Source {
            origin: Origin::Given,
            marks: Marks::none(),
        };
        Sources {
            list: [source; 32],
            len: 0,
        }
    }

    // One more; there is room for 32.
    pub(crate) fn push(&mut self, source: Source)
        ensures len { self.old.len < 32 → self.new.len ≡ suc self.old.len }
        ensures list { self.old.len < 32 → self.new.list ≡ slice_set self.old.list self.old.len source }
    {
        if self.len < ROWS {
            self.list[self.len as usize] = source;
            self.len += 1;
        }
    }

    // Takes the last one off, if there is one.
    pub(crate) fn pop(&mut self) -> Option<Source>
        ensures list { self.new.list ≡ self.old.list }
        ensures taken { MatchOption result (self.old.len ≡ 0) (λ s. (self.old.len ≡ suc self.new.len) × (slice_get self.old.list self.new.len ≡ Some s)) }
    {
        if self.len == 0 {
            return None;
        }
        self.len -= 1;
        self.list.get(self.len as usize).copied()
    }
}
