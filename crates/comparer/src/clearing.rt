// Clearing.
ghost use Rattle.std.specs.Prelude.{◌≡◌, ℕ, None};
ghost use Rattle.calls.specs.Histories.{cleared};
ghost use Rattle.comparer.specs.Comparers.{rows_of};
ghost use Rattle.comparer.specs.Lawful.{Lawful};

use crate::comparer::Comparer;
use tally::Tally;

impl<T: Tally> Comparer<T> {
    // Clears all marks; over a refused grammar too.
    pub fn clear(&mut self)
        ensures rows { (A : ℕ) → rows_of self.new A ≡ None }
        ensures desk { self.new.desk ≡ self.old.desk }
        ensures lawful { Lawful T.Tally.group self.old cleared self.new }
    {
        self.sheet.clear();
    }
}
