// What a comparer tells of its grammar and of its rows.
ghost use Rattle.std.specs.Prelude.{◌≡◌, if◌then◌else◌, nat_lt, Some, None};
ghost use Rattle.std.specs.Option.{option_map};
ghost use Rattle.rows.specs.Sheets.{Ranked, weighed};
ghost use Rattle.survey.specs.Surveyed.{surveyed, norm_in, first_in};
ghost use Rattle.survey.specs.declared.table.Survey.{Survey};
ghost use Rattle.comparer.specs.Comparers.{rows_of, Over, Without, row_read};
ghost use Rattle.comparer.specs.declared.refused.Refused.{Refused};

use crate::comparer::Comparer;
use agreement::offset;
use grammar::Grammar;
use tally::Tally;

impl<T: Tally> Comparer<T> {
    // The norm of a symbol; none where there is no such symbol, or the grammar is refused.
    pub fn norm(&self, symbol: u8) -> Option<u8>
        ensures over { (s : Survey T) → Over self.now s → result ≡ (if nat_lt symbol s.skeleton.words.count then Some (norm_in s symbol) else None) }
        ensures without { (r : Refused) → Without self.now r → result ≡ None }
    {
        let Ok(desk) = self.desk() else {
            return None;
        };
        if symbol >= desk.survey.count() {
            return None;
        }
        Some(desk.survey.skeleton().norm(symbol))
    }

    // The row of a symbol: its word, and its offset; none where it has no row, or the grammar is refused.
    pub fn row(&self, symbol: u8) -> Option<(&[u8], T)>
        ensures over { (s : Survey T) → Over self.now s → Ranked s.skeleton.words.count (norm_in s) (rows_of self.now) → option_map row_read result ≡ weighed T.Tally.group (surveyed s) (first_in s) (rows_of self.now) symbol }
        ensures without { (r : Refused) → Without self.now r → result ≡ None }
    {
        let Ok(desk) = self.desk() else {
            return None;
        };
        let word = self.sheet.row(symbol)?.as_slice();
        Some((word, offset(&desk.survey, symbol, word)))
    }
}
