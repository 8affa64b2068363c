// The question about two words.
ghost use Rattle.std.specs.Prelude.{◌≡◌, ℕ, ◌≤◌, ◌↔◌, List, length, drop, Some, None, Option, Ok, Err, IfOk};
ghost use Rattle.grammar.specs.Takes.{takes};
ghost use Rattle.rows.specs.Sheets.{weighed};
ghost use Rattle.survey.specs.Surveyed.{surveyed, first_in};
ghost use Rattle.survey.specs.declared.table.Survey.{Survey};
ghost use Rattle.calls.specs.Histories.{Event, compared};
ghost use Rattle.calls.specs.Refusals.{compare_fault, run_fault};
ghost use Rattle.calls.specs.declared.fault.CallFault.{CallFault as faults};
ghost use Rattle.calls.specs.declared.fault.CallFault.TheVariants.{Grammar as GrammarRefused};
ghost use Rattle.comparer.specs.Comparers.{rows_of, Over, Without};
ghost use Rattle.comparer.specs.Lawful.{HistoryOver, Lawful};
ghost use Rattle.comparer.specs.declared.refused.Refused.{Refused};
ghost use Rattle.asking.specs.Questions.{asked, Tells};
ghost use Rattle.asking.specs.declared.outcome.Outcome.TheVariants.{Same, Different};

use crate::outcome::Outcome;
use calls::{Answer, CallFault};
use comparer::Comparer;
use tally::Tally;

// What the word makes of an input on which it is not refused.
fn verdict<T: Tally>(comparer: &Comparer<T>, word: &[u8], input: &[u8]) -> Option<T>
    ensures { (s : Survey T) → Over comparer.now s → run_fault s.skeleton.words.count word.now input.now ≡ None → result ≡ takes T.Tally.group (surveyed s) word.now input.now }
{
    comparer.run(word, input).unwrap_or(None)
}

// Asks whether two words of the comparer's grammar are the same. Where they are, its rows prove it then; where they
// are not, an input on which they differ fills the start of the buffer. It is refused for what a comparison is. Of the
// buffer all else is left as it was.
pub fn ask<T: Tally>(
    comparer: &mut Comparer<T>,
    one: &[u8],
    two: &[u8],
    out: &mut [u8],
) -> Result<Outcome<T>, CallFault>
    ensures fault { (s : Survey T) → Over comparer.old s → (f : faults) → (result ≡ Err f) ↔ (compare_fault s.skeleton.words.count one.now two.now (length out.old) ≡ Some f) }
    ensures without { (r : Refused) → Without comparer.old r → result ≡ Err (GrammarRefused r.fault) }
    ensures refused { (f : faults) → result ≡ Err f → (comparer.new ≡ comparer.old) × (out.new ≡ out.old) }
    ensures untouched { result ≡ Ok Same → out.new ≡ out.old }
    ensures shown { (n : ℕ) (p q : Option T) → result ≡ Ok (Different n p q) → (n ≤ 16384) × (length out.new ≡ length out.old) × (drop n out.new ≡ drop n out.old) }
    ensures verdict { (s : Survey T) → Over comparer.old s → (es : List (Event T)) → HistoryOver T.Tally.group s es (rows_of comparer.old) → IfOk result (λ o. Tells T.Tally.group (surveyed s) one.now two.now (weighed T.Tally.group (surveyed s) (first_in s) (rows_of comparer.new)) out.new o) }
    ensures lawful { Lawful T.Tally.group comparer.old (compared one.now two.now (length out.old) (asked result out.new)) comparer.new }
{
    match comparer.compare(one, two, out)? {
        Answer::Same => Ok(Outcome::Same),
        Answer::Different(length) => {
            let input = out.get(..length).unwrap_or(&[]);
            Ok(Outcome::Different {
                length,
                one: verdict(comparer, one, input),
                two: verdict(comparer, two, input),
            })
        }
    }
}
