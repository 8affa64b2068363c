// Rows carried over to another comparer.
ghost use Rattle.std.specs.Prelude.{◌≡◌, ℕ, ◌≤◌, List, ◌++◌, length, drop, Some, None, Ok, Err};
ghost use Rattle.rows.specs.Sheets.{Ranked};
ghost use Rattle.survey.specs.Laws.{Surveys};
ghost use Rattle.survey.specs.Surveyed.{surveyed, norm_in};
ghost use Rattle.survey.specs.declared.table.Survey.{Survey};
ghost use Rattle.calls.specs.Histories.{Event};
ghost use Rattle.calls.specs.Offers.{copied};
ghost use Rattle.calls.specs.Refusals.{copy_fault};
ghost use Rattle.calls.specs.declared.fault.CallFault.{CallFault as faults};
ghost use Rattle.calls.specs.declared.fault.CallFault.TheVariants.{Grammar as GrammarRefused};
ghost use Rattle.comparer.specs.Comparers.{rows_of, Over, Without, CarriedOver};
ghost use Rattle.comparer.specs.Lawful.{HistoryOver};
ghost use Rattle.comparer.specs.declared.refused.Refused.{Refused};

use crate::comparer::Comparer;
use calls::CallFault;
use grammar::Grammar;

// A new comparer over the grammar, with the rows of the other one: they are copied to the buffer and offered. Where
// the grammar has the other's meaning, calls of any kind led to the rows, and the buffer has 2,047 bytes, they are
// always taken. Else it is refused as the copy is, and then the buffer is as it was; or as the offer is. Whatever it is,
// the new comparer is over the grammar, and a history leads to its rows.
pub fn carry_over<G: Grammar>(
    comparer: &Comparer<G::T>,
    g: &G,
    out: &mut [u8],
) -> Result<Comparer<G::T>, CallFault>
    ensures taken { (s : Survey G.T) → Over comparer.now s → surveyed s ≡ G.Grammar.meaning g.now → (es : List (Event G.T)) → HistoryOver G.T.Tally.group s es (rows_of comparer.now) → 2047 ≤ length out.old → elim result [ Ok d ↦ (A : ℕ) → rows_of d A ≡ rows_of comparer.now A | Err f ↦ ⊥ ] }
    ensures without { (r : Refused) → Without comparer.now r → (result ≡ Err (GrammarRefused r.fault)) × (out.new ≡ out.old) }
    ensures short { (s : Survey G.T) → Over comparer.now s → Ranked s.skeleton.words.count (norm_in s) (rows_of comparer.now) → (f : faults) → copy_fault (length out.old) ≡ Some f → (result ≡ Err f) × (out.new ≡ out.old) }
    ensures carried { (s : Survey G.T) → Over comparer.now s → Ranked s.skeleton.words.count (norm_in s) (rows_of comparer.now) → copy_fault (length out.old) ≡ None → CarriedOver G.T.Tally.group (G.Grammar.meaning g.now) (rows_of comparer.now) result × (out.new ≡ copied (rows_of comparer.now) ++ drop (length (copied (rows_of comparer.now))) out.old) }
    ensures grammar { elim result [ Ok d ↦ elim d.desk [ Ok k ↦ Surveys 32 64 G.T.Tally.group (G.Grammar.meaning g.now) k.survey | Err r ↦ ⊥ ] | Err f ↦ Unit {0} ] }
    ensures begins { elim result [ Ok d ↦ (t : Survey G.T) → Over d t → (es : List (Event G.T)) × HistoryOver G.T.Tally.group t es (rows_of d) | Err f ↦ Unit {0} ] }
{
    let length = comparer.copy_rows(out)?;
    let mut other = Comparer::new(g);
    other.offer(out.get(..length).unwrap_or(&[]))?;
    Ok(other)
}
