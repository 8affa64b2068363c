// Making a comparer.
ghost use Rattle.std.specs.Prelude.{◌≡◌, ℕ, [], None, Ok, Err};
ghost use Rattle.survey.specs.Refusals.{Refused as RefusedFor};
ghost use Rattle.survey.specs.Laws.{Surveys};
ghost use Rattle.survey.specs.declared.table.Survey.{Survey};
ghost use Rattle.calls.specs.declared.fault.CallFault.TheVariants.{Grammar as GrammarRefused};
ghost use Rattle.comparer.specs.Comparers.{rows_of, Over, Without};
ghost use Rattle.comparer.specs.declared.refused.Refused.{Refused as refusals};
ghost use Rattle.comparer.specs.Lawful.{HistoryOver, LawFor};

use crate::comparer::Comparer;
use crate::desk::Desk;
use crate::refused::Refused;
use agreement::Workspace;
use calls::CallFault;
use grammar::Grammar;
use sheet::Sheet;
use survey::survey;
use tally::Tally;

impl<T: Tally> Comparer<T> {
    // A comparer over a grammar of any make, without rows. The grammar is taken up whole, and is not asked again; one
    // that is refused leaves its fault.
    pub fn new<G: Grammar<T = T>>(g: &G) -> Comparer<T>
        ensures value { elim result.desk [ Ok d ↦ Surveys 32 64 T.Tally.group (G.Grammar.meaning g.now) d.survey | Err r ↦ RefusedFor 32 64 T.Tally.group (G.Grammar.meaning g.now) r.fault × (r.count ≡ (G.Grammar.meaning g.now).count) ] }
        ensures rows { (A : ℕ) → rows_of result A ≡ None }
        ensures begins { (s : Survey T) → Over result s → HistoryOver T.Tally.group s [] (rows_of result) }
        ensures law { LawFor T.Tally.group (G.Grammar.meaning g.now) }
    {
        let sheet = Sheet::empty();
        let desk = match survey(g) {
            Ok(survey) => {
                let work = Workspace::new(&survey, sheet.view());
                Ok(Desk { survey, work })
            }
            Err(fault) => Err(Refused {
                fault,
                count: g.count(),
            }),
        };
        Comparer { desk, sheet }
    }

    // What it took up of its grammar, if that is not refused.
    pub(crate) fn desk(&self) -> Result<&Desk<T>, CallFault>
        ensures { elim result [ Ok d ↦ self.now.desk ≡ Ok d.now | Err f ↦ (r : refusals) × (self.now.desk ≡ Err r) × (f ≡ GrammarRefused r.fault) ] }
    {
        match &self.desk {
            Ok(desk) => Ok(desk),
            Err(refused) => Err(CallFault::from(refused.fault)),
        }
    }

    // How many symbols its grammar has, refused or not.
    pub(crate) fn count(&self) -> u8
        ensures over { (s : Survey T) → Over self.now s → result ≡ s.skeleton.words.count }
        ensures without { (r : refusals) → Without self.now r → result ≡ r.count }
    {
        match &self.desk {
            Ok(desk) => desk.survey.count(),
            Err(refused) => refused.count,
        }
    }
}
