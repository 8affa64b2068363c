// Inputs that are tried on a pair of words.
ghost use Rattle.std.specs.Prelude.{◌≡◌, ℕ, ◌+◌, ◌≤◌, ◌++◌, [], ◌∷◌, length, take, Decides, MatchOption};
ghost use Rattle.std.specs.List.{AllByRecursion};
ghost use Rattle.grammar.specs.Meaning.{Below};
ghost use Rattle.norm.specs.Norms.{norms, firsts};
ghost use Rattle.norm.specs.Skeletons.{norm_at, first_at};
ghost use Rattle.sheet.specs.Rowed.{shown};
ghost use Rattle.survey.specs.Surveyed.{surveyed, norm_in, first_in};
ghost use Rattle.agreement.specs.Agreeing.{Ready};
ghost use Rattle.witness.specs.Alike.{AlikeOn, cut};
ghost use Rattle.witness.specs.Forks.{later_word, row_word, from_front, completed, candidates};
ghost use Rattle.witness.specs.Laws.{Short};
ghost use Rattle.walk.specs.Inputs.{letters, most};
ghost use Rattle.comparison.specs.Treating.{pair_of};
ghost use Rattle.comparison.specs.Trying.{IsParting, Looks, Passes, Fails, ForkOver};

use crate::bench::Bench;
use crate::failing::Failing;
use crate::look::Look;
use crate::parting::Parting;
use agreement::Workspace;
use grammar::derive;
use norm::Skeleton;
use survey::Survey;
use tally::Tally;
use walk::{Letters, blamed, front_of};

// Writes the first input of a word of the grammar's symbols, its norm at most 512, and then the end.
fn lead_in(skeleton: &Skeleton, word: &[u8], end: &[u8], input: &mut Letters)
    ensures { Below skeleton.now.words.count word.now → norms (norm_at skeleton.now) word.now ≤ 512 → letters input.new ≡ take most (firsts (first_at skeleton.now) word.now ++ end.now) }
{
    input.clear();
    input.extend_first(skeleton, word);
    input.extend(end);
}

impl<T: Tally> Look<'_, T> {
    // Whether the words, with their sums, do not differ on the input.
    fn alike(&self, survey: &Survey<T>, input: &[u8]) -> bool
        ensures { length input.now ≤ most → Decides result (AlikeOn T.Tally.group (surveyed survey.now) (pair_of self.now.pair).before_one (pair_of self.now.pair).before_two (pair_of self.now.pair).one (pair_of self.now.pair).two input.now) }
    {
        let one = derive(survey, self.pair.one, input);
        let two = derive(survey, self.pair.two, input);
        match (one, two) {
            (Ok(Some(one)), Ok(Some(two))) => {
                self.pair.before_one.add(one) == self.pair.before_two.add(two)
            }
            (Ok(None), Ok(None)) => true,
            _ => false,
        }
    }

    // What fails on the input; none where nothing does.
    fn failing(&self, survey: &Survey<T>, work: &Workspace<T>, input: &[u8]) -> Option<Failing>
        ensures { Looks T.Tally.group survey.now self.now → Ready T.Tally.group survey.now (shown self.now.rows) work.now → length input.now ≤ most → MatchOption result (Passes T.Tally.group survey.now self.now input.now) (λ f. Fails T.Tally.group survey.now self.now f input.now) }
    {
        if !self.alike(survey, input) {
            return Some(Failing::Pair);
        }
        let blame = match blamed(survey, work, self.rows, self.pair.one, input) {
            Some(blame) => blame,
            None => blamed(survey, work, self.rows, self.pair.two, input)?,
        };
        Some(Failing::Row(blame))
    }

    // Tries the first input of a word of the grammar's symbols, its norm at most 512.
    fn try_first(
        &self,
        survey: &Survey<T>,
        work: &Workspace<T>,
        word: &[u8],
        bench: &mut Bench,
    ) -> Option<Failing>
        ensures { Looks T.Tally.group survey.now self.now → Ready T.Tally.group survey.now (shown self.now.rows) work.now → Below survey.now.skeleton.words.count word.now → norms (norm_in survey.now) word.now ≤ 512 → MatchOption result (Passes T.Tally.group survey.now self.now (firsts (first_in survey.now) word.now)) (λ f. (Fails T.Tally.group survey.now self.now f (letters bench.new.tried)) × (letters bench.new.tried ≡ firsts (first_in survey.now) word.now)) }
    {
        lead_in(survey.skeleton(), word, &[], &mut bench.tried);
        self.failing(survey, work, bench.tried.as_slice())
    }

    // Tries the first inputs of two words, in this order.
    fn try_both(
        &self,
        survey: &Survey<T>,
        work: &Workspace<T>,
        one: &[u8],
        two: &[u8],
        bench: &mut Bench,
    ) -> Option<Failing>
        ensures { Looks T.Tally.group survey.now self.now → Ready T.Tally.group survey.now (shown self.now.rows) work.now → Below survey.now.skeleton.words.count one.now → Below survey.now.skeleton.words.count two.now → norms (norm_in survey.now) one.now ≤ 512 → norms (norm_in survey.now) two.now ≤ 512 → (m : ℕ) → norms (norm_in survey.now) one.now ≤ m → norms (norm_in survey.now) two.now ≤ m → MatchOption result ((Passes T.Tally.group survey.now self.now (firsts (first_in survey.now) one.now)) × (Passes T.Tally.group survey.now self.now (firsts (first_in survey.now) two.now))) (λ f. (Fails T.Tally.group survey.now self.now f (letters bench.new.tried)) × (length (letters bench.new.tried) ≤ m)) }
    {
        if let Some(failing) = self.try_first(survey, work, one, bench) {
            return Some(failing);
        }
        self.try_first(survey, work, two, bench)
    }

    // Tries the first inputs of two words, that of the lighter word first: the shorter input shows more.
    pub(crate) fn try_lighter(
        &self,
        survey: &Survey<T>,
        work: &Workspace<T>,
        one: &[u8],
        two: &[u8],
        bench: &mut Bench,
    ) -> Option<Failing>
        ensures { Looks T.Tally.group survey.now self.now → Ready T.Tally.group survey.now (shown self.now.rows) work.now → Below survey.now.skeleton.words.count one.now → Below survey.now.skeleton.words.count two.now → norms (norm_in survey.now) one.now ≤ 512 → norms (norm_in survey.now) two.now ≤ 512 → (m : ℕ) → norms (norm_in survey.now) one.now ≤ m → norms (norm_in survey.now) two.now ≤ m → MatchOption result ((Passes T.Tally.group survey.now self.now (firsts (first_in survey.now) one.now)) × (Passes T.Tally.group survey.now self.now (firsts (first_in survey.now) two.now))) (λ f. (Fails T.Tally.group survey.now self.now f (letters bench.new.tried)) × (length (letters bench.new.tried) ≤ m)) }
    {
        let skeleton = survey.skeleton();
        if skeleton.norm_of(two) < skeleton.norm_of(one) {
            return self.try_both(survey, work, two, one, bench);
        }
        self.try_both(survey, work, one, two, bench)
    }

    // Tries the inputs that are completed from one: the first input of the common front, the input, and the first
    // input of what stands behind the later symbol; and the same with the earlier symbol's first input in place
    // of the front that the earlier symbol takes.
    pub(crate) fn try_completed(
        &self,
        survey: &Survey<T>,
        work: &Workspace<T>,
        parting: &Parting<'_>,
        input: &[u8],
        bench: &mut Bench,
    ) -> Option<Failing>
        ensures { Looks T.Tally.group survey.now self.now → Ready T.Tally.group survey.now (shown self.now.rows) work.now → (F : ForkOver T.Tally.group survey.now) → IsParting parting.now F → norms (norm_in survey.now) (later_word _ _ _ _ F) ≤ 512 → length input.now + 512 ≤ most → MatchOption result (AllByRecursion (λ c. Passes T.Tally.group survey.now self.now (firsts (first_in survey.now) F.common ++ c)) (completed _ _ _ _ F input.now)) (λ f. (Fails T.Tally.group survey.now self.now f (letters bench.new.tried)) × (Short _ _ _ _ F input.now (letters bench.new.tried))) }
    {
        let skeleton = survey.skeleton();
        bench.end.clear();
        bench.end.extend(input);
        bench.end.extend_first(skeleton, parting.later_end);
        let end = bench.end.as_slice();
        lead_in(skeleton, parting.common, end, &mut bench.tried);
        if let Some(failing) = self.failing(survey, work, bench.tried.as_slice()) {
            return Some(failing);
        }
        let front = front_of(survey, &[parting.earlier], end)?;
        bench.tried.clear();
        bench.tried.extend_first(skeleton, parting.common);
        bench.tried.extend_first(skeleton, &[parting.earlier]);
        bench.tried.extend(end.get(front.length..).unwrap_or(&[]));
        self.failing(survey, work, bench.tried.as_slice())
    }

    // Tries the inputs that are completed from the front of an input that a word takes.
    fn try_front(
        &self,
        survey: &Survey<T>,
        work: &Workspace<T>,
        parting: &Parting<'_>,
        word: &[u8],
        input: &[u8],
        bench: &mut Bench,
    ) -> Option<Failing>
        ensures { Looks T.Tally.group survey.now self.now → Ready T.Tally.group survey.now (shown self.now.rows) work.now → (F : ForkOver T.Tally.group survey.now) → IsParting parting.now F → norms (norm_in survey.now) (later_word _ _ _ _ F) ≤ 512 → length input.now + 512 ≤ most → MatchOption result (AllByRecursion (λ c. Passes T.Tally.group survey.now self.now (firsts (first_in survey.now) F.common ++ c)) (from_front (completed _ _ _ _ F) (cut (surveyed survey.now) word.now input.now))) (λ f. (Fails T.Tally.group survey.now self.now f (letters bench.new.tried)) × (Short _ _ _ _ F input.now (letters bench.new.tried))) }
    {
        let front = front_of(survey, word, input)?;
        let front = input.get(..front.length).unwrap_or(&[]);
        self.try_completed(survey, work, parting, front, bench)
    }

    // Tries the inputs that are completed from an input, and from the fronts of it that the row's word and the
    // later symbol take.
    pub(crate) fn try_candidates(
        &self,
        survey: &Survey<T>,
        work: &Workspace<T>,
        parting: &Parting<'_>,
        row: &[u8],
        input: &[u8],
        bench: &mut Bench,
    ) -> Option<Failing>
        ensures { Looks T.Tally.group survey.now self.now → Ready T.Tally.group survey.now (shown self.now.rows) work.now → (F : ForkOver T.Tally.group survey.now) → IsParting parting.now F → row.now ≡ row_word _ _ _ _ F → norms (norm_in survey.now) (later_word _ _ _ _ F) ≤ 512 → length input.now + 512 ≤ most → MatchOption result (AllByRecursion (λ c. Passes T.Tally.group survey.now self.now (firsts (first_in survey.now) F.common ++ c)) (candidates _ _ _ _ F input.now)) (λ f. (Fails T.Tally.group survey.now self.now f (letters bench.new.tried)) × (Short _ _ _ _ F input.now (letters bench.new.tried))) }
    {
        if let Some(failing) = self.try_completed(survey, work, parting, input, bench) {
            return Some(failing);
        }
        if let Some(failing) = self.try_front(survey, work, parting, row, input, bench) {
            return Some(failing);
        }
        self.try_front(survey, work, parting, &[parting.later], input, bench)
    }
}
