// From what fails back to the given words.
ghost use Rattle.std.specs.Prelude.{◌≡◌, ℕ, ◌+◌, ◌≤◌, ◌∷◌, [], length, take, MatchOption};
ghost use Rattle.std.specs.Option.{option_map};
ghost use Rattle.grammar.specs.Meaning.{Below};
ghost use Rattle.grammar.specs.Takes.{step};
ghost use Rattle.norm.specs.Tabled.{held};
ghost use Rattle.norm.specs.Norms.{norms, firsts};
ghost use Rattle.norm.specs.Words.{raised};
ghost use Rattle.norm.specs.Skeletons.{norm_at, first_at};
ghost use Rattle.norm.specs.declared.short_word.ShortWord.{ShortWord};
ghost use Rattle.rows.specs.Sheets.{offset as offset_of};
ghost use Rattle.sheet.specs.Rowed.{shown};
ghost use Rattle.survey.specs.Surveyed.{surveyed, norm_in, first_in};
ghost use Rattle.agreement.specs.Forms.{form_of};
ghost use Rattle.agreement.specs.Works.{rows_over};
ghost use Rattle.agreement.specs.Agreeing.{Ready};
ghost use Rattle.witness.specs.Alike.{TrueOn};
ghost use Rattle.witness.specs.History.{Given as GivenWord};
ghost use Rattle.walk.specs.Inputs.{letters, most};
ghost use Rattle.comparison.specs.Treating.{pair_of, Treats};
ghost use Rattle.comparison.specs.Turning.{row_sides as row_sides_of, sides, IsLook, TreatsAt};
ghost use Rattle.comparison.specs.Trying.{over, Looks, Fails};
ghost use Rattle.comparison.specs.Tracing.{lead_of, lead_input, Leads};
ghost use Rattle.comparison.specs.declared.failing.Failing.TheVariants as failings;
ghost use Rattle.comparison.specs.declared.treatment.Treatment.TheVariants.{Different, Mend};

use crate::bench::Bench;
use crate::failing::Failing;
use crate::fork::parting_of;
use crate::lead::Lead;
use crate::look::Look;
use crate::origin::Origin;
use crate::pair::Pair;
use crate::treating::read_row;
use crate::words::Words;
use agreement::{Form, Workspace, first_input};
use grammar::WordStack;
use norm::Skeleton;
use sheet::SheetView;
use survey::Survey;
use tally::Tally;
use walk::Letters;

// A word with the sum zero.
fn given_side<T: Tally>(word: &[u8]) -> Form<T, 512>
    ensures { length word.now ≤ 512 → form_of result ≡ record { word = word.now; tally = T.Tally.group.zero } }
{
    let mut stack = WordStack::new();
    stack.push_word(word);
    let sum = T::zero();
    Form { word: stack, sum }
}

// What the word becomes by the letter, with a sum before the rule's tally; none without a step.
fn side_by<T: Tally>(survey: &Survey<T>, word: &[u8], letter: u8, before: T) -> Option<Form<T, 512>>
    ensures { length word.now + 3 ≤ 512 → option_map form_of result ≡ raised T.Tally.group before (step (surveyed survey.now) word.now letter) }
{
    let run = survey.run(word, &[letter])?;
    Some(Form {
        word: run.left,
        sum: before.add(run.tally),
    })
}

// What the symbol, and its row's word with the offset before it, become by the letter; none without a step.
fn row_sides<T: Tally>(
    survey: &Survey<T>,
    work: &Workspace<T>,
    rows: SheetView<'_>,
    symbol: u8,
    letter: u8,
) -> (Option<Form<T, 512>>, Option<Form<T, 512>>)
    ensures one { Ready T.Tally.group survey.now (shown rows.entry) work.now → option_map form_of result.0 ≡ (row_sides_of T.Tally.group (surveyed survey.now) (rows_over T.Tally.group survey.now (shown rows.entry)) symbol letter (rows_over T.Tally.group survey.now (shown rows.entry) symbol)).0 }
    ensures two { Ready T.Tally.group survey.now (shown rows.entry) work.now → option_map form_of result.1 ≡ (row_sides_of T.Tally.group (surveyed survey.now) (rows_over T.Tally.group survey.now (shown rows.entry)) symbol letter (rows_over T.Tally.group survey.now (shown rows.entry) symbol)).1 }
{
    let Some(row) = rows.row(symbol) else {
        return (None, None);
    };
    (
        side_by(survey, &[symbol], letter, T::zero()),
        side_by(survey, row.as_slice(), letter, work.offset(symbol)),
    )
}

// The two sides of a pair.
fn sides_at<T: Tally>(
    survey: &Survey<T>,
    work: &Workspace<T>,
    rows: SheetView<'_>,
    words: Words<'_>,
    origin: Origin,
) -> (Option<Form<T, 512>>, Option<Form<T, 512>>)
    ensures one { Ready T.Tally.group survey.now (shown rows.entry) work.now → GivenWord (surveyed survey.now) words.entry.one.now → GivenWord (surveyed survey.now) words.entry.two.now → option_map form_of result.0 ≡ (sides T.Tally.group (surveyed survey.now) (rows_over T.Tally.group survey.now (shown rows.entry)) words.entry.one.now words.entry.two.now origin).0 }
    ensures two { Ready T.Tally.group survey.now (shown rows.entry) work.now → GivenWord (surveyed survey.now) words.entry.one.now → GivenWord (surveyed survey.now) words.entry.two.now → option_map form_of result.1 ≡ (sides T.Tally.group (surveyed survey.now) (rows_over T.Tally.group survey.now (shown rows.entry)) words.entry.one.now words.entry.two.now origin).1 }
{
    match origin {
        Origin::Given => (Some(given_side(words.one)), Some(given_side(words.two))),
        Origin::Row { symbol, letter } => row_sides(survey, work, rows, symbol, letter),
    }
}

// Keeps the input that shows what failed, made from the one that was tried, and answers what it shows.
fn settle(origin: Origin, failing: Failing, tried: &[u8], found: &mut Letters) -> Lead
    ensures lead { result ≡ lead_of origin failing }
    ensures found { letters found.new ≡ take most (lead_input origin failing tried.now) }
{
    found.clear();
    match (failing, origin) {
        (Failing::Row(blame), _) => {
            let rest = tried.get(blame.from..).unwrap_or(&[]);
            found.extend(&rest[..blame.length.min(rest.len())]);
            Lead::Row(blame.symbol)
        }
        (Failing::Pair, Origin::Given) => {
            found.extend(tried);
            Lead::Words
        }
        (Failing::Pair, Origin::Row { symbol, letter }) => {
            found.push(letter);
            found.extend(tried);
            Lead::Row(symbol)
        }
    }
}

// Where only one side is there: the letter, and then that side's first input.
fn settle_alone(skeleton: &Skeleton, origin: Origin, word: &[u8], found: &mut Letters) -> Lead
    ensures lead { result ≡ lead_of origin failings.Pair }
    ensures found { Below skeleton.now.words.count word.now → norms (norm_at skeleton.now) word.now ≤ 512 → letters found.new ≡ take most (lead_input origin failings.Pair (firsts (first_at skeleton.now) word.now)) }
{
    found.clear();
    match origin {
        Origin::Given => {
            found.extend_first(skeleton, word);
            Lead::Words
        }
        Origin::Row { symbol, letter } => {
            found.push(letter);
            found.extend_first(skeleton, word);
            Lead::Row(symbol)
        }
    }
}

impl<T: Tally> Look<'_, T> {
    // What fails where the pair is different: on the first inputs of the normal forms, or on what is completed from
    // the later symbol's first input.
    fn failing_at_end(
        &self,
        survey: &Survey<T>,
        work: &Workspace<T>,
        bench: &mut Bench,
    ) -> Option<Failing>
        ensures { Looks T.Tally.group survey.now self.now → Ready T.Tally.group survey.now (shown self.now.rows) work.now → Treats T.Tally.group (surveyed survey.now) (norm_in survey.now) (first_in survey.now) (over T.Tally.group survey.now self.now) (pair_of self.now.pair) Different → (m : ℕ) → norms (norm_in survey.now) (pair_of self.now.pair).one ≤ m → norms (norm_in survey.now) (pair_of self.now.pair).two ≤ m → MatchOption result ⊥ (λ f. (Fails T.Tally.group survey.now self.now f (letters bench.new.tried)) × (length (letters bench.new.tried) ≤ m)) }
    {
        let one = work.normal_form(self.pair.one);
        let two = work.normal_form(self.pair.two);
        let light = self.try_lighter(survey, work, one.word.word(), two.word.word(), bench);
        if let Some(failing) = light {
            return Some(failing);
        }
        let skeleton = survey.skeleton();
        let parting = parting_of(skeleton, one.word.word(), two.word.word())?;
        let mut room = [0; 64];
        let first = first_input(survey, parting.later, &mut room);
        self.try_completed(survey, work, &parting, first, bench)
    }

    // What fails where the pair got a row that is not true on the input: on one of the candidates made from it.
    fn failing_at_row(
        &self,
        survey: &Survey<T>,
        work: &Workspace<T>,
        input: &[u8],
        bench: &mut Bench,
    ) -> Option<Failing>
        ensures { Looks T.Tally.group survey.now self.now → Ready T.Tally.group survey.now (shown self.now.rows) work.now → (A : ℕ) (w : ShortWord 64) → Treats T.Tally.group (surveyed survey.now) (norm_in survey.now) (first_in survey.now) (over T.Tally.group survey.now self.now) (pair_of self.now.pair) (Mend A w) → ¬ TrueOn T.Tally.group (surveyed survey.now) A (record { word = held w; tally = offset_of T.Tally.group (surveyed survey.now) (first_in survey.now) A (held w) }) input.now → length input.now + 512 ≤ most → MatchOption result ⊥ (λ f. (Fails T.Tally.group survey.now self.now f (letters bench.new.tried)) × (length (letters bench.new.tried) + 1 ≤ length input.now + 512)) }
    {
        let one = work.normal_form(self.pair.one);
        let two = work.normal_form(self.pair.two);
        let skeleton = survey.skeleton();
        let parting = parting_of(skeleton, one.word.word(), two.word.word())?;
        let row = read_row(survey, parting.later, parting.earlier)?;
        self.try_candidates(survey, work, &parting, row.word(), input, bench)
    }
}

// Where the pair of the origin is different: finds an input that shows it, or a row that is not true.
pub(crate) fn ending<T: Tally>(
    survey: &Survey<T>,
    work: &Workspace<T>,
    rows: SheetView<'_>,
    words: Words<'_>,
    origin: Origin,
    found: &mut Letters,
) -> Option<Lead>
    ensures { Ready T.Tally.group survey.now (shown rows.entry) work.now → GivenWord (surveyed survey.now) words.entry.one.now → GivenWord (surveyed survey.now) words.entry.two.now → IsLook (rows_over T.Tally.group survey.now (shown rows.entry)) origin → TreatsAt T.Tally.group (surveyed survey.now) (norm_in survey.now) (first_in survey.now) (rows_over T.Tally.group survey.now (shown rows.entry)) words.entry.one.now words.entry.two.now origin Different → Leads T.Tally.group (surveyed survey.now) (rows_over T.Tally.group survey.now (shown rows.entry)) words.entry.one.now words.entry.two.now result (letters found.new) × (length (letters found.new) ≤ 512) }
{
    match sides_at(survey, work, rows, words, origin) {
        (Some(one), Some(two)) => {
            let look = Look {
                rows,
                pair: Pair {
                    one: one.word.word(),
                    two: two.word.word(),
                    before_one: one.sum,
                    before_two: two.sum,
                },
            };
            let mut bench = Bench::new();
            let failing = look.failing_at_end(survey, work, &mut bench)?;
            Some(settle(origin, failing, bench.tried.as_slice(), found))
        }
        (Some(one), None) => {
            let word = one.word.word();
            Some(settle_alone(survey.skeleton(), origin, word, found))
        }
        (None, Some(two)) => {
            let word = two.word.word();
            Some(settle_alone(survey.skeleton(), origin, word, found))
        }
        (None, None) => None,
    }
}

// From an input on which the row is not true that the pair of the origin got, over the rows at that time: finds an
// input on which the given words differ, or a row that was there is not true.
pub(crate) fn stage<T: Tally>(
    survey: &Survey<T>,
    work: &Workspace<T>,
    rows: SheetView<'_>,
    words: Words<'_>,
    origin: Origin,
    found: &mut Letters,
) -> Option<Lead>
    ensures { Ready T.Tally.group survey.now (shown rows.entry) work.now → GivenWord (surveyed survey.now) words.entry.one.now → GivenWord (surveyed survey.now) words.entry.two.now → IsLook (rows_over T.Tally.group survey.now (shown rows.entry)) origin → (A : ℕ) (w : ShortWord 64) → TreatsAt T.Tally.group (surveyed survey.now) (norm_in survey.now) (first_in survey.now) (rows_over T.Tally.group survey.now (shown rows.entry)) words.entry.one.now words.entry.two.now origin (Mend A w) → ¬ TrueOn T.Tally.group (surveyed survey.now) A (record { word = held w; tally = offset_of T.Tally.group (surveyed survey.now) (first_in survey.now) A (held w) }) (letters found.old) → length (letters found.old) + 512 ≤ most → Leads T.Tally.group (surveyed survey.now) (rows_over T.Tally.group survey.now (shown rows.entry)) words.entry.one.now words.entry.two.now result (letters found.new) × (length (letters found.new) ≤ length (letters found.old) + 512) }
{
    let (Some(one), Some(two)) = sides_at(survey, work, rows, words, origin) else {
        return None;
    };
    let look = Look {
        rows,
        pair: Pair {
            one: one.word.word(),
            two: two.word.word(),
            before_one: one.sum,
            before_two: two.sum,
        },
    };
    let mut bench = Bench::new();
    let failing = look.failing_at_row(survey, work, found.as_slice(), &mut bench)?;
    Some(settle(origin, failing, bench.tried.as_slice(), found))
}
