// Whether the rows of a sheet agree.
ghost use Rattle.std.specs.Prelude.{◌≡◌, ◌≤◌, Option, Some, None, true, Decides, MatchOption, slice_get};
ghost use Rattle.grammar.specs.Meaning.{Weighted, Below};
ghost use Rattle.grammar.specs.WordStacks.{held};
ghost use Rattle.grammar.specs.Takes.{step};
ghost use Rattle.norm.specs.Norms.{norms};
ghost use Rattle.rows.specs.Sheets.{View, Sheet, Normal, Meets, Agrees, SelfProving};
ghost use Rattle.rows.specs.Laws.{RowLaws};
ghost use Rattle.survey.specs.declared.table.Survey.{Survey};
ghost use Rattle.sheet.specs.Rowed.{shown};
ghost use Rattle.survey.specs.Surveyed.{surveyed, norm_in};
ghost use Rattle.agreement.specs.Works.{rows_over};
ghost use Rattle.agreement.specs.Agreeing.{Ready, Side, FirstWrong};

use crate::form::Form;
use crate::workspace::Workspace;
use sheet::SheetView;
use survey::Survey;
use tally::Tally;

// Where rows do not agree: the row of the symbol, at the letter.
#[derive(Clone, Copy, Debug, PartialEq, Eq)]
pub struct Disagreement {
    pub symbol: u8,
    pub letter: u8,
}

// Whether both forms have one word, and the sums are equal with the offset before the second.
fn is_even<T: Tally>(own: &Form<T, 512>, offset: T, other: &Form<T, 512>) -> bool
    ensures { Decides result ((held own.now.word ≡ held other.now.word) × (own.now.sum ≡ T.Tally.group.add offset other.now.sum)) }
{
    own.word.word() == other.word.word() && own.sum == offset.add(other.sum)
}

// Whether two sides meet: neither is there, or both are and they are even.
fn meet<T: Tally>(own: Option<Form<T, 512>>, offset: T, other: Option<Form<T, 512>>) -> bool
    ensures { (D : Sheet T) (p q : Option (Weighted T)) → Side T.Tally.group D own p → Side T.Tally.group D other q → Decides result (Meets T.Tally.group D offset p q) }
{
    match (own, other) {
        (None, None) => true,
        (Some(own), Some(other)) => is_even(&own, offset, &other),
        _ => false,
    }
}

impl<T: Tally> Workspace<T> {
    // The offset of a symbol's row; zero where it has none.
    pub fn offset(&self, symbol: u8) -> T
        ensures { (t : T) → slice_get self.now.offsets symbol ≡ Some t → result ≡ t }
    {
        self.offsets
            .get(symbol as usize)
            .copied()
            .unwrap_or(T::zero())
    }

    // The normal form of what the word becomes by the letter, its sum with the tally of the rule; none
    // without a step.
    fn side(&self, survey: &Survey<T>, word: &[u8], letter: u8) -> Option<Form<T, 512>>
        ensures { (V : View) → Ready T.Tally.group survey.now V self.now → Below survey.now.skeleton.words.count word.now → norms (norm_in survey.now) word.now ≤ 64 → Side T.Tally.group (rows_over T.Tally.group survey.now V) result (step (surveyed survey.now) word.now letter) }
    {
        let run = survey.run(word, &[letter])?;
        let normal = self.forms.replace(run.left.word());
        Some(Form {
            word: normal.word,
            sum: run.tally.add(normal.sum),
        })
    }

    // The normal form of a word of the grammar's symbols, its norm at most 512, and its sum.
    pub fn normal_form(&self, word: &[u8]) -> Form<T, 512>
        ensures { (s : Survey T) (V : View) → Ready T.Tally.group s V self.now → Below s.skeleton.words.count word.now → norms (norm_in s) word.now ≤ 512 → Normal T.Tally.group (rows_over T.Tally.group s V) word.now (held result.word) result.sum }
    {
        self.forms.replace(word)
    }

    // Whether the symbol's row agrees at the letter; a symbol without a row has nothing to disagree.
    pub fn agrees(&self, survey: &Survey<T>, rows: SheetView<'_>, symbol: u8, letter: u8) -> bool
        ensures row { Ready T.Tally.group survey.now (shown rows.entry) self.now → (m : Weighted T) → rows_over T.Tally.group survey.now (shown rows.entry) symbol ≡ Some m → Decides result (Agrees T.Tally.group (surveyed survey.now) (rows_over T.Tally.group survey.now (shown rows.entry)) symbol m letter) }
        ensures free { shown rows.entry symbol ≡ None → result ≡ true }
    {
        let Some(row) = rows.row(symbol) else {
            return true;
        };
        let own = self.side(survey, &[symbol], letter);
        let other = self.side(survey, row.as_slice(), letter);
        meet(own, self.offset(symbol), other)
    }

    // The first row and letter that do not agree, by symbol, then letter; none where the rows prove
    // themselves.
    pub fn first_disagreement(
        &self,
        survey: &Survey<T>,
        rows: SheetView<'_>,
    ) -> Option<Disagreement>
        ensures value { Ready T.Tally.group survey.now (shown rows.entry) self.now → MatchOption result (SelfProving T.Tally.group (surveyed survey.now) (rows_over T.Tally.group survey.now (shown rows.entry))) (λ d. FirstWrong T.Tally.group (surveyed survey.now) (rows_over T.Tally.group survey.now (shown rows.entry)) d.symbol d.letter) }
        ensures law { RowLaws T.Tally.group (surveyed survey.now) (norm_in survey.now) }
    {
        let mut found = None;
        let mut from = 0;
        'rows: while let Some((symbol, _)) = rows.next(from) {
            for letter in b'A'..=b'Z' {
                if !self.agrees(survey, rows, symbol, letter) {
                    found = Some(Disagreement { symbol, letter });
                    break 'rows;
                }
            }
            from = symbol + 1;
        }
        found
    }
}
