// Forms put for symbols, everywhere in a word.
ghost use Rattle.std.specs.Prelude.{◌≡◌, ℕ, ◌<◌, ◌≤◌, [], ◌∷◌, cond, length, ◌==◌};
ghost use Rattle.std.specs.Option.{option_map};
ghost use Rattle.grammar.specs.WordStacks.{held};
ghost use Rattle.rows.specs.Replacing.{put};
ghost use Rattle.agreement.specs.Forms.{form_of, puts, or_itself, replaced, refilled, IsItselfBut, Passed};

use crate::form::Form;
use crate::forms::Forms;
use grammar::WordStack;
use tally::Tally;

// The form of a symbol that stands for itself.
fn itself<T: Tally>(symbol: u8) -> Form<T, 64>
    ensures { form_of result ≡ record { word = symbol ∷ []; tally = T.Tally.group.zero } }
{
    let mut word = WordStack::new();
    word.push(symbol);
    let sum = T::zero();
    Form { word, sum }
}

// The form's word in less room, with another sum.
pub(crate) fn shortened<T: Tally>(form: &Form<T, 512>, sum: T) -> Form<T, 64>
    ensures { length (held form.now.word) ≤ 64 → form_of result ≡ record { word = held form.now.word; tally = sum } }
{
    let mut word = WordStack::new();
    word.push_word(form.word.word());
    Form { word, sum }
}

impl<T: Tally> Forms<T> {
    // Each symbol stands for itself.
    pub(crate) fn plain() -> Forms<T>
        ensures { (A : ℕ) → puts T.Tally.group result A ≡ record { word = A ∷ []; tally = T.Tally.group.zero } }
    {
        Forms {
            forms: std::array::from_fn(|symbol| itself(symbol as u8)),
        }
    }

    // The form for a symbol, if it has one.
    fn form(&self, symbol: u8) -> Option<&Form<T, 64>>
        ensures { or_itself T.Tally.group symbol (option_map (λ f. f.now) result) ≡ puts T.Tally.group self.now symbol }
    {
        self.forms.get(symbol as usize)
    }

    // Puts the form for the symbol, in place of what was put for it.
    pub(crate) fn set(&mut self, symbol: u8, form: Form<T, 64>)
        ensures { symbol < 32 → (A : ℕ) → puts T.Tally.group self.new A ≡ cond (A == symbol) (form_of form) (puts T.Tally.group self.old A) }
    {
        if symbol < 32 {
            self.forms[symbol as usize] = form;
        }
    }

    // The word with the forms for its symbols, and their sum, where that has room. (Its room is no parameter:
    // a call would owe that a form over any tally has a size.)
    pub(crate) fn replace(&self, word: &[u8]) -> Form<T, 512>
        ensures { length (put (puts T.Tally.group self.now) word.now) ≤ 512 → form_of result ≡ replaced T.Tally.group (puts T.Tally.group self.now) word.now }
    {
        let mut left = WordStack::<512>::new();
        let mut sum = T::zero();
        // From the last symbol on, as a stack takes words in front.
        for symbol in word.iter().rev() {
            match self.form(*symbol) {
                Some(form) => {
                    left.push_word(form.word.word());
                    sum = form.sum.add(sum);
                }
                None => left.push(*symbol),
            }
        }
        Form { word: left, sum }
    }

    // The form with these forms put in it.
    fn refilled(&self, form: &Form<T, 64>) -> Form<T, 64>
        ensures { length (put (puts T.Tally.group self.now) (form_of form.now).word) ≤ 64 → form_of result ≡ refilled T.Tally.group (puts T.Tally.group self.now) (form_of form.now) }
    {
        let new = self.replace(form.word.word());
        shortened(&new, form.sum.add(new.sum))
    }

    // Puts other forms in every form, in one pass. They put something else for the one symbol only, so forms that do
    // not name it stay as they are.
    pub(crate) fn refill(&mut self, symbol: u8, by: &Forms<T>)
        ensures { IsItselfBut T.Tally.group symbol (puts T.Tally.group by.now) → Passed T.Tally.group (puts T.Tally.group by.now) self.old.forms self.new.forms 32 }
    {
        for form in self.forms.iter_mut() {
            if form.word.word().contains(&symbol) {
                *form = by.refilled(form);
            }
        }
    }
}
