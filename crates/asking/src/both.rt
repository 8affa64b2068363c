// The question about words of two files.
ghost use Rattle.std.specs.Prelude.{◌≡◌, ℕ, ◌≤◌, length, drop, Option, Ok, Err, IfOk};
ghost use Rattle.grammar.specs.Meaning.{Word, Below};
ghost use Rattle.grammar.specs.Twinned.{raised};
ghost use Rattle.layout.specs.Contents.{Contents, Legal};
ghost use Rattle.format.specs.Views.{Shows};
ghost use Rattle.file_grammar.specs.Filed.{held};
ghost use Rattle.calls.specs.declared.fault.CallFault.{CallFault as faults};
ghost use Rattle.asking.specs.Questions.{AnswersOf, TellsOf};
ghost use Rattle.asking.specs.declared.outcome.Answered.{Answered as Answer};
ghost use Rattle.asking.specs.declared.outcome.Outcome.TheVariants.{Same, Different};

use crate::outcome::Answered;
use crate::question::ask;
use calls::CallFault;
use comparer::Comparer;
use file_grammar::FileGrammar;
use format::{Checked, FileTally};
use grammar::Twin;

// Asks whether two words are the same over the twin of two files' grammars, with a new comparer. Of a word of the first
// file, and a word of the second that is raised by the first file's count, the answer speaks by each word's own file.
pub fn ask_files<T: FileTally>(
    first: Checked<'_>,
    second: Checked<'_>,
    one: &[u8],
    two: &[u8],
    out: &mut [u8],
) -> Result<Answered<T>, CallFault>
    ensures answers { (c d : Contents) → Legal c → Legal d → Shows first.entry c → Shows second.entry d → AnswersOf T.Tally.group (held T.FileTally.made (Ok c)) (held T.FileTally.made (Ok d)) one.now two.now (length out.old) out.new result }
    ensures own { (c d : Contents) → Legal c → Legal d → Shows first.entry c → Shows second.entry d → (w : Word) → Below (length c.names) one.now → two.now ≡ raised (length c.names) w → IfOk result (λ a. TellsOf T.Tally.group (held T.FileTally.made (Ok c)) (held T.FileTally.made (Ok d)) one.now w out.new a.outcome) }
    ensures refused { (f : faults) → result ≡ Err f → out.new ≡ out.old }
    ensures untouched { (a : Answer T) → result ≡ Ok a → a.outcome ≡ Same → out.new ≡ out.old }
    ensures shown { (a : Answer T) → result ≡ Ok a → (n : ℕ) (p q : Option T) → a.outcome ≡ Different n p q → (n ≤ 16384) × (length out.new ≡ length out.old) × (drop n out.new ≡ drop n out.old) }
{
    let twin = Twin::new(
        FileGrammar::<T>::of_file(first),
        FileGrammar::<T>::of_file(second),
    );
    let mut comparer = Comparer::new(&twin);
    let outcome = ask(&mut comparer, one, two, out)?;
    Ok(Answered { outcome, comparer })
}
