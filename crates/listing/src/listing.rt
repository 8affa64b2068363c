// The listing of a file.
ghost use Rattle.std.specs.Prelude.{◌≡◌, ℕ, ◌≤◌, List, ◌++◌, length, drop, Ok};
ghost use Rattle.layout.specs.Contents.{Contents};
ghost use Rattle.format.specs.Lent.{Wrote};
ghost use Rattle.file_grammar.specs.Filed.{held};
ghost use Rattle.survey.specs.declared.table.Survey.{Survey};
ghost use Rattle.listing.specs.Found.{Led, Tells};
ghost use Rattle.listing.specs.Listed.{Lists, Listed};
ghost use Rattle.listing.specs.Opened.{Opened};

use crate::lines::{line_into, refusal_into};
use crate::opening::open;
use crate::smallest::smallest;
use calls::CallFault;
use comparer::Comparer;
use format::FileTally;
use grammar::MAX_INPUT;
use layout::FaultCode;
use stated::check_any;
use tally::{FootMm, LastMm, OddOnes, Pair, Tally, Untallied};

// Room for each listing: 32 lines of 7 bytes, or a refusal, which has three numbers.
pub const MAX_LISTING: usize = 256;

// Writes the lines of the symbols, which have these names, and answers their length.
fn lines_into<T: Tally>(
    comparer: &mut Comparer<T>,
    names: &[u8],
    out: &mut [u8; MAX_LISTING],
) -> usize
    requires { length names.now ≤ 32 }
    ensures { (s : Survey T) → Led T.Tally.group s comparer.old → length names.now ≡ s.skeleton.words.count → (t : List ℕ) × Tells T.Tally.group s names.now t × Wrote out.old 0 t result out.new }
{
    let mut room = [0; MAX_INPUT];
    let mut found = [0; 32];
    let mut at = 0;
    for symbol in 0..names.len() as u8 {
        let least = smallest(comparer, symbol, &found, &mut room);
        found[usize::from(symbol)] = least;
        let norm = comparer.norm(symbol).unwrap_or(0);
        at = line_into(names, norm, symbol, least, out, at);
    }
    at
}

// Writes the listing of a file with these names, over whose grammar a comparer was opened, and answers its length.
fn opened_into<T: FileTally>(
    opened: Result<Comparer<T>, CallFault>,
    names: &[u8],
    out: &mut [u8; MAX_LISTING],
) -> usize
    requires { length names.now ≤ 32 }
    ensures { (c : Contents) → names.now ≡ c.names → Opened T.Tally.group (held T.FileTally.made (Ok c)) c.rows opened → (t : List ℕ) × Lists T.Tally.group T.FileTally.made c t × (result ≡ length t) × (out.new ≡ t ++ drop (length t) out.old) }
{
    match opened {
        Ok(mut comparer) => lines_into(&mut comparer, names, out),
        Err(fault) => refusal_into(FaultCode::from(fault), out, 0),
    }
}

// Writes the listing of a file's bytes at the start of the buffer, answers its length, and leaves the rest.
pub fn list_file(bytes: &[u8], out: &mut [u8; MAX_LISTING]) -> usize
    ensures { (t : List ℕ) × Listed bytes.now t × (result ≡ length t) × (out.new ≡ t ++ drop (length t) out.old) }
{
    let file = match check_any(bytes) {
        Ok(file) => file,
        Err(fault) => return refusal_into(FaultCode::from(fault), out, 0),
    };
    match file.kinds {
        [] => opened_into(open::<Untallied>(file, bytes), file.names, out),
        [1] => opened_into(open::<FootMm>(file, bytes), file.names, out),
        [2] => opened_into(open::<LastMm>(file, bytes), file.names, out),
        [3] => opened_into(open::<OddOnes>(file, bytes), file.names, out),
        [1, 2] => opened_into(open::<Pair<FootMm, LastMm>>(file, bytes), file.names, out),
        [1, 3] => opened_into(open::<Pair<FootMm, OddOnes>>(file, bytes), file.names, out),
        _ => opened_into(open::<Pair<LastMm, OddOnes>>(file, bytes), file.names, out),
    }
}
