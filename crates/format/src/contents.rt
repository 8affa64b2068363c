// What a file holds, as it is handed to the encoder.
ghost use Rattle.std.specs.Prelude.{◌≡◌, ℕ, take};
ghost use Rattle.layout.specs.Contents.{FileRule};
ghost use Rattle.format.specs.Lent.{rule_of, owned_rule};

use crate::row::Row;

// A rule, lent: its numbers, one for each kind of the file, and its word.
#[derive(Clone, Copy)]
pub struct RuleEntry<'a> {
    pub symbol: u8,
    pub letter: u8,
    pub numbers: &'a [u32],
    pub word: &'a [u8],
}

// A rule that owns its numbers and its word: room for two numbers, as a file has at most two kinds,
// and for four symbols, of which `length` count. Numbers behind the last kind are not written.
#[derive(Clone, Copy)]
pub struct OwnedEntry {
    pub symbol: u8,
    pub letter: u8,
    pub numbers: [u32; 2],
    pub length: u8,
    pub symbols: [u8; 4],
}

// What the encoder writes as a rule.
pub trait Entry {
    // The rule that it is in a file of so many kinds.
    ghost rule: { ℕ → Self → FileRule };

    // That rule, lent.
    fn lend(&self, kinds: usize) -> RuleEntry<'_>
        ensures { rule_of result ≡ rule kinds self.now };
}

// The same rule in every file.
impl Entry for RuleEntry<'_> {
    ghost rule = { λ kinds entry. rule_of entry };

    fn lend(&self, _kinds: usize) -> RuleEntry<'_> {
        *self
    }
}

impl Entry for OwnedEntry {
    ghost rule = { owned_rule };

    fn lend(&self, kinds: usize) -> RuleEntry<'_> {
        RuleEntry {
            symbol: self.symbol,
            letter: self.letter,
            numbers: front(&self.numbers, kinds),
            word: front(&self.symbols, usize::from(self.length)),
        }
    }
}

// The contents of a file, lent, with rules of any `Entry`. Kinds are bytes, as contents that are not
// legal are written too.
#[derive(Clone, Copy)]
pub struct EntryContents<'a, R> {
    pub names: &'a [u8],
    pub kinds: &'a [u8],
    pub rules: &'a [R],
    pub rows: &'a [Row<'a>],
}

// Contents whose rules are lent too.
pub type LentContents<'a> = EntryContents<'a, RuleEntry<'a>>;

// The same as a struct of its own: `LentContents` names its lifetime twice, which the type of a
// function pointer may not.
#[derive(Clone, Copy)]
pub struct FileContents<'a> {
    pub names: &'a [u8],
    pub kinds: &'a [u8],
    pub rules: &'a [RuleEntry<'a>],
    pub rows: &'a [Row<'a>],
}

// Contents whose rules own their numbers and words.
pub type OwnedContents<'a> = EntryContents<'a, OwnedEntry>;

// The first `count` items, or all.
fn front<T>(items: &[T], count: usize) -> &[T]
    ensures { result.now ≡ take count items.now }
{
    items.get(..count).unwrap_or(items)
}
