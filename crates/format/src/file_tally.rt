// Tallies in files: the kinds of a tally and its numbers, as a file holds them.
ghost use Rattle.std.specs.Prelude.{◌≡◌, ℕ, ◌<◌, ◌≤◌, min, List, length, slice_get};
ghost use Rattle.format.specs.Kinds.{Lossless, untallied_kinds, untallied_numbers, untallied_made, untallied_lossless};
ghost use Rattle.format.specs.Kinds.{foot_numbered, last_numbered, odd_numbered};
ghost use Rattle.format.specs.Kinds.{only_kinds, only_numbers, only_made, only_lossless};
ghost use Rattle.format.specs.Kinds.{pair_kinds, pair_numbers, pair_made, pair_lossless};
ghost use Rattle.layout.specs.Kinds.{byte_of};
ghost use Rattle.layout.specs.Reading.{same_kinds};
ghost use Rattle.layout.specs.declared.kind.Kind.{Kind};
ghost use Rattle.layout.specs.declared.kind.Kind.TheVariants.{Foot, Last, OddOnes};
ghost use Rattle.tally.specs.Makes.{Numbered};

use layout::Kind;
use tally::{FootMm, LastMm, OddOnes, Pair, Tally, Untallied};

// A tally that a file can hold, as one number for each of its kinds, or refuse for its kinds.
pub trait FileTally: Tally {
    // Its kinds.
    ghost kinds: { List ℕ };

    // The numbers of a tally, one for each kind.
    ghost numbers: { Self → List ℕ };

    // The tally of two numbers, since a file has at most two kinds.
    ghost made: { ℕ → ℕ → Self };

    // What every make owes: nothing is lost between a tally and its numbers.
    ghost lossless: { Lossless kinds numbers made };

    // How many kinds there are; 255 where there are more, since pairs nest without bound.
    fn kind_count() -> u8
        ensures { result ≡ min 255 (length kinds) };

    // The kind at a place below 255, if there is one. A byte: a make of another crate may have a kind
    // that is none of `Kind`, and is refused for it.
    fn kind(at: u8) -> Option<u8>
        ensures { at < 255 → result ≡ slice_get kinds at };

    // The number at a place below 255, if there is one.
    fn number(&self, at: u8) -> Option<u32>
        ensures { at < 255 → result ≡ slice_get (numbers self.now) at };

    // The tally of two numbers; those without a kind are ignored.
    fn of_numbers(first: u32, second: u32) -> Self
        ensures { result ≡ made first second };
}

// No kind and no number.
impl FileTally for Untallied {
    ghost kinds = { untallied_kinds };

    ghost numbers = { untallied_numbers };

    ghost made = { untallied_made };

    ghost lossless = { untallied_lossless };

    fn kind_count() -> u8 {
        0
    }

    fn kind(_at: u8) -> Option<u8> {
        None
    }

    fn number(&self, _at: u8) -> Option<u32> {
        None
    }

    fn of_numbers(_first: u32, _second: u32) -> Untallied {
        Untallied
    }
}

// A tally that is just one number, of one kind.
pub trait OneNumber: Tally {
    // What the number counts.
    const KIND: Kind;

    ghost KIND: { Kind };

    // A tally and its number make each other.
    ghost numbered: { Numbered Self };

    // The number of the tally.
    fn value(&self) -> u32
        ensures { result ≡ numbered.number self.now };

    // The tally of a number.
    fn of_value(value: u32) -> Self
        ensures { numbered.number result ≡ value };
}

impl OneNumber for FootMm {
    const KIND: Kind = Kind::Foot;

    ghost KIND = { Foot };

    ghost numbered = { foot_numbered };

    fn value(&self) -> u32 {
        self.mm
    }

    fn of_value(value: u32) -> FootMm {
        FootMm { mm: value }
    }
}

// A twin of the impl for foot lengths, as the two lengths are two structs.
impl OneNumber for LastMm {
    const KIND: Kind = Kind::Last;

    ghost KIND = { Last };

    ghost numbered = { last_numbered };

    fn value(&self) -> u32 {
        self.mm
    }

    fn of_value(value: u32) -> LastMm {
        LastMm { mm: value }
    }
}

impl OneNumber for OddOnes {
    const KIND: Kind = Kind::OddOnes;

    ghost KIND = { OddOnes };

    ghost numbered = { odd_numbered };

    fn value(&self) -> u32 {
        self.bits
    }

    fn of_value(value: u32) -> OddOnes {
        OddOnes { bits: value }
    }
}

// One kind and one number.
impl<T: OneNumber> FileTally for T {
    ghost kinds = { only_kinds T.OneNumber.KIND };

    ghost numbers = { only_numbers T.OneNumber.numbered };

    ghost made = { only_made T.OneNumber.numbered };

    ghost lossless = { only_lossless T.OneNumber.numbered (byte_of T.OneNumber.KIND) };

    fn kind_count() -> u8 {
        1
    }

    fn kind(at: u8) -> Option<u8> {
        (at == 0).then_some(u8::from(T::KIND))
    }

    fn number(&self, at: u8) -> Option<u32> {
        (at == 0).then_some(self.value())
    }

    fn of_numbers(first: u32, _second: u32) -> T {
        T::of_value(first)
    }
}

// The left's kinds and numbers, and then the right's.
impl<X: FileTally, Y: FileTally> FileTally for Pair<X, Y> {
    ghost kinds = { pair_kinds X.FileTally.kinds Y.FileTally.kinds };

    ghost numbers = { pair_numbers X.FileTally.numbers Y.FileTally.numbers };

    ghost made = { pair_made X.FileTally.kinds X.FileTally.made Y.FileTally.made };

    ghost lossless = { pair_lossless X.FileTally.numbers Y.FileTally.numbers X.FileTally.made Y.FileTally.made X.FileTally.kinds Y.FileTally.kinds X.FileTally.lossless Y.FileTally.lossless };

    fn kind_count() -> u8 {
        X::kind_count().saturating_add(Y::kind_count())
    }

    fn kind(at: u8) -> Option<u8> {
        let count = X::kind_count();
        if at < count {
            X::kind(at)
        } else {
            Y::kind(at - count)
        }
    }

    fn number(&self, at: u8) -> Option<u32> {
        let count = X::kind_count();
        if at < count {
            self.0.number(at)
        } else {
            self.1.number(at - count)
        }
    }

    fn of_numbers(first: u32, second: u32) -> Pair<X, Y> {
        match X::kind_count() {
            0 => Pair(X::of_numbers(0, 0), Y::of_numbers(first, second)),
            1 => Pair(X::of_numbers(first, 0), Y::of_numbers(second, 0)),
            _ => Pair(X::of_numbers(first, second), Y::of_numbers(0, 0)),
        }
    }
}

// Whether a file with these kinds, at most two, holds such tallies.
pub(crate) fn has_kinds<T: FileTally>(kinds: &[u8]) -> bool
    ensures { length kinds.now ≤ 2 → result ≡ same_kinds T.FileTally.kinds kinds.now }
{
    if T::kind_count() as usize != kinds.len() {
        return false;
    }
    T::kind(0) == kinds.first().copied() && T::kind(1) == kinds.get(1).copied()
}
