// Tallies by the kinds of their numbers.
use crate::misread::Misread;
use format::{FileTally, check_file};
use layout::{Fault, Kind};
use std::marker::PhantomData;
use std::str::FromStr;
use tally::{FootMm, LastMm, OddOnes, Pair, Untallied};

// None, one or two kinds, in their order.
#[derive(Clone, Copy, Debug, PartialEq, Eq)]
pub enum Kinds {
    Nothing,
    Single(Kind),
    Paired(Kind, Kind),
}

// What an expression gives for the tally whose kinds these are; a name in it stands for that tally.
macro_rules! with_tally {
    ($kinds:expr, $tally:ident => $body:expr) => {
        match $kinds {
            Kinds::Nothing => { let $tally = PhantomData::<Untallied>; $body }
            Kinds::Single(Kind::Foot) => { let $tally = PhantomData::<FootMm>; $body }
            Kinds::Single(Kind::Last) => { let $tally = PhantomData::<LastMm>; $body }
            Kinds::Single(Kind::OddOnes) => { let $tally = PhantomData::<OddOnes>; $body }
            Kinds::Paired(Kind::Foot, Kind::Foot) => { let $tally = PhantomData::<Pair<FootMm, FootMm>>; $body }
            Kinds::Paired(Kind::Foot, Kind::Last) => { let $tally = PhantomData::<Pair<FootMm, LastMm>>; $body }
            Kinds::Paired(Kind::Foot, Kind::OddOnes) => { let $tally = PhantomData::<Pair<FootMm, OddOnes>>; $body }
            Kinds::Paired(Kind::Last, Kind::Foot) => { let $tally = PhantomData::<Pair<LastMm, FootMm>>; $body }
            Kinds::Paired(Kind::Last, Kind::Last) => { let $tally = PhantomData::<Pair<LastMm, LastMm>>; $body }
            Kinds::Paired(Kind::Last, Kind::OddOnes) => { let $tally = PhantomData::<Pair<LastMm, OddOnes>>; $body }
            Kinds::Paired(Kind::OddOnes, Kind::Foot) => { let $tally = PhantomData::<Pair<OddOnes, FootMm>>; $body }
            Kinds::Paired(Kind::OddOnes, Kind::Last) => { let $tally = PhantomData::<Pair<OddOnes, LastMm>>; $body }
            Kinds::Paired(Kind::OddOnes, Kind::OddOnes) => { let $tally = PhantomData::<Pair<OddOnes, OddOnes>>; $body }
        }
    };
}

pub(crate) use with_tally;

// A kind by its digit.
fn kind_of(digit: u8) -> Result<Kind, Misread> {
    Ok(Kind::try_from(digit.wrapping_sub(b'0'))?)
}

impl FromStr for Kinds {
    type Err = Misread;

    fn from_str(field: &str) -> Result<Kinds, Misread> {
        match field.as_bytes() {
            [b'-'] => Ok(Kinds::Nothing),
            [kind] => Ok(Kinds::Single(kind_of(*kind)?)),
            [first, second] => Ok(Kinds::Paired(kind_of(*first)?, kind_of(*second)?)),
            _ => Err(Misread::Malformed),
        }
    }
}

// The kinds that a file can state.
const STATED: [Kinds; 7] = [
    Kinds::Nothing,
    Kinds::Single(Kind::Foot),
    Kinds::Single(Kind::Last),
    Kinds::Single(Kind::OddOnes),
    Kinds::Paired(Kind::Foot, Kind::Last),
    Kinds::Paired(Kind::Foot, Kind::OddOnes),
    Kinds::Paired(Kind::Last, Kind::OddOnes),
];

// The fault of a file, checked for a tally.
fn fault_for<T: FileTally>(_tally: PhantomData<T>, bytes: &[u8]) -> Option<Fault> {
    check_file::<T>(bytes).err()
}

impl Kinds {
    // How many kinds there are.
    pub fn count(self) -> usize {
        match self {
            Kinds::Nothing => 0,
            Kinds::Single(_) => 1,
            Kinds::Paired(_, _) => 2,
        }
    }

    // The fault of a file, checked for the tally of these kinds.
    pub fn file_fault(self, bytes: &[u8]) -> Option<Fault> {
        with_tally!(self, tally => fault_for(tally, bytes))
    }

    // The kinds that a file states; none where it is refused for each.
    pub fn of_file(bytes: &[u8]) -> Option<Kinds> {
        STATED
            .iter()
            .copied()
            .find(|kinds| kinds.file_fault(bytes).is_none())
    }
}
