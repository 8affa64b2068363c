use crate::pair::Pair;
use sheet::SheetView;

// A pair of words that is looked at over rows.
#[derive(Drop)]
pub(crate) struct Look<'a, T> {
    pub(crate) rows: SheetView<'a>,
    pub(crate) pair: Pair<'a, T>,
}
