use crate::desk::Desk;
use crate::refused::Refused;
use sheet::Sheet;

// A comparer: a grammar, and a sheet of rows. The shops call it a bench.
#[derive(Drop)]
pub struct Comparer<T> {
    pub(crate) desk: Result<Desk<T>, Refused>,
    pub(crate) sheet: Sheet,
}
