use crate::origin::Origin;

// What a turn of a comparison comes to.
#[derive(Clone, Copy)]
pub(crate) enum Outcome {
    // A row was written.
    Mended,
    // All pairs agree.
    Same,
    // The pair of this origin is different.
    Different(Origin),
}
