use walk::Letters;

// The inputs that are worked with: the one that is tried, and the end of it, behind the common front.
#[derive(Drop)]
pub(crate) struct Bench {
    pub(crate) tried: Letters,
    pub(crate) end: Letters,
}

impl Bench {
    // Nothing is tried yet.
    pub(crate) fn new() -> Bench {
        Bench {
            tried: Letters::new(),
            end: Letters::new(),
        }
    }
}
