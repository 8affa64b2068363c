ghost use Rattle.std.specs.Prelude.{◌≡◌, Decides};

use sheet::Row;

// What is done with a pair of words that is looked at.
#[derive(Clone, Copy)]
pub enum Treatment {
    // The normal forms are equal, words and sums.
    Agree,
    // The given words are different.
    Different,
    // The symbol gets this row.
    Mend(u8, Row),
}

impl Treatment {
    ghost use Rattle.comparison.specs.declared.treatment.Treatment.TheVariants.{Agree};

    // Whether the pair agrees.
    pub fn agrees(&self) -> bool
        ensures { Decides result (self.now ≡ Agree) }
    {
        matches!(self, Treatment::Agree)
    }
}
