// The arguments that ask a question.
ghost use Rattle.std.specs.Prelude.{◌≡◌, map, option_map};
ghost use Rattle.asking.specs.Arguments.{question_of, said, four_texts};

// A file by its name, and a word as it is written.
#[derive(Clone, Copy)]
pub struct WrittenWord<'a> {
    pub name: &'a str,
    pub word: &'a str,
}

// Two words of two files, and where the rows are to go.
#[derive(Clone, Copy)]
pub struct Arguments<'a> {
    pub first: WrittenWord<'a>,
    pub second: WrittenWord<'a>,
    pub rows: Option<&'a str>,
}

// The option that names the file of the rows.
const ROWS: &str = "--rows";

impl<'a> Arguments<'a> {
    // Two files, each with a word behind its name.
    fn of_four(words: &[&'a str], rows: Option<&'a str>) -> Option<Arguments<'a>>
        ensures { option_map said result ≡ four_texts (map (λ w. w.now) words.now) (option_map (λ w. w.now) rows.entry) }
    {
        let [name, word, other, second] = words else {
            return None;
        };
        let first = WrittenWord {
            name: *name,
            word: *word,
        };
        let second = WrittenWord {
            name: *other,
            word: *second,
        };
        Some(Arguments {
            first,
            second,
            rows,
        })
    }

    // The arguments in their order: four words, with the option before or behind them.
    pub fn parse(words: &[&'a str]) -> Option<Arguments<'a>>
        ensures { option_map said result ≡ question_of (map (λ w. w.now) words.now) }
    {
        match words {
            [option, out, four @ ..] if *option == ROWS => Self::of_four(four, Some(*out)),
            [four @ .., option, out] if *option == ROWS => Self::of_four(four, Some(*out)),
            four => Self::of_four(four, None),
        }
    }
}
