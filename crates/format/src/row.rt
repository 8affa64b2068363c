// A row of the file: its symbol, and its word as it lies in the bytes.
#[derive(Clone, Copy, Debug, PartialEq)]
pub struct Row<'a> {
    pub symbol: u8,
    pub word: &'a [u8],
}

// The rules or the rows of a file: how many there are, and their bytes.
#[derive(Clone, Copy, Debug, PartialEq)]
pub struct Section<'a> {
    pub count: usize,
    pub bytes: &'a [u8],
}

// A file that was checked, part by part. Kinds are lent as they lie in the file, as bytes.
#[derive(Clone, Copy, Debug, PartialEq)]
pub struct Checked<'a> {
    pub names: &'a [u8],
    pub kinds: &'a [u8],
    pub rules: Section<'a>,
    pub rows: Section<'a>,
}
