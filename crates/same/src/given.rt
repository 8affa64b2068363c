use format::Checked;

// A file by its name, checked.
#[derive(Clone, Copy)]
pub struct Given<'a> {
    pub name: &'a str,
    pub file: Checked<'a>,
}
