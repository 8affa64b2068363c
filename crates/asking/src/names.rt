// Names, apart where two files have the same.
ghost use Rattle.std.specs.Prelude.{◌≡◌, ◌++◌, OnOk};
ghost use Rattle.asking.specs.Texts.{marked};

use std::alloc::AllocError;

// Writes a name; where it stands in the other file too, its file's number and a point come before it.
pub(crate) fn push_name(
    text: &mut Vec<u8>,
    mark: &[u8],
    name: u8,
    others: &[u8],
) -> Result<(), AllocError>
    ensures { OnOk result (text.new.items ≡ text.old.items ++ marked mark.now name others.now) }
{
    if others.contains(&name) {
        text.extend_from_slice(mark)?;
    }
    text.extend_from_slice(&[name])
}
