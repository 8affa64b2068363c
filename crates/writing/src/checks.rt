// What a write is refused for.
ghost use Rattle.std.specs.Prelude.{◌≡◌, ◌==◌, ◌&&◌, not, [], ◌∷◌, reverse, length, nat_lt};
ghost use Rattle.std.specs.Option.{option_map};
ghost use Rattle.layout.specs.Reading.{named, absent};
ghost use Rattle.layout.specs.declared.fault.Fault.TheVariants.{Unallowed};
ghost use Rattle.calls.specs.Refusals.{first_of, when, unless};
ghost use Rattle.calls.specs.declared.fault.CallFault.TheVariants.{File, ShortCopy};
ghost use Rattle.writing.specs.Files.{bad_name, kind_byte, file_kinds, file_faults, min_file};

use calls::CallFault;
use format::FileTally;
use layout::{Fault, Kind};

// The room that a write needs: the most bytes that a file has.
pub const MIN_FILE: usize = 14_565;

// Whether the byte may be a name: a to z, 0 to 9.
fn is_name(byte: u8) -> bool
    ensures { result ≡ named byte }
{
    byte.is_ascii_lowercase() || byte.is_ascii_digit()
}

// Whether the byte may be a name and is none of those before it.
fn is_new_name(byte: u8, before: &[u8]) -> bool
    ensures { result ≡ (named byte && absent byte (reverse before.now)) }
{
    is_name(byte) && !before.contains(&byte)
}

// Each name may be one, and is none of those before it. The place told is the one in the file, where the
// first name lies behind the count.
fn check_each(names: &[u8]) -> Result<(), CallFault>
    ensures { result ≡ unless (option_map (λ k. File (Unallowed k)) (bad_name 1 [] names.now)) }
{
    for (at, name) in names.iter().enumerate() {
        if !is_new_name(*name, &names[..at]) {
            return Err(CallFault::File(Fault::Unallowed(at + 1)));
        }
    }
    Ok(())
}

// Whether a byte stands for a kind.
fn is_kind(byte: u8) -> bool
    ensures { result ≡ kind_byte byte }
{
    Kind::try_from(byte).is_ok()
}

// Whether a file can hold the kinds of the tally: at most two, that rise.
fn has_file_kinds<T: FileTally>() -> bool
    ensures { result ≡ file_kinds T.FileTally.kinds }
{
    match (T::kind(0), T::kind(1), T::kind(2)) {
        (None, _, _) => true,
        (Some(only), None, _) => is_kind(only),
        (Some(first), Some(second), None) => is_kind(first) && is_kind(second) && first < second,
        (Some(_), Some(_), Some(_)) => false,
    }
}

// What a write is refused for before the grammar's own fault, over so many symbols.
pub fn check_names<T: FileTally>(count: u8, names: &[u8]) -> Result<(), CallFault>
    ensures { result ≡ unless (first_of (file_faults count T.FileTally.kinds names.now)) }
{
    if names.len() != usize::from(count) {
        return Err(CallFault::File(Fault::Limit(0)));
    }
    check_each(names)?;
    if !has_file_kinds::<T>() {
        return Err(CallFault::File(Fault::Kinds));
    }
    Ok(())
}

// What a write to a buffer of so many bytes is refused for.
pub fn check_room(room: usize) -> Result<(), CallFault>
    ensures { result ≡ unless (when (nat_lt room min_file) (ShortCopy room)) }
{
    if room < MIN_FILE {
        return Err(CallFault::ShortCopy(room));
    }
    Ok(())
}
