//! The pieces that texts are written of. Each adds a text to the bytes.

ghost use Rattle.std.specs.Prelude.{◌≡◌, ◌++◌, OnOk};
ghost use Rattle.std.specs.Fmt.{signed_decimal};
ghost use Rattle.flame_popfile.specs.CommaTexts.{comma_where, name_text};

use flame_rows::NoMemory;
use itoa::Buffer;

/// Adds a text.
pub(crate) fn push_str(bytes: &mut Vec<u8>, text: &str) -> Result<(), NoMemory>
    ensures { OnOk result (bytes.new.items ≡ bytes.old.items ++ text.now) }
{
    bytes.extend_from_slice(text.as_bytes())?;
    Ok(())
}

/// Adds a name and a colon.
pub(crate) fn push_name(bytes: &mut Vec<u8>, name: &str) -> Result<(), NoMemory>
    ensures { OnOk result (bytes.new.items ≡ bytes.old.items ++ name_text name.now) }
{
    push_str(bytes, "\"")?;
    push_str(bytes, name)?;
    push_str(bytes, "\":")?;
    Ok(())
}

/// Adds a number.
pub(crate) fn push_number(bytes: &mut Vec<u8>, number: i32) -> Result<(), NoMemory>
    ensures { OnOk result (bytes.new.items ≡ bytes.old.items ++ signed_decimal number) }
{
    let mut digits = Buffer::new();
    push_str(bytes, digits.format(number))
}

/// Adds a comma, where there is more before.
pub(crate) fn push_comma(bytes: &mut Vec<u8>, more: bool) -> Result<(), NoMemory>
    ensures { OnOk result (bytes.new.items ≡ bytes.old.items ++ comma_where more) }
{
    if more {
        bytes.push(b',')?;
    }
    Ok(())
}
