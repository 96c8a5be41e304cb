//! A row as an object of JSON.
ghost use Rattle.std.specs.Prelude.{◌≡◌, ◌++◌, ◌∷◌, [], IfOk, OnOk};
ghost use Rattle.json.specs.Print.{print};
ghost use Rattle.json.specs.Token.{key, string};
ghost use Rattle.hex.specs.Hex.{encode_lower};
ghost use Rattle.program_rows.specs.Objects.{json_of_row, member, members_of_row, object_of_row};

use json::Writer;
use records::Row;
use std::alloc::{AllocError, Global};

// Writes a member whose value is a text.
fn write_text(writer: &mut Writer, name: &str, text: &str) -> Result<(), AllocError>
    ensures written { OnOk result (writer.new.tokens ≡ writer.old.tokens ++ key name.now ∷ string text.now ∷ []) }
    ensures before { OnOk result (writer.new.before ≡ writer.old.before) }
{
    writer.key(name)?;
    writer.string(text)
}

// Writes a member whose value is the digits of bytes.
fn write_digits(
    writer: &mut Writer,
    alloc: Global,
    name: &str,
    bytes: &[u8],
) -> Result<(), AllocError>
    ensures written { OnOk result (writer.new.tokens
        ≡ writer.old.tokens ++ key name.now ∷ string (encode_lower bytes.now) ∷ []) }
    ensures before { OnOk result (writer.new.before ≡ writer.old.before) }
{
    let digits = hex::encode(alloc, bytes)?;
    write_text(writer, name, digits.as_str())
}

// Writes a member with these bytes: as a text; or where they are none as digits, under the other name.
fn write_bytes(
    writer: &mut Writer,
    alloc: Global,
    name: &str,
    hex_name: &str,
    bytes: &[u8],
) -> Result<(), AllocError>
    ensures written { OnOk result (writer.new.tokens ≡ writer.old.tokens ++ member name.now hex_name.now bytes.now) }
    ensures before { OnOk result (writer.new.before ≡ writer.old.before) }
{
    match std::str::from_utf8(bytes) {
        Ok(text) => write_text(writer, name, text),
        Err(_) => write_digits(writer, alloc, hex_name, bytes),
    }
}

// Writes the members of the row.
fn write_members(writer: &mut Writer, alloc: Global, row: &Row) -> Result<(), AllocError>
    ensures written { OnOk result (writer.new.tokens ≡ writer.old.tokens ++ members_of_row row.now) }
    ensures before { OnOk result (writer.new.before ≡ writer.old.before) }
{
    write_bytes(writer, alloc, "key", "key_hex", row.key.as_slice())?;
    write_bytes(writer, alloc, "body", "body_hex", row.body.as_slice())
}

// The text of the row's object.
fn object_text(alloc: Global, row: &Row) -> Result<Vec<u8>, AllocError>
    ensures text { IfOk result (λ text. text.items ≡ print (object_of_row row.now)) }
{
    let mut writer = Writer::new(Vec::new(alloc));
    writer.begin_object()?;
    write_members(&mut writer, alloc, row)?;
    writer.end_object()?;
    Ok(writer.into_inner())
}

/// The line of the row as an object: its text, and a line feed. What it gives back, the law `each_object` says. The
/// error is that memory was refused.
pub fn json_line(alloc: Global, row: &Row) -> Result<Vec<u8>, AllocError>
    ensures line { IfOk result (λ text. text.items ≡ json_of_row row.now) }
{
    let mut text = object_text(alloc, row)?;
    text.push(b'\n')?;
    Ok(text)
}
