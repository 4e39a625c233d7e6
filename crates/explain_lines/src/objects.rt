ghost use Rattle.std.specs.Prelude.{◌≡◌, ℕ, List, Some, IfOk, OnOk, codes, string_bytes};
ghost use Rattle.std.specs.Str.{encode_utf8_all};
ghost use Rattle.json.specs.Json.{document};
ghost use Rattle.json.specs.Tree.{json_tokens};
ghost use Rattle.explain_lines.specs.Objects.{json_of, json_text, json_value, line_object, name_of, value_of};
ghost use Rattle.explain_lines.specs.Written.{IsLonger};

use crate::cutting::cut;
use json::Writer;
use std::alloc::{AllocError, Global};
use text_lines::first_line;

// A text of characters, each the one of a byte's number.
fn characters(alloc: Global, bytes: &[u8]) -> Result<String, AllocError>
    ensures { IfOk result (λ s. string_bytes s ≡ encode_utf8_all bytes.now) }
{
    let mut text = String::with_capacity(alloc, bytes.len())?;
    for byte in bytes {
        text.push(char::from(*byte))?;
    }
    Ok(text)
}

// The first word of a line, and what stands behind the first space.
fn parts_of(line: &[u8]) -> (&[u8], &[u8])
    ensures name { result.0.now ≡ name_of line.now }
    ensures value { result.1.now ≡ value_of line.now }
{
    let (name, value) = cut(b' ', line);
    (name, value.unwrap_or(&[]))
}

// Writes a line as an object.
fn put_line(alloc: Global, out: &mut Writer, line: &[u8]) -> Result<(), AllocError>
    ensures { OnOk result (IsLonger out.old out.new (json_tokens (line_object line.now))) }
{
    let (name, value) = parts_of(line);
    let name = characters(alloc, name)?;
    let value = characters(alloc, value)?;
    out.begin_object()?;
    out.key("name")?;
    out.string(&name)?;
    out.key("value")?;
    out.string(&value)?;
    out.end_object()
}

// Writes all lines as an array.
fn put_lines(alloc: Global, out: &mut Writer, text: &[u8]) -> Result<(), AllocError>
    ensures { OnOk result (IsLonger out.old out.new (json_tokens (json_value text.now))) }
{
    out.begin_array()?;
    let mut rest = text;
    while !rest.is_empty() {
        let (line, after) = first_line(rest);
        put_line(alloc, out, line)?;
        rest = after;
    }
    out.end_array()
}

/// The lines of a text as JSON (RFC 8259): an array with an object for each line, `{"name":"pc","value":"00001070 addi a7, zero, 3"}`, and a line feed. The name is the
/// line's first word, the value what stands behind the first space. Each byte is taken as the character of its number. The one error is want of memory.
pub fn json_of(alloc: Global, text: &[u8]) -> Result<Vec<u8>, AllocError>
    ensures { IfOk result (λ v. v.items ≡ json_of text.now) }
{
    let mut out = Writer::new(Vec::new(alloc));
    put_lines(alloc, &mut out, text)?;
    let mut bytes = out.into_inner();
    bytes.push(b'\n')?;
    Ok(bytes)
}
