ghost use Rattle.std.specs.Prelude.{◌≡◌, ◌<◌, ◌∷◌, [], length};
ghost use Rattle.std.specs.Str.Lines.{strip_carriage_return};
ghost use Rattle.text_lines.specs.Lines.{lines_with_returns, lines_of};

// The line at the front of a text that is not empty, with what stands at its end before the line feed, and what follows it.
fn first_line_with_return(text: &[u8]) -> (&[u8], &[u8])
    requires { 0 < length text.now }
    ensures lines { lines_with_returns text.now ≡ result.0.now ∷ lines_with_returns result.1.now }
    ensures shorter { length result.1.now < length text.now }
{
    for (at, byte) in text.iter().enumerate() {
        if *byte == b'\n' {
            return (&text[..at], &text[at + 1..]);
        }
    }
    (text, &[])
}

// A line without the one carriage return at its end.
fn without_return(line: &[u8]) -> &[u8]
    ensures { result.now ≡ strip_carriage_return line.now }
{
    let count = line.len();
    if count > 0 && line[count - 1] == b'\r' {
        &line[..count - 1]
    } else {
        line
    }
}

/// The line at the front of a text that is not empty, and what follows it.
pub fn first_line(text: &[u8]) -> (&[u8], &[u8])
    requires { 0 < length text.now }
    ensures lines { lines_of text.now ≡ result.0.now ∷ lines_of result.1.now }
    ensures shorter { length result.1.now < length text.now }
{
    let (line, rest) = first_line_with_return(text);
    (without_return(line), rest)
}
