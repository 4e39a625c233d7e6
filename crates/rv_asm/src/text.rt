ghost use Rattle.std.specs.Prelude.{◌≡◌, ◌<◌, ◌∷◌, length, option_map};
ghost use Rattle.rv_asm.specs.Gives.{GivesExactly};
ghost use Rattle.source_model.specs.Bytes as bytes;
ghost use Rattle.source_model.specs.Text as text_model;

use source_model::{AsmErrorKind, Class};

fn is_blank(byte: u8) -> bool
    ensures { result ≡ bytes.is_blank byte }
{
    byte == b' ' || byte == b'\t'
}

fn is_letter(byte: u8) -> bool
    ensures { result ≡ bytes.is_letter byte }
{
    byte.is_ascii_uppercase() || byte.is_ascii_lowercase() || byte == b'_'
}

fn contains(class: Class, byte: u8) -> bool
    ensures { result ≡ text_model.contains class byte }
{
    match class {
        Class::LineFeed => byte == b'\n',
        Class::Comment => byte == b';' || byte == b'#',
        Class::Blank => is_blank(byte),
        Class::Solid => !is_blank(byte),
        Class::Outside => !(is_letter(byte) || byte.is_ascii_digit()),
        Class::WordEnd => is_blank(byte) || byte == b',' || byte == b'(' || byte == b')',
        Class::Foreign => byte > 127,
    }
}

/// The text before the first byte of the class, and the text from it on.
pub(crate) fn cut(class: Class, text: &[u8]) -> (&[u8], &[u8])
    ensures before { result.0.now ≡ text_model.before class text.now }
    ensures from { result.1.now ≡ text_model.from class text.now }
{
    for (at, byte) in text.iter().enumerate() {
        if contains(class, *byte) {
            return text.split_at(at);
        }
    }
    text.split_at(text.len())
}

/// The text from its first byte that is no blank on.
pub(crate) fn trim(text: &[u8]) -> &[u8]
    ensures { result.now ≡ text_model.from Class.Solid text.now }
{
    cut(Class::Solid, text).1
}

pub(crate) fn begins(mark: u8, text: &[u8]) -> bool
    ensures { result ≡ bytes.begins mark text.now }
{
    match text {
        [] => false,
        [first, ..] => *first == mark,
    }
}

#[tactic(auto, unfolding(source_model::specs::Bytes::same_text))]
pub(crate) fn is_text(word: &[u8], wanted: &str) -> bool
    ensures { result ≡ bytes.same_text word.now wanted.now }
{
    word == wanted.as_bytes()
}

/// The line at the front of a text that is not empty, and what follows its line feed.
pub(crate) fn first_line(text: &[u8]) -> (&[u8], &[u8])
    requires { 0 < length text.now }
    ensures lines { bytes.lines_of text.now ≡ result.0.now ∷ bytes.lines_of result.1.now }
    ensures shorter { length result.1.now < length text.now }
{
    let (line, rest) = cut(Class::LineFeed, text);
    if rest.is_empty() {
        return (line, rest);
    }
    (line, rest.split_at(1).1)
}

/// A line without its comment and the carriage return at its end.
#[tactic(auto, unfolding(source_model::specs::Text::code_of))]
pub(crate) fn code_of(line: &[u8]) -> &[u8]
    ensures { result.now ≡ text_model.code_of line.now }
{
    cut(Class::Comment, without_return(line)).0
}

#[tactic(auto, unfolding(source_model::specs::Bytes::without_return))]
fn without_return(line: &[u8]) -> &[u8]
    ensures { result.now ≡ bytes.without_return line.now }
{
    let count = line.len();
    if count > 0 && line[count - 1] == b'\r' {
        &line[..count - 1]
    } else {
        line
    }
}

fn has_first_letter(text: &[u8]) -> bool
    ensures { result ≡ text_model.has_first_letter text.now }
{
    match text {
        [] => false,
        [first, ..] => is_letter(*first),
    }
}

/// Whether a label's name is all of a word.
#[tactic(auto, unfolding(source_model::specs::Text::is_label))]
pub(crate) fn is_label(word: &[u8]) -> bool
    ensures { result ≡ text_model.is_label word.now }
{
    has_first_letter(word) && cut(Class::Outside, word).1.is_empty()
}

/// The label that a text begins with, and what follows its colon.
#[tactic(auto, unfolding(source_model::specs::Text::label_at))]
pub(crate) fn label_at(text: &[u8]) -> Option<(&[u8], &[u8])>
    ensures { option_map (λ x. (x.0.now, x.1.now)) result ≡ text_model.label_at text.now }
{
    let (name, rest) = cut(Class::Outside, trim(text));
    match trim(rest) {
        [b':', after @ ..] if has_first_letter(name) => Some((name, after)),
        _ => None,
    }
}

#[tactic(auto, unfolding(source_model::specs::Text::word_at))]
fn word_at(text: &[u8]) -> Result<(&[u8], &[u8]), AsmErrorKind>
    ensures { GivesExactly (λ x. (x.0.now, x.1.now)) result (text_model.word_at text.now) }
{
    let (word, rest) = cut(Class::WordEnd, trim(text));
    if word.is_empty() {
        return Err(AsmErrorKind::Operand);
    }
    Ok((word, trim(rest)))
}

#[tactic(auto, unfolding(source_model::specs::Text::mark_at))]
fn mark_at(mark: u8, text: &[u8]) -> Result<&[u8], AsmErrorKind>
    ensures { GivesExactly (λ x. x.now) result (text_model.mark_at mark text.now) }
{
    match text {
        [first, rest @ ..] if *first == mark => Ok(rest),
        _ => Err(AsmErrorKind::Operand),
    }
}

/// The only word of a text.
#[tactic(auto, unfolding(source_model::specs::Text::one_word))]
pub(crate) fn one_word(text: &[u8]) -> Result<&[u8], AsmErrorKind>
    ensures { GivesExactly (λ x. x.now) result (text_model.one_word text.now) }
{
    let (word, rest) = word_at(text)?;
    if !rest.is_empty() {
        return Err(AsmErrorKind::Operand);
    }
    Ok(word)
}

/// The two words of a text, with blanks between them.
#[tactic(auto, unfolding(source_model::specs::Text::two_apart))]
pub(crate) fn two_apart(text: &[u8]) -> Result<(&[u8], &[u8]), AsmErrorKind>
    ensures { GivesExactly (λ x. (x.0.now, x.1.now)) result (text_model.two_apart text.now) }
{
    let (first, rest) = word_at(text)?;
    let second = one_word(rest)?;
    Ok((first, second))
}

/// The two words of a text, with a comma between them.
#[tactic(auto, unfolding(source_model::specs::Text::two_words))]
pub(crate) fn two_words(text: &[u8]) -> Result<(&[u8], &[u8]), AsmErrorKind>
    ensures { GivesExactly (λ x. (x.0.now, x.1.now)) result (text_model.two_words text.now) }
{
    let (first, rest) = word_at(text)?;
    let rest = mark_at(b',', rest)?;
    let second = one_word(rest)?;
    Ok((first, second))
}

/// The three words of a text, with commas between them.
#[tactic(auto, unfolding(source_model::specs::Text::three_words))]
pub(crate) fn three_words(text: &[u8]) -> Result<(&[u8], &[u8], &[u8]), AsmErrorKind>
    ensures { GivesExactly (λ x. (x.0.now, x.1.now, x.2.now)) result (text_model.three_words text.now) }
{
    let (first, rest) = word_at(text)?;
    let rest = mark_at(b',', rest)?;
    let (second, third) = two_words(rest)?;
    Ok((first, second, third))
}

#[tactic(auto, unfolding(source_model::specs::Text::in_parentheses))]
fn in_parentheses(text: &[u8]) -> Result<&[u8], AsmErrorKind>
    ensures { GivesExactly (λ x. x.now) result (text_model.in_parentheses text.now) }
{
    let rest = mark_at(b'(', text)?;
    let (word, rest) = word_at(rest)?;
    let rest = mark_at(b')', rest)?;
    if !trim(rest).is_empty() {
        return Err(AsmErrorKind::Operand);
    }
    Ok(word)
}

/// A word, and after a comma a word and one in parentheses.
#[tactic(auto, unfolding(source_model::specs::Text::word_and_address))]
pub(crate) fn word_and_address(text: &[u8]) -> Result<(&[u8], &[u8], &[u8]), AsmErrorKind>
    ensures { GivesExactly (λ x. (x.0.now, x.1.now, x.2.now)) result (text_model.word_and_address text.now) }
{
    let (first, rest) = word_at(text)?;
    let rest = mark_at(b',', rest)?;
    let (second, rest) = word_at(rest)?;
    let third = in_parentheses(rest)?;
    Ok((first, second, third))
}
