ghost use Rattle.std.specs.Prelude.{◌≡◌, ◌==◌, option_map};
ghost use Rattle.std.specs.List.{slice_split};
ghost use Rattle.call_model.specs.Limits.{greatest_child};
ghost use Rattle.schedule_model.specs.Reading as reading;
ghost use Rattle.schedule_model.specs.Schedule as grammar;
ghost use Rattle.text_lines.specs.Reading as numbers;
ghost use Rattle.det_core.specs.View.{item_view};

use space_tree::Path;

// What a line of a schedule says.
pub(crate) enum Item {
    /// Nothing.
    Nothing,
    /// The event at this path comes next.
    Next(Path),
}

// The most digits of a number.
const MOST_DIGITS: usize = 5;

// The number that 1 to 5 decimal digits write, where a child may have it.
fn number_of(digits: &[u8]) -> Option<u16>
    ensures { result ≡ numbers.number_of grammar.most_digits greatest_child digits.now }
{
    let number = text_lines::number_of(digits, MOST_DIGITS, u32::from(u16::MAX))?;
    Some(number as u16)
}

// The path of numbers with `/` between them, at most eight.
fn path_of_numbers(text: &[u8]) -> Option<Path>
    ensures { option_map (λ path. path.items) result ≡ reading.and_short (reading.numbers_of (slice_split (λ b. b == 47) text.now)) }
{
    let mut path = Path::new();
    for digits in text.split(|byte| *byte == b'/') {
        let number = number_of(digits)?;
        if path.is_full() {
            return None;
        }
        path.push(number);
    }
    Some(path)
}

// The path behind the `/` at a line's front.
#[tactic(auto, unfolding(schedule_model::specs::Reading::path_of))]
fn path_of(text: &[u8]) -> Option<Path>
    ensures { option_map (λ path. path.items) result ≡ reading.path_of text.now }
{
    if text.is_empty() {
        Some(Path::new())
    } else {
        path_of_numbers(text)
    }
}

// What a line says, None where it is outside the grammar.
#[tactic(auto, unfolding(schedule_model::specs::Reading::item_of))]
pub(crate) fn item_of(line: &[u8]) -> Option<Item>
    ensures { option_map item_view result ≡ reading.item_of line.now }
{
    match line {
        [] | [b'#', ..] => Some(Item::Nothing),
        [b'/', text @ ..] => Some(Item::Next(path_of(text)?)),
        _ => None,
    }
}
