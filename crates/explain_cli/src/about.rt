ghost use Rattle.std.specs.Prelude.{◌≡◌, map, option_map, string_bytes};
ghost use Rattle.explain_cli.specs.About.{help_text, text_asked, text_for};

// What `--help` prints.
fn help() -> &'static str
    ensures { result.now ≡ help_text }
{
    "usage: explain at [OPTION..] [--bytes ADDRESS:COUNT] IMAGE SCRIPT PATH[:EVENT]
       explain trace [OPTION..] IMAGE SCRIPT PATH FROM TO
       explain why [OPTION..] IMAGE SCRIPT

  at       a space right after one of its events, or at its end
  trace    a line for each event of a space, from one number to another
  why      why spaces stopped or conflict, and who changed what

  --limit N        events that each space may take (1000000)
  --source FILE    names addresses by a source of det asm, or by an executable
  --json           writes the lines as JSON
  -h, --help       prints this text
  --version        prints the version
"
}

// The text that a word asks for, if it asks for one.
fn text_for(word: &str) -> Option<&'static str>
    ensures { option_map (λ s. s.now) result ≡ text_for word.now }
{
    match word {
        "-h" | "--help" => Some(help()),
        "--version" => Some("explain 0.1.0\n"),
        _ => None,
    }
}

/// The text that the words of a command line ask for about the program itself: the last word is `-h`, `--help` or
/// `--version`. The first word is the program's name, and asks for none.
pub(crate) fn text_asked(words: &[String]) -> Option<&'static str>
    ensures { option_map (λ s. s.now) result ≡ text_asked (map string_bytes words.now) }
{
    let (_, rest) = words.split_first()?;
    text_for(rest.last()?)
}
