use space_tree::Path;

/// What a command line asks for: a question about the run of an image on a script. File names are the words as they are.
#[derive(Drop)]
pub struct Command<'a> {
    /// What is asked.
    pub question: Question,
    /// How many events each space may take: from 1 to 4,294,967,295, or 1,000,000 where `--limit` is not given.
    pub fuel: u32,
    /// Whether the answer is wanted as JSON: `--json`.
    pub json: bool,
    /// The image's file name.
    pub image: &'a str,
    /// The script's file name.
    pub script: &'a str,
    /// The name of the file that gives names to addresses, a source or an executable file: `--source`, or none.
    pub source: Option<&'a str>,
}

/// What is asked about a run.
#[derive(Drop)]
pub enum Question {
    /// What a space is at a moment: the word `at`.
    At {
        /// Which space, and when.
        moment: Moment,
        /// Which bytes of its memory are shown as well: `--bytes`, or none.
        bytes: Option<Bytes>,
    },
    /// What a space did at its own events: the word `trace`.
    Trace {
        /// The path of the space.
        path: Path,
        /// The number of the first event, from 1 on.
        from: u32,
        /// The number of the last event, from 1 on.
        to: u32,
    },
    /// Why spaces stopped as they did: the word `why`.
    Why,
}

/// A moment of the space at a path.
#[derive(Drop)]
pub struct Moment {
    /// The path: at most eight numbers of children, none for the root.
    pub path: Path,
    /// Just behind the own event of this number, counted from 1; or its end, where there is none.
    pub event: Option<u32>,
}

/// Bytes of a memory.
#[derive(Clone, Copy, Debug, PartialEq, Eq)]
pub struct Bytes {
    /// The address of the first one.
    pub address: u32,
    /// How many there are: 1 to 4,194,304.
    pub count: u32,
}
