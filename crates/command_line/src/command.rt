/// What a command line asks for. File names are the words as they are.
#[derive(Clone, Copy, Debug, PartialEq, Eq)]
pub enum Command<'a> {
    /// Runs an image on a script: the words `run` and `walk`.
    Run(Run<'a>),
    /// Makes the image of a source text.
    Asm {
        /// The source's file name.
        source: &'a str,
    },
    /// Makes a large image from a number, runs it, and sums up what became of it.
    Bench {
        /// In which order events happen: `--engine`.
        engine: Engine<'a>,
        /// The number: from 0 to 4,294,967,295.
        seed: u32,
    },
}

/// A run of an image on a script.
#[derive(Clone, Copy, Debug, PartialEq, Eq)]
pub struct Run<'a> {
    /// How many events each space may take: from 1 to 4,294,967,295, or 1,000,000 where `--limit` is not given.
    pub fuel: u32,
    /// Whether the report has a digest of each space's memory: `--digest`.
    pub digest: bool,
    /// In which order events happen: `--engine`, or the word `walk`.
    pub engine: Engine<'a>,
    /// The image's file name.
    pub image: &'a str,
    /// The script's file name.
    pub script: &'a str,
}

/// In which order the events of a tree happen, which does not change what comes of them.
#[derive(Clone, Copy, Debug, PartialEq, Eq)]
pub enum Engine<'a> {
    /// Each space runs when its parent waits for it: `--engine demand`, or no such option.
    Demand,
    /// All spaces that can go on run side by side, round by round: `--engine rounds`.
    Rounds,
    /// Workers in threads of their own take whichever space can go on, as they come: `--engine pool`.
    Pool {
        /// How many workers there are: from 1 to 64, or 4 where `--workers` is not given.
        workers: u32,
        /// How many nodes the workers serve: from 1 to 64, or 1 where `--nodes` is not given.
        nodes: u32,
        /// With which number the rows begin that decide what becomes of what goes between nodes: `--link`, from 0 to 4,294,967,295, or none, where all arrives.
        link: Option<u32>,
    },
    /// Workers in threads of their own take turns in the order of the tickets that they draw: `--engine seats`.
    Seats {
        /// How many workers there are: from 1 to 64, or 4 where `--workers` is not given.
        workers: u32,
        /// How many nodes the workers serve: from 1 to 64, or 1 where `--nodes` is not given.
        nodes: u32,
        /// With which number the rows begin that decide what becomes of what goes between nodes: `--link`, from 0 to 4,294,967,295, or none, where all arrives.
        link: Option<u32>,
    },
    /// First the events of a schedule, by the schedule's file name, and then whatever is left to run: the word `walk`.
    Schedule(&'a str),
}
