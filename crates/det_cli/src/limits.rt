/// The most bytes of an image file.
pub(crate) const IMAGE_ROOM: u64 = 16_777_216;

/// The most bytes of a script.
pub(crate) const SCRIPT_ROOM: u64 = 1_048_576;

/// The most bytes of a schedule.
pub(crate) const SCHEDULE_ROOM: u64 = 1_048_576;

/// The most bytes of a source.
pub(crate) const SOURCE_ROOM: u64 = 1_048_576;

/// How many events each space that can go on may take in a round: as many as one takes on demand before it is asked again. What it is does not show;
/// it is long beside what it costs to start a round's threads.
pub(crate) const QUANTUM: u32 = 1 << 20;

/// How many events each space of a generated image may take.
pub(crate) const BENCH_FUEL: u32 = 1_000_000;
