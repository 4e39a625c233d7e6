ghost use Rattle.std.specs.Prelude.{◌≡◌, length};

use space_step::Run;
use space_tree::Path;

/// What became of a job: its slot, ticket and path, and the local events that its space had.
#[derive(Drop)]
pub struct Done {
    pub slot: usize,
    pub ticket: u64,
    pub path: Path,
    pub run: Run,
    pub ghost deep: { run.depth ≡ length path.items },
}
