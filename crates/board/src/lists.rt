use crate::runs::Runs;
use node_store::Nodes;
use path_set::PathSet;
use space_step::DecodeCache;
use space_tree::Path;

/// Where a board looks for the next job and the next call, what each node keeps, and with what a space goes on in its place. `run` and `calls` may have more than they have to, since each path is looked at before it is used.
#[derive(Drop)]
pub(crate) struct Lists {
    /// The paths of the jobs that are out, and no others.
    pub(crate) at_work: PathSet,
    /// All paths of spaces that have local events, by the nodes on which they stand, but for those that are out and the news.
    pub(crate) run: Runs,
    /// All paths of calls that may meet their children, but for those on the way to the news.
    pub(crate) calls: PathSet,
    /// The paths of the jobs that were handed in since the lists were last brought up to date.
    pub(crate) news: Vec<Path>,
    /// The pages that each node keeps.
    pub(crate) pages: Nodes,
    /// The decoded instructions of the space that went on in its place last.
    pub(crate) cache: DecodeCache,
}
