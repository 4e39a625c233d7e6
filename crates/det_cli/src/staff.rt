ghost use Rattle.std.specs.Prelude.{◌≤◌, ◌<◌};

/// The workers of a pool or in seats, 1 to 64, the nodes that they serve, 1 to 64, and the seed of the links between these, where there are links.
#[derive(Clone, Copy)]
pub(crate) struct Staff {
    pub(crate) workers: usize,
    pub(crate) nodes: u32,
    pub(crate) link: Option<u32>,
    pub(crate) ghost some: { (0 < workers) × (workers < 65) },
    pub(crate) ghost placed: { (1 ≤ nodes) × (nodes ≤ 64) },
}

/// So many workers, over so many nodes, with links between them or without.
pub(crate) fn staff_of(workers: u32, nodes: u32, link: Option<u32>) -> Staff
    requires { (1 ≤ workers) × (workers ≤ 64) × (1 ≤ nodes) × (nodes ≤ 64) }
{
    Staff {
        workers: workers as usize,
        nodes,
        link,
    }
}
