// What a walk finds. It stands apart from `fewest`, since a crate module may not have two names that differ only in case.

// Of a walk that came to its end: the fewest groups, the nodes entered, the plain walk's complete graphs, and the clique of the starting graph.
#[derive(Clone, Copy)]
pub struct Fewest {
    pub k: usize,
    pub nodes: u64,
    pub leaves: u64,
    pub clique: u64,
}
