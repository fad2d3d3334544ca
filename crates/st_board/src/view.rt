//! What a board shows of a version.
use bytes::Bytes;
use st_ptree::PTree;
use st_versioned::Root;

/// A root and a base that make the map of a version together.
#[derive(Drop)]
pub struct View {
    pub root: Root,
    pub base: PTree<Bytes>,
}
