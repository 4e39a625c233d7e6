use page_marks::PageMarks;
use page_tree::TreeRef;
use std::alloc::Global;

/// The pages of a memory: their permissions and bytes, and which are dirty.
#[derive(Drop)]
pub struct PageTable {
    // The permission of each page, and its bytes where any are kept; the bytes of other pages are 0.
    pub pages: TreeRef,
    // The dirty pages are marked.
    pub dirty: PageMarks,
    pub alloc: Global,
}
