ghost use Rattle.std.specs.Prelude.{◌≡◌, ◌+◌, ◌-◌, ◌<◌, ◌≤◌, ℕ, IsTrue};
ghost use Rattle.memory_model.specs.Sizes.{pages};
ghost use Rattle.node_parcel.specs.OneNumber.{HasPage, HaveOneNumber, ShareNumber};

use space_mem::Pages;

/// Pages in a row of a memory, each with the bytes of the resident page behind that of the page before, from `number` on.
#[derive(Clone, Copy)]
pub(crate) struct Span {
    pub pages: Pages,
    pub number: u32,
}

impl Span {
    // The page behind the last one.
    fn end(&self) -> u32
        ensures end { result ≡ self.now.pages.first + self.now.pages.count }
        ensures within { result ≤ pages }
    {
        self.pages.first + self.pages.count
    }

    // Whether a page is among them.
    fn has_page(&self, page: u32) -> bool
        ensures { IsTrue result → HasPage self.now page }
    {
        self.pages.first <= page && page < self.end()
    }

    // The number of the resident page whose bytes a page has.
    fn number_of(&self, page: u32) -> u64
        requires { HasPage self.now page }
        ensures { result ≡ self.now.number + (page - self.now.pages.first) }
    {
        u64::from(self.number) + u64::from(page - self.pages.first)
    }

    // Whether a page is among the pages of both, and has one number.
    fn has_one_number(&self, other: &Span, page: u32) -> bool
        ensures { IsTrue result → HaveOneNumber self.now other.now page }
    {
        self.has_page(page) && other.has_page(page) && self.number_of(page) == other.number_of(page)
    }

    // Where the pages from one on end that have one number here and there; this page, where it has not.
    fn same_end(&self, other: &Span, page: u32) -> u32
        requires { page ≤ pages }
        ensures above { page ≤ result }
        ensures below { result ≤ pages }
        ensures same { (q : ℕ) → page ≤ q → q < result → HaveOneNumber self.now other.now q }
    {
        if self.has_one_number(other, page) {
            let end = self.end();
            let other_end = other.end();
            return end.min(other_end);
        }
        page
    }
}

/// The place of the first span, from one on, that does not end before a page.
pub(crate) fn past(spans: &[Span], from: usize, page: u32) -> usize
    ensures { from ≤ result }
{
    for at in from..spans.len() {
        if page < spans[at].end() {
            return at;
        }
    }
    from.max(spans.len())
}

/// Where the pages from one on end that have one number in the spans at these places; this page, where it has not.
pub(crate) fn same_end(ours: &[Span], our: usize, theirs: &[Span], their: usize, page: u32) -> u32
    requires { page ≤ pages }
    ensures above { page ≤ result }
    ensures below { result ≤ pages }
    ensures same { (q : ℕ) → page ≤ q → q < result → ShareNumber ours.now theirs.now q }
{
    match (ours.get(our), theirs.get(their)) {
        (Some(ours), Some(theirs)) => ours.same_end(theirs, page),
        _ => page,
    }
}
