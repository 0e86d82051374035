//! The rows of a table that are out of date.
ghost use Rattle.std.specs.Prelude.{ℕ, ◌≡◌, ◌<◌, true, false, [], slice_index_or};
ghost use Rattle.te_snapshot.specs.Pages.{is_marked, is_page_marked};

use te_base::LinkNumber;

/// Which rows of a table are out of date, and which pages have such a row. All pages from the 64th on count as out of
/// date.
#[derive(Clone, Copy, Debug)]
pub struct Marks {
    pages: [bool; 64],
    /// The rows of a page that isn't marked mean nothing.
    rows: [[bool; 64]; 64],
}

impl Marks {
    /// Marks each row.
    pub fn all() -> Marks
        ensures { (l : ℕ) → is_marked result l ≡ true }
    {
        Marks {
            pages: [true; 64],
            rows: [[true; 64]; 64],
        }
    }

    /// Marks the row of a link, and its page.
    pub fn mark(&mut self, link: LinkNumber)
        ensures marked { is_marked self.new link ≡ true }
        ensures kept { (l : ℕ) → is_marked self.old l ≡ true → is_marked self.new l ≡ true }
    {
        let page = link / 64;
        if page < 64 {
            if !self.pages[page] {
                self.pages[page] = true;
                self.rows[page] = [false; 64];
            }
            self.rows[page][link % 64] = true;
        }
    }

    /// Clears the marks of 4,096 links.
    pub fn clear(&mut self)
        ensures { (l : ℕ) → l < 4096 → is_marked self.new l ≡ false }
    {
        self.pages = [false; 64];
    }

    /// Tests whether the page at this place is marked.
    pub(crate) fn has(&self, page: usize) -> bool
        ensures { result ≡ is_page_marked self.now page }
    {
        match self.pages.get(page) {
            Some(marked) => *marked,
            None => true,
        }
    }

    /// Lends the marks of the rows of a page.
    pub(crate) fn rows(&self, page: usize) -> &[bool; 64]
        requires { page < 64 }
        ensures { result.now ≡ slice_index_or self.now.rows page [] }
    {
        &self.rows[page]
    }
}
