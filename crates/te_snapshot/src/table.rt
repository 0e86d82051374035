//! What is unreserved on each link, in pages that tables share.
ghost use Rattle.std.specs.Prelude.{ℕ, ◌≡◌, ◌<◌, ◌≤◌, ◌+◌, ◌*◌, ◌^◌, if◌then◌else◌, IfOk, length, option_map, slice_get, slice_index, slice_index_or, true, []};
ghost use Rattle.std.specs.Arc.{arc_value};
ghost use Rattle.lsp_base.specs.Shares.{reservable};
ghost use Rattle.te_snapshot.specs.Pages.{is_marked, is_row_marked, left_beside, left_of, row, row_at};
ghost use Rattle.te_snapshot.specs.Room.{left};

use crate::marks::Marks;
use pcep_word::Priority;
use std::alloc::{AllocError, Global};
use std::marker::Model;
use std::sync::Arc;
use te_base::{Link, LinkNumber};

/// What is unreserved on 64 consecutive links, by priority.
type Page = [[i64; 8]; 64];

/// What is unreserved on each link, by priority, in pages that tables share if they agree in them. It never changes. A
/// contract sees the list of rows, eight numbers each.
#[derive(Drop)]
pub struct Table {
    links: usize,
    pages: Vec<Arc<Page, Global>>,
}

impl Model for Table {
    ghost use Rattle.std.specs.Prelude.{List, ℤ};
    ghost use Rattle.te_snapshot.specs.Pages.{rows_of, IsPaged};

    ghost Value = { List (List ℤ) };

    ghost view = { λ t. rows_of t.links t.pages.items };

    ghost invariant = { IsPaged };
}

/// Subtracts each of eight sums from an amount.
fn left_of(amount: u64, sums: &[u64; 8]) -> [i64; 8]
    requires amount { amount < 2 ^ 63 }
    requires sums { (p : ℕ) → p < 8 → slice_index sums.now p < 2 ^ 63 }
    ensures { result ≡ left_of amount sums.now }
{
    let mut left = [0i64; 8];
    for priority in 0..8usize {
        left[priority] = amount as i64 - sums[priority] as i64;
    }
    left
}

/// Computes what the sums of a link leave of it.
fn left_beside(links: &[Link], sums: &[[u64; 8]], link: LinkNumber) -> [i64; 8]
    requires link { link < length links.now }
    requires same { length sums.now ≡ length links.now }
    requires amounts { (l : ℕ) → reservable links.now l < 2 ^ 48 }
    requires sums { (l p : ℕ) → l < length sums.now → p < 8 → slice_index (slice_index_or sums.now l []) p < 2 ^ 63 }
    ensures { result ≡ left_beside links.now sums.now link }
{
    left_of(links[link].reservable, &sums[link])
}

/// Makes the page of the links from 64 times its place on. The marked rows are computed from the sums, the others
/// copied from the old page.
fn page_beside(
    standing: &Page,
    marked: &[bool; 64],
    links: &[Link],
    sums: &[[u64; 8]],
    page: usize,
) -> Page
    requires page { page < 64 }
    requires same { length sums.now ≡ length links.now }
    requires amounts { (l : ℕ) → reservable links.now l < 2 ^ 48 }
    requires sums { (l p : ℕ) → l < length sums.now → p < 8 → slice_index (slice_index_or sums.now l []) p < 2 ^ 63 }
    ensures { (place : ℕ) → place < 64 → 64 * page + place < length links.now
        → row result place ≡ (if slice_index_or marked.now place true then left_beside links.now sums.now (64 * page + place) else row standing.now place) }
{
    let mut rows = *standing;
    for place in 0..64usize {
        let link = 64 * page + place;
        if marked[place] && link < links.len() {
            rows[place] = left_beside(links, sums, link);
        }
    }
    rows
}

/// Makes the page of the rows from 64 times its place on.
fn page_of(table: &[[i64; 8]], page: usize) -> Page
    requires page { page ≤ 64 }
    ensures { (place : ℕ) → place < 64 → 64 * page + place < length table.now
        → row result place ≡ row table.now (64 * page + place) }
{
    let mut rows = [[0i64; 8]; 64];
    for place in 0..64usize {
        let link = 64 * page + place;
        if link < table.len() {
            rows[place] = table[link];
        }
    }
    rows
}

/// Makes the page at this place: if it has marked rows, with those computed from the sums, else the old page, shared.
fn page_now(
    alloc: Global,
    standing: &Arc<Page, Global>,
    marks: &Marks,
    links: &[Link],
    sums: &[[u64; 8]],
    page: usize,
) -> Result<Arc<Page, Global>, AllocError>
    requires page { page < 64 }
    requires same { length sums.now ≡ length links.now }
    requires amounts { (l : ℕ) → reservable links.now l < 2 ^ 48 }
    requires sums { (l p : ℕ) → l < length sums.now → p < 8 → slice_index (slice_index_or sums.now l []) p < 2 ^ 63 }
    ensures { IfOk result (λ now. (place : ℕ) → place < 64 → 64 * page + place < length links.now
        → row (arc_value now) place ≡ (if is_row_marked marks.now page place then left_beside links.now sums.now (64 * page + place) else row (arc_value standing.now) place)) }
{
    if marks.has(page) {
        let now = page_beside(standing, marks.rows(page), links, sums, page);
        return Ok(Arc::new(alloc, now)?);
    }
    Arc::try_clone(standing)
}

/// Makes the pages of these rows.
fn pages_of(alloc: Global, table: &[[i64; 8]]) -> Result<Vec<Arc<Page, Global>>, AllocError>
    requires { length table.now ≤ 4096 }
    ensures whole { IfOk result (λ pages. length table.now ≤ 64 * length pages.items) }
    ensures few { IfOk result (λ pages. length pages.items ≤ 64) }
    ensures rows { IfOk result (λ pages. (l : ℕ) → l < length table.now → row_at pages.items l ≡ row table.now l) }
{
    let count = table.len().div_ceil(64);
    let mut pages = Vec::with_capacity(alloc, count)?;
    for page in 0..count {
        pages.push(Arc::new(alloc, page_of(table, page))?)?;
    }
    Ok(pages)
}

/// Makes the pages anew, with the marked rows computed from the sums.
fn pages_now(
    alloc: Global,
    standing: &[Arc<Page, Global>],
    marks: &Marks,
    links: &[Link],
    sums: &[[u64; 8]],
) -> Result<Vec<Arc<Page, Global>>, AllocError>
    requires few { length standing.now ≤ 64 }
    requires same { length sums.now ≡ length links.now }
    requires amounts { (l : ℕ) → reservable links.now l < 2 ^ 48 }
    requires sums { (l p : ℕ) → l < length sums.now → p < 8 → slice_index (slice_index_or sums.now l []) p < 2 ^ 63 }
    ensures count { IfOk result (λ pages. length pages.items ≡ length standing.now) }
    ensures rows { IfOk result (λ pages. (l : ℕ) → l < length links.now → l < 64 * length standing.now
        → row_at pages.items l ≡ (if is_marked marks.now l then left_beside links.now sums.now l else row_at standing.now l)) }
{
    let mut pages = Vec::with_capacity(alloc, standing.len())?;
    for (page, stands) in standing.iter().enumerate() {
        pages.push(page_now(alloc, stands, marks, links, sums, page)?)?;
    }
    Ok(pages)
}

impl Table {
    /// Makes a table of these rows, in pages of its own.
    pub fn new(alloc: Global, rows: &[[i64; 8]]) -> Result<Table, AllocError>
        requires { length rows.now ≤ 4096 }
        ensures { IfOk result (λ t. t ≡ rows.now) }
    {
        let pages = pages_of(alloc, rows)?;
        Ok(Table {
            links: rows.len(),
            pages,
        })
    }

    /// Makes the table with what the sums leave of the links whose rows are marked. It shares all pages without a
    /// marked row.
    pub fn renewed(
        &self,
        alloc: Global,
        marks: &Marks,
        links: &[Link],
        sums: &[[u64; 8]],
    ) -> Result<Table, AllocError>
        requires links { length links.now ≡ length self.now }
        requires same { length sums.now ≡ length links.now }
        requires amounts { (l : ℕ) → reservable links.now l < 2 ^ 48 }
        requires sums { (l p : ℕ) → l < length sums.now → p < 8 → slice_index (slice_index_or sums.now l []) p < 2 ^ 63 }
        ensures count { IfOk result (λ t. length t ≡ length self.now) }
        ensures rows { IfOk result (λ t. (l : ℕ) → l < length self.now
            → row t l ≡ (if is_marked marks.now l then left_beside links.now sums.now l else row self.now l)) }
    {
        let pages = pages_now(alloc, &self.pages, marks, links, sums)?;
        Ok(Table {
            links: self.links,
            pages,
        })
    }

    /// Looks up what is left of a link at each priority: eight numbers, or None if there is no such link.
    #[inline(always)]
    pub fn get(&self, link: LinkNumber) -> Option<&[i64; 8]>
        ensures { option_map (λ r. r.now) result ≡ slice_get self.now link }
    {
        if link >= self.links {
            return None;
        }
        let page: &Page = &self.pages[link / 64];
        Some(&page[link % 64])
    }

    /// Looks up what is left of a link at a priority, or 0 if there is no such link.
    #[inline(always)]
    pub fn left(&self, link: LinkNumber, priority: Priority) -> i64
        ensures { result ≡ left self.now link priority }
    {
        match self.get(link) {
            Some(numbers) => numbers[priority.number() as usize],
            None => 0,
        }
    }
}
