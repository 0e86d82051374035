//! What a reload does to the network, to the book and to the count of changes.
ghost use Rattle.std.specs.Prelude.{◌≡◌, ◌<◌, ◌+◌, ◌^◌, Some, None, true, List, OnOk, OnErr, IfErr, length, nat_lt};
ghost use Rattle.std.specs.List.{list_all};
ghost use Rattle.lsp_base.specs.declared.path.Path.{Path};
ghost use Rattle.te_base.specs.Values.{with_link_values};
ghost use Rattle.bandwidth_book.specs.Books.{StandsFor};
ghost use Rattle.link_reload.specs.Reloads.{IsBookOf, must_have_links, with_entries};

use crate::entry::LinkReload;
use bandwidth_book::Book;
use lsp_base::Why;
use te_base::{LinkNumber, LinkValues, TeBase};

/// Tests whether each entry's link is below the count.
fn are_links(entries: &[LinkReload], count: usize) -> bool
    ensures { result ≡ list_all (λ e. nat_lt e.link count) entries.now }
{
    entries.iter().all(|entry| entry.link < count)
}

/// Refuses a list that names a link that doesn't exist.
fn check_links(te: &TeBase, entries: &[LinkReload]) -> Result<(), Why>
    ensures taken { OnOk result (must_have_links te.now entries.now ≡ None) }
    ensures refused { IfErr result (λ why. must_have_links te.now entries.now ≡ Some why) }
{
    if are_links(entries, te.link_count()) {
        Ok(())
    } else {
        Err(Why::UnknownLink)
    }
}

/// Sets the values of a link, in the TED and in the book.
fn set_values(te: &mut TeBase, book: &mut Book, link: LinkNumber, values: LinkValues)
    requires there { link < length te.old.links }
    requires network { IsBookOf te.old book.old }
    ensures values { te.new ≡ with_link_values te.old link values }
    ensures network { IsBookOf te.new book.new }
    ensures stands { (paths : List Path) → StandsFor book.old paths → StandsFor book.new paths }
{
    te.set_values(link, values);
    book.set_values(link, values);
}

/// Sets the values of existing links, one entry after the other.
fn set_links(te: &mut TeBase, book: &mut Book, entries: &[LinkReload])
    requires there { list_all (λ e. nat_lt e.link (length te.old.links)) entries.now ≡ true }
    requires network { IsBookOf te.old book.old }
    ensures values { te.new ≡ with_entries te.old entries.now }
    ensures network { IsBookOf te.new book.new }
    ensures stands { (paths : List Path) → StandsFor book.old paths → StandsFor book.new paths }
{
    for entry in entries {
        set_values(te, book, entry.link, entry.values);
    }
}

/// Gives links other values, in the TED and in the book, and counts the reload. A list that names a link that doesn't
/// exist is refused, and changes nothing. Allocates nothing.
pub fn reload(
    te: &mut TeBase,
    book: &mut Book,
    entries: &[LinkReload],
    changes: &mut u64,
) -> Result<(), Why>
    requires network { IsBookOf te.old book.old }
    requires changes { changes.old < 2 ^ 62 }
    ensures taken { OnOk result (must_have_links te.old entries.now ≡ None) }
    ensures refused { IfErr result (λ why. must_have_links te.old entries.now ≡ Some why) }
    ensures values { OnOk result (te.new ≡ with_entries te.old entries.now) }
    ensures counted { OnOk result (changes.new ≡ changes.old + 1) }
    ensures network { IsBookOf te.new book.new }
    ensures stands { (paths : List Path) → StandsFor book.old paths → StandsFor book.new paths }
    ensures same_values { OnErr result (te.new ≡ te.old) }
    ensures same_book { OnErr result (book.new ≡ book.old) }
    ensures same_count { OnErr result (changes.new ≡ changes.old) }
{
    check_links(te, entries)?;
    set_links(te, book, entries);
    *changes += 1;
    Ok(())
}
