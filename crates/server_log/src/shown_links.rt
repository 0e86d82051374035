//! The links of paths, as log lines show them.
ghost use Rattle.std.specs.Prelude.{◌≡◌, Some, flat_map, take};
ghost use Rattle.server_log.specs.Paths.{front_of, link_after, links_mark, links_text, more_links};

use std::fmt;
use te_base::LinkNumber;

/// The most links that a line shows.
const MOST: usize = 32;

/// The numbers of a path's links, or of its first 32.
#[derive(Clone, Copy, PartialEq, Eq, Debug)]
pub struct ShownLinks {
    numbers: [LinkNumber; MOST],
    count: usize,
    is_cut: bool,
}

impl ShownLinks {
    /// Takes the links to show from these.
    pub fn new(links: &[LinkNumber]) -> ShownLinks
        ensures { result ≡ front_of links.now }
    {
        let count = links.len().min(MOST);
        let mut numbers = [0; MOST];
        numbers[..count].copy_from_slice(&links[..count]);
        ShownLinks {
            numbers,
            count,
            is_cut: count < links.len(),
        }
    }

    /// Lends the links that are shown.
    fn shown(&self) -> &[LinkNumber]
        ensures { result.now ≡ take self.now.count self.now.numbers }
    {
        &self.numbers[..self.count.min(MOST)]
    }
}

/// Returns what follows links if there are more of them.
fn links_mark(is_cut: bool) -> &'static str
    ensures { result.now ≡ links_mark is_cut }
{
    if is_cut { ",.." } else { "" }
}

/// Links after the first, each after a comma.
#[derive(Clone, Copy)]
struct MoreLinks<'a>(&'a [LinkNumber]);

impl<'a> fmt::Display for MoreLinks<'a> {
    ghost output = { λ more. Some (more_links more.0.now) };

    fn fmt<W: fmt::Write>(&self, f: &mut fmt::Formatter<W>) -> fmt::Result {
        let links = self.0;
        for link in links {
            write!(f, ",{link}")?;
        }
        Ok(())
    }
}

impl fmt::Display for ShownLinks {
    ghost output = { λ links. Some (links_text links) };

    fn fmt<W: fmt::Write>(&self, f: &mut fmt::Formatter<W>) -> fmt::Result {
        match self.shown() {
            [] => f.write_str("-"),
            [first, rest @ ..] => {
                let (more, mark) = (MoreLinks(rest), links_mark(self.is_cut));
                write!(f, "{first}{more}{mark}")
            }
        }
    }
}
