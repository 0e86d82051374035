//! Links that get other values (metrics, colours, reservable bandwidth) while there are paths.
ghost use Rattle.std.specs.Prelude.{◌≡◌, ◌<◌, ◌-ℤ◌, pos, None, ℕ, List, length};
ghost use Rattle.lsp_base.specs.Shares.{reservable, unreserved};
ghost use Rattle.lsp_base.specs.declared.effect.Change.{Change};
ghost use Rattle.lsp_base.specs.declared.path.Path.{Path};
ghost use Rattle.lsp_base.specs.declared.tunnel.Tunnel.{Tunnel};
ghost use Rattle.te_base.specs.Values.{set_values};
ghost use Rattle.te_snapshot.specs.Network.{with_links};
ghost use Rattle.bandwidth_book.specs.Books.{HasNoEmptyEntry, IsReady, StandsFor, held_on, kept_by, links_of, network_of, pending_on};

use crate::book::Book;
use te_base::{LinkNumber, LinkValues, set_values};

impl Book {
    /// Gives a link other values: what is left of it moves by the difference of the reservable bandwidths. Allocates
    /// nothing. The last snapshot is then out of date; one that somebody holds stays as it is.
    pub fn set_values(&mut self, link: LinkNumber, values: LinkValues)
        requires { link < length (links_of self.old) }
        ensures network { network_of self.new ≡ with_links (network_of self.old) (set_values (links_of self.old) link values) }
        ensures moves { (paths : List Path) (p : ℕ) → unreserved (links_of self.new) paths link p -ℤ unreserved (links_of self.old) paths link p
            ≡ pos values.reservable -ℤ pos (reservable (links_of self.old) link) }
        ensures others { (paths : List Path) (l p : ℕ) → (link ≡ l → ⊥) → unreserved (links_of self.new) paths l p ≡ unreserved (links_of self.old) paths l p }
        ensures kept { kept_by self.new ≡ None }
        ensures held { (l : ℕ) (t : Tunnel) → held_on self.new l t ≡ held_on self.old l t }
        ensures stands { (paths : List Path) → StandsFor self.old paths → StandsFor self.new paths }
        ensures ready { (change : Change) → IsReady self.old change → IsReady self.new change }
        ensures pending { (l : ℕ) (t : Tunnel) → pending_on self.new l t ≡ pending_on self.old l t }
        ensures tidy { HasNoEmptyEntry self.old → HasNoEmptyEntry self.new }
    {
        self.is_kept = false;
        self.is_current = false;
        self.marks.mark(link);
        set_values(&mut self.links, link, values);
    }
}
