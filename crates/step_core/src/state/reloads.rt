//! Links that get other values.
ghost use Rattle.std.specs.Prelude.{◌≡◌, ◌<◌, ◌^◌};
ghost use Rattle.step_core.specs.Reloads.{reload_step};

use super::Tables;
use crate::event::Reply;
use link_reload::LinkReload;

impl Tables {
    /// Gives links other values. No path changes. A list that names a link that doesn't exist changes nothing.
    /// Allocates nothing.
    pub(super) fn reload(&mut self, entries: &[LinkReload]) -> Reply
        requires { self.old.changes < 2 ^ 62 }
        ensures reply { result ≡ (reload_step self.old entries.now).reply }
        ensures state { self.new ≡ (reload_step self.old entries.now).state }
    {
        match self.network.reload(entries, &mut self.changes) {
            Ok(()) => Reply::Done,
            Err(why) => Reply::Refused(why),
        }
    }
}
