//! What lists of paths do to the ledgers of the links, by tunnel.
ghost use Rattle.std.specs.Prelude.{◌≡◌, ◌<◌, ◌≤◌, ◌++◌, false, ℕ, [], List, length, IsOk, OnOk};
ghost use Rattle.lsp_base.specs.Lsps.{HasAll, without};
ghost use Rattle.lsp_base.specs.declared.path.Path.{Path};
ghost use Rattle.lsp_base.specs.declared.tunnel.Tunnel.{Tunnel};
ghost use Rattle.bandwidth_book.specs.Entries.{IsMoved};
ghost use Rattle.bandwidth_book.specs.Paths.{IsHeldBy, IsPromised, held_by};
ghost use Rattle.bandwidth_book.specs.Promises.{AreNoted};
ghost use Rattle.bandwidth_book.specs.Reservation.{promised_after, room_for, takes_memory, with_all, without_all};
ghost use Rattle.bandwidth_book.specs.Ledgers.{count, entry_at, held_at, promised_on};

use crate::drops::drop_paths;
use crate::ledgers::Ledgers;
use crate::reservation::{BookOp, held_of};
use lsp_base::Path;
use sequence::Sequence;
use std::alloc::{AllocError, Global};

/// Moves what the paths hold on each of their links, in order. Only a promise can fail, if memory runs out.
pub(crate) fn move_paths(
    alloc: Global,
    ledgers: &mut Ledgers,
    op: BookOp,
    paths: &[Path],
) -> Result<(), AllocError>
    requires room { (l : ℕ) (t : Tunnel) → l < count ledgers.old → room_for op (length (held_by l t paths.now)) ≤ promised_on ledgers.old l t }
    ensures count { count ledgers.new ≡ count ledgers.old }
    ensures moved { (l : ℕ) (t : Tunnel) → l < count ledgers.old → IsMoved op (held_by l t paths.now) (entry_at ledgers.old l t) (entry_at ledgers.new l t) }
    ensures past { (l : ℕ) (t : Tunnel) → count ledgers.old ≤ l → held_at ledgers.new l t ≡ held_at ledgers.old l t }
    ensures ok { OnOk result ((l : ℕ) (t : Tunnel) → l < count ledgers.old → promised_after op (length (held_by l t paths.now)) (promised_on ledgers.old l t) ≤ promised_on ledgers.new l t) }
    ensures sure { takes_memory op ≡ false → IsOk result }
{
    for path in paths {
        ledgers.move_path(alloc, path.tunnel, path.links.as_slice(), op, held_of(path))?;
    }
    Ok(())
}

/// Promises room for what the paths hold.
pub fn promise_paths(alloc: Global, ledgers: &mut Ledgers, paths: &[Path]) -> Result<(), AllocError>
    requires { AreNoted (count ledgers.old) (promised_on ledgers.old) [] }
    ensures count { count ledgers.new ≡ count ledgers.old }
    ensures noted { AreNoted (count ledgers.old) (promised_on ledgers.new) paths.now }
    ensures kept { (l : ℕ) (t : Tunnel) → held_at ledgers.new l t ≡ held_at ledgers.old l t }
    ensures ok { OnOk result (IsPromised (count ledgers.old) (promised_on ledgers.new) paths.now) }
{
    move_paths(alloc, ledgers, BookOp::Promise, paths)
}

/// Drops, then adds. An entry goes with the last reservation that it holds, unless room is promised.
pub fn change_paths(alloc: Global, ledgers: &mut Ledgers, dropped: &[Path], added: &[Path])
    requires room { IsPromised (count ledgers.old) (promised_on ledgers.old) added.now }
    ensures count { count ledgers.new ≡ count ledgers.old }
    ensures noted { (paths : List Path) → AreNoted (count ledgers.old) (promised_on ledgers.old) paths → AreNoted (count ledgers.old) (promised_on ledgers.new) paths }
    ensures kept { (l : ℕ) (t : Tunnel) → l < count ledgers.old → held_at ledgers.new l t ≡ with_all (without_all (held_at ledgers.old l t) (held_by l t dropped.now)) (held_by l t added.now) }
    ensures stands { (paths : List Path) → IsHeldBy (count ledgers.old) (held_at ledgers.old) paths → HasAll paths dropped.now
        → IsHeldBy (count ledgers.old) (held_at ledgers.new) (without paths dropped.now ++ added.now) }
{
    drop_paths(alloc, ledgers, dropped);
    move_paths(alloc, ledgers, BookOp::Add, added).unwrap();
}

/// Gives up the promised room that wasn't used, and forgets for which paths it was.
pub fn give_up_room(alloc: Global, ledgers: &mut Ledgers, pending: &mut Sequence<Path>)
    requires { AreNoted (count ledgers.old) (promised_on ledgers.old) pending.old }
    ensures count { count ledgers.new ≡ count ledgers.old }
    ensures none { AreNoted (count ledgers.old) (promised_on ledgers.new) [] }
    ensures forgotten { pending.new ≡ [] }
    ensures kept { (l : ℕ) (t : Tunnel) → held_at ledgers.new l t ≡ held_at ledgers.old l t }
{
    move_paths(alloc, ledgers, BookOp::Withdraw, pending.as_slice()).unwrap();
    *pending = Sequence::from_vec(Vec::new(alloc));
}
