//! What is written is read.
ghost use Rattle.std.specs.Prelude.{◌≡◌, List, [], true};
ghost use Rattle.server_counts.specs.declared.counters.Counters.{Counters};
ghost use Rattle.pce_seen.specs.declared.seen.Numbers.{Numbers};
ghost use Rattle.pce_view.specs.declared.question.ServerInfo.{ServerInfo};
ghost use Rattle.pce_view.specs.declared.shown_states.ShownState.{ShownState};
ghost use Rattle.metrics_text.specs.Exposition.{Family};
ghost use Rattle.metrics_text.specs.Reading.{IsRead, are_named};
ghost use Rattle.metrics_text.specs.Table.{families};
ghost use Rattle.metrics_text.specs.declared.table.Process.{Process};

/// A reader of the format reads the text of metrics as these metrics, with each of their samples.
pub fn what_is_written_is_read()
    ensures { (fs : List Family) → are_named [] fs ≡ true → IsRead fs }
{}

/// It reads the metrics of the table so, whatever was seen and counted.
pub fn all_metrics_are_read()
    ensures { (info : ServerInfo) (n : Numbers) (c : Counters)
        (process : Process) (states : List ShownState)
        → IsRead (families info n c process states) }
{}
