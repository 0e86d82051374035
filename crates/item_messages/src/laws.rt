//! What holds of every message of one item.
ghost use Rattle.std.specs.Prelude.{◌≡◌, ◌∷◌, [], true};
ghost use Rattle.pcep_messages.specs.Messages.{Reads};
ghost use Rattle.pcep_messages.specs.declared.message.Message.TheVariants as messages;
ghost use Rattle.pcep_messages.specs.declared.message.PathRequest.{PathRequest};
ghost use Rattle.pcep_messages.specs.declared.message.StateReport.{StateReport};
ghost use Rattle.item_messages.specs.Reports.{IsReport, report_fits, report_written};
ghost use Rattle.item_messages.specs.Requests.{IsRequest, request_written};

/// Shows that the bytes of a report that the wire can have, and whose lengths fit, read as a message of this report and
/// no other.
pub fn reports_are_read_again()
    ensures { (report : StateReport) → IsReport report → report_fits report ≡ true → Reads (report_written report) (messages.Report (report ∷ [])) }
{}

/// Shows that the bytes of a request that the wire can have read as a message of this request and no other.
pub fn requests_are_read_again()
    ensures { (request : PathRequest) → IsRequest request → Reads (request_written request) (messages.Request (request ∷ [])) }
{}
