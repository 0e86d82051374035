//! The source of what is shown.
use asks::Ask;
use http_server::Response;
use std::alloc::AllocError;

/// A server that can be looked at. Each call looks again, and changes nothing in the server. A source knows what it has
/// shown so far. An answer that runs out of memory shows nothing.
pub trait ViewSource {
    ghost use Rattle.std.specs.Prelude.{ℕ, List, ◌≡◌, OnOk, OnErr};
    ghost use Rattle.http_server.specs.Response.{IsBlank, IsResponse};
    ghost use Rattle.asks.specs.declared.ask.Ask.{Ask};
    ghost use Rattle.http_views.specs.Answers.{json_kind, metrics_kind, text_fields};

    /// From the first state on, this text may be the document for what is asked, and leaves the second state.
    ghost is_document: { Self → Ask → List ℕ → Self → Type 0 };

    /// From the first state on, this text may be the metrics, and leaves the second state.
    ghost is_metrics: { Self → List ℕ → Self → Type 0 };

    /// Answers with the JSON document of what one look sees, as `give_document` does.
    fn document(&mut self, ask: &Ask, response: &mut Response) -> Result<(), AllocError>
        requires { IsBlank response.old }
        ensures ok { OnOk result ((text : List ℕ) × is_document self.old ask.now text self.new × IsResponse 200 (text_fields json_kind) text response.new) }
        ensures err { OnErr result (self.new ≡ self.old) };

    /// Answers with the numbers for a scraper, as `give_metrics` does.
    fn metrics(&mut self, response: &mut Response) -> Result<(), AllocError>
        requires { IsBlank response.old }
        ensures ok { OnOk result ((text : List ℕ) × is_metrics self.old text self.new × IsResponse 200 (text_fields metrics_kind) text response.new) }
        ensures err { OnErr result (self.new ≡ self.old) };
}
