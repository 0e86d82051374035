//! Where the words of a query and of a host are cut.
ghost use Rattle.std.specs.Prelude.{◌≡◌, option_map};
ghost use Rattle.http_views.specs.Words.{cut_at};

/// Cuts a text at its first `=`.
pub(crate) fn cut_at_equals(text: &str) -> Option<(&str, &str)>
    ensures { option_map (λ x. (x.0.now, x.1.now)) result ≡ cut_at 61 text.now }
{
    text.split_once('=')
}

/// Cuts a text at its first `:`.
pub(crate) fn cut_at_colon(text: &str) -> Option<(&str, &str)>
    ensures { option_map (λ x. (x.0.now, x.1.now)) result ≡ cut_at 58 text.now }
{
    text.split_once(':')
}
