//! Members of a document of JSON.
ghost use Rattle.std.specs.Prelude.{◌≡◌};
ghost use Rattle.serde_json.specs.View.{items_view, view};
ghost use Rattle.watch_board.specs.Members.{amount_in, flag_in, items_in, number_in, text_in, whole_in};

use serde_json::Value;

/// Returns a text, which is empty if there is none.
pub(crate) fn text_in<'v>(value: &'v Value, name: &str) -> &'v str
    ensures { result.now ≡ text_in name.now (view value.now) }
{
    value.get(name).and_then(Value::as_str).unwrap_or("")
}

/// Returns a number, if there is one.
pub(crate) fn number_in(value: &Value, name: &str) -> Option<u64>
    ensures { result ≡ number_in name.now (view value.now) }
{
    value.get(name).and_then(Value::as_u64)
}

/// Returns a number, or 0 if there is none.
pub(crate) fn whole_in(value: &Value, name: &str) -> u64
    ensures { result ≡ whole_in name.now (view value.now) }
{
    number_in(value, name).unwrap_or(0)
}

/// Tests whether a member is true.
pub(crate) fn flag_in(value: &Value, name: &str) -> bool
    ensures { result ≡ flag_in name.now (view value.now) }
{
    value.get(name).and_then(Value::as_bool).unwrap_or(false)
}

/// Returns the items of a list, of which there are none if it isn't there.
pub(crate) fn items_in<'v>(value: &'v Value, name: &str) -> &'v [Value]
    ensures { items_view result.now ≡ items_in name.now (view value.now) }
{
    match value.get(name).and_then(Value::as_array) {
        Some(items) => items.as_slice(),
        None => &[],
    }
}

/// Returns the number at a place of a list, or 0 if there is none.
pub(crate) fn amount_in(value: &Value, name: &str, place: usize) -> i64
    ensures { result ≡ amount_in name.now place (view value.now) }
{
    let Some(amounts) = value.get(name) else {
        return 0;
    };
    amounts.get(place).and_then(Value::as_i64).unwrap_or(0)
}
