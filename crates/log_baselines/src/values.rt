//! What objects have under keys.

ghost use Rattle.std.specs.Prelude.{◌≡◌, map, option_and_then, option_map};
ghost use Rattle.serde_json.specs.Find.{as_array, get};
ghost use Rattle.serde_json.specs.View.{items_view, view};
ghost use Rattle.log_baselines.specs.Logs.{has_text, list_at, text_at};
ghost use Rattle.log_baselines.specs.reading.Seen.{text_seen};

use serde_json::Value;

/// The text that an object has under a key.
pub fn text_at<'v>(value: &'v Value, key: &str) -> Option<&'v str>
    ensures { option_map text_seen result ≡ text_at key.now (view value.now) }
{
    value.get(key)?.as_str()
}

/// Whether an object has this text under a key.
pub fn has_text(value: &Value, key: &str, text: &str) -> bool
    ensures { result ≡ has_text key.now text.now (view value.now) }
{
    match text_at(value, key) {
        Some(found) => found == text,
        None => false,
    }
}

/// The array that an object has under a key.
fn items_at<'v>(value: &'v Value, key: &str) -> Option<&'v Vec<Value>>
    ensures { option_map (λ values. items_view values.now.items) result
        ≡ option_and_then as_array (get key.now (view value.now)) }
{
    value.get(key)?.as_array()
}

/// The values of the array that an object has under a key.
pub fn list_at<'v>(value: &'v Value, key: &str) -> Option<&'v [Value]>
    ensures { option_map (λ values. map view values.now) result ≡ list_at key.now (view value.now) }
{
    match items_at(value, key) {
        Some(values) => Some(values.as_slice()),
        None => None,
    }
}
