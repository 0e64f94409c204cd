// The fields of a JSON object.
ghost use Rattle.std.specs.Prelude.{◌≡◌, option_map};
ghost use Rattle.serde_json.specs.View.{view, items_view};
ghost use Rattle.explain_report.specs.Fields.{number_at, text_at, flag_at, items_at, place_at, place_of};

use serde_json::Value;

// The number of this key.
pub(crate) fn number_at(value: &Value, key: &str) -> Option<u64>
    ensures { result ≡ number_at key.now (view value.now) }
{
    value.get(key).and_then(Value::as_u64)
}

/// The text of this key, where the value is an object that has one.
pub fn text_at<'a>(value: &'a Value, key: &str) -> Option<&'a str>
    ensures { option_map (λ t. t.now) result ≡ text_at key.now (view value.now) }
{
    match value.get(key) {
        Some(member) => member.as_str(),
        None => None,
    }
}

// The truth value of this key.
pub(crate) fn flag_at(value: &Value, key: &str) -> Option<bool>
    ensures { result ≡ flag_at key.now (view value.now) }
{
    value.get(key).and_then(Value::as_bool)
}

/// The list of this key, where the value is an object that has one.
pub fn items_at<'a>(value: &'a Value, key: &str) -> Option<&'a Vec<Value>>
    ensures { option_map (λ v. items_view v.now.items) result ≡ items_at key.now (view value.now) }
{
    match value.get(key) {
        Some(member) => member.as_array(),
        None => None,
    }
}

// A number, or `null` for none.
fn place_of(value: &Value) -> Option<Option<u64>>
    ensures { result ≡ place_of (view value.now) }
{
    if value.is_null() {
        return Some(None);
    }
    match value.as_u64() {
        Some(number) => Some(Some(number)),
        None => None,
    }
}

// The number of this key, or `null` for none.
pub(crate) fn place_at(value: &Value, key: &str) -> Option<Option<u64>>
    ensures { result ≡ place_at key.now (view value.now) }
{
    match value.get(key) {
        Some(member) => place_of(member),
        None => None,
    }
}
