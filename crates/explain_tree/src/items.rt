// The items of a JSON list by their numbers.
ghost use Rattle.std.specs.Prelude.{◌≡◌, option_map};
ghost use Rattle.serde_json.specs.View.{view, items_view};
ghost use Rattle.explain_tree.specs.Nodes.{text_item, number_item, flag_item, end_item, end_of, items_item};

use serde_json::Value;

// The text of this number.
pub(crate) fn text_item(value: &Value, i: usize) -> Option<&str>
    ensures { option_map (λ t. t.now) result ≡ text_item i (view value.now) }
{
    match value.get(i) {
        Some(item) => item.as_str(),
        None => None,
    }
}

// The number of this number.
pub(crate) fn number_item(value: &Value, i: usize) -> Option<u64>
    ensures { result ≡ number_item i (view value.now) }
{
    value.get(i).and_then(Value::as_u64)
}

// The truth value of this number.
pub(crate) fn flag_item(value: &Value, i: usize) -> Option<bool>
    ensures { result ≡ flag_item i (view value.now) }
{
    value.get(i).and_then(Value::as_bool)
}

// A text, or `null` for none.
fn end_of(value: &Value) -> Option<Option<&str>>
    ensures { option_map (λ e. option_map (λ t. t.now) e) result ≡ end_of (view value.now) }
{
    if value.is_null() {
        return Some(None);
    }
    match value.as_str() {
        Some(text) => Some(Some(text)),
        None => None,
    }
}

// The text of this number, or `null` for none.
pub(crate) fn end_item(value: &Value, i: usize) -> Option<Option<&str>>
    ensures { option_map (λ e. option_map (λ t. t.now) e) result ≡ end_item i (view value.now) }
{
    match value.get(i) {
        Some(item) => end_of(item),
        None => None,
    }
}

// The list of this number.
pub(crate) fn items_item(value: &Value, i: usize) -> Option<&Vec<Value>>
    ensures { option_map (λ v. items_view v.now.items) result ≡ items_item i (view value.now) }
{
    match value.get(i) {
        Some(item) => item.as_array(),
        None => None,
    }
}
