// The names of the rules.
ghost use Rattle.std.specs.Prelude.{◌≡◌, option_map};
ghost use Rattle.verdict_json.specs.Rules.{name_of};

/// The name of a rule that a source, a function or a value can break, as it stands in the output; `None` for a number
/// that is no rule's.
pub fn rule_name(rule: u32) -> Option<&'static str>
    ensures { option_map (λ name. name.now) result ≡ name_of rule }
{
    match rule {
        1 => Some("not-utf8"),
        2 => Some("bad-token"),
        3 => Some("open-comment"),
        4 => Some("open-text"),
        5 => Some("bad-escape"),
        6 => Some("syntax"),
        7 => Some("too-long"),
        9 => Some("too-wide"),
        10 => Some("name-twice"),
        11 => Some("variant-twice"),
        12 => Some("field-twice"),
        13 => Some("unknown-type"),
        14 => Some("unsized-place"),
        15 => Some("contains-itself"),
        16 => Some("array-length"),
        17 => Some("type-arguments"),
        18 => Some("bad-use"),
        19 => Some("unsupported-attribute"),
        20 => Some("unknown-name"),
        21 => Some("name-is-no-binding"),
        22 => Some("wrong-type"),
        23 => Some("wrong-count"),
        24 => Some("unknown-field"),
        25 => Some("field-written-twice"),
        26 => Some("field-missing"),
        27 => Some("rest-twice"),
        28 => Some("literal-out-of-range"),
        29 => Some("range-empty"),
        30 => Some("name-bound-twice"),
        31 => Some("alternatives-differ"),
        32 => Some("mode-written"),
        33 => Some("open-range-in-slice"),
        34 => Some("deref-needs-reference"),
        35 => Some("unsupported-pattern"),
        36 => Some("endless-type"),
        40 => Some("value-syntax"),
        41 => Some("value-type"),
        42 => Some("unknown-function"),
        50 => Some("arm-too-large"),
        _ => None,
    }
}
