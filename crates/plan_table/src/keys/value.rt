// What a value has at a key.
ghost use Rattle.std.specs.Prelude.{◌≡◌, option_map};
ghost use Rattle.toml.specs.Data.{get_member};
ghost use Rattle.toml.specs.View.{table_view, view};
ghost use Rattle.plan_table.specs.Keys.{is_this_number};

use toml::{Table, Value};

/// The value that the top has at the key.
pub fn top_value<'a>(top: &'a Table, key: &str) -> Option<&'a Value>
    ensures { option_map (λ v. view v.now) result ≡ get_member key.now (table_view top.now) }
{
    top.get(key)
}

/// Whether the value is this number.
pub(crate) fn is_this_number(value: &Value, wanted: i64) -> bool
    ensures { result ≡ is_this_number wanted (view value.now) }
{
    match value.as_integer() {
        Some(number) => number == wanted,
        None => false,
    }
}
