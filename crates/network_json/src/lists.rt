// Values in lists.
ghost use Rattle.std.specs.Prelude.{◌≡◌, ◌∷◌, ◌++◌, [], IfOk, map};
ghost use Rattle.serde_json.specs.View.{view};

use otn_base::Memory;
use serde_json::Value;

/// Appends a value.
pub(crate) fn add(list: &mut Vec<Value>, value: Value) -> Result<(), Memory>
    ensures { IfOk result (λ _. map view list.new.items ≡ map view list.old.items ++ view value ∷ []) }
{
    list.push(value)?;
    Ok(())
}
