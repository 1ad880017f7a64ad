// The table of a text.
ghost use Rattle.std.specs.Prelude.{◌≡◌, IfOk, option_map};
ghost use Rattle.toml.specs.Parse.{parse_document};
ghost use Rattle.toml.specs.View.{table_view};
ghost use Rattle.plan_file.specs.Meaning.{table_of_text};

use otn_base::Memory;
use otn_base::limits::MOST_PLAN_BYTES;
use std::alloc::Global;
use toml::Table;

/// The table of the text. None where the text is too long, or no TOML.
#[tactic(auto, unfolding(plan_file::specs::Meaning::table_of_text))]
pub(crate) fn table_of(alloc: Global, text: &[u8]) -> Result<Option<Table>, Memory>
    ensures { IfOk result (λ table. option_map table_view table ≡ table_of_text text.now) }
{
    if text.len() > MOST_PLAN_BYTES {
        return Ok(None);
    }
    match std::str::from_utf8(text) {
        Ok(text) => table_of_str(alloc, text),
        Err(_) => Ok(None),
    }
}

fn table_of_str(alloc: Global, text: &str) -> Result<Option<Table>, Memory>
    ensures { IfOk result (λ table. option_map table_view table ≡ parse_document text.now) }
{
    match toml::table_from_str(alloc, text) {
        Ok(table) => Ok(Some(table)),
        Err(error) => {
            if error.is_memory() {
                Err(Memory)
            } else {
                Ok(None)
            }
        }
    }
}
