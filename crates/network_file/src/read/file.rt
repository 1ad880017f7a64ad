// The file that a table says, or the first rule that it breaks.
ghost use Rattle.std.specs.Prelude.{◌≡◌, ◌≢◌, Err, None, Ok};
ghost use Rattle.toml.specs.View.{table_view};
ghost use Rattle.network_file.specs.Answer.{accepted_or};
ghost use Rattle.network_file.specs.Outline.{file_of};
ghost use Rattle.network_file.specs.Refusal.{refusal_of_table, value_refusal};
ghost use Rattle.network_file.specs.Table.{outline_at};

use crate::error::NoNetwork;
use crate::file::NetworkFile;
use crate::outline::Outline;
use crate::read::numbered::numbered;
use crate::read::table::table_fault;
use crate::rules;
use otn_base::Memory;
use std::alloc::Global;
use toml::Table;

/// The file that the table says, or the first rule that it breaks.
pub(crate) fn file(alloc: Global, top: &Table) -> Result<NetworkFile, NoNetwork>
    ensures { result ≢ Err NoNetwork.Memory → result
        ≡ accepted_or (file_of (outline_at (table_view top.now))) (refusal_of_table (table_view top.now)) }
{
    match table_fault(top) {
        Some((rule, place)) => Err(NoNetwork::Refused(rule, place)),
        None => file_of_values(alloc, top),
    }
}

// The file that the values of the table say, or the first rule that they break.
fn file_of_values(alloc: Global, top: &Table) -> Result<NetworkFile, NoNetwork>
    ensures { result ≢ Err NoNetwork.Memory → result
        ≡ accepted_or (file_of (outline_at (table_view top.now))) (value_refusal (outline_at (table_view top.now))) }
{
    match Outline::of_table(alloc, top) {
        Ok(outline) => file_of_outline(alloc, &outline),
        Err(Memory) => Err(NoNetwork::Memory),
    }
}

// The file that the outline says, or the first rule that it breaks.
fn file_of_outline(alloc: Global, outline: &Outline) -> Result<NetworkFile, NoNetwork>
    ensures { result ≢ Err NoNetwork.Memory → result ≡ accepted_or (file_of outline.now) (value_refusal outline.now) }
{
    match rules::fault(outline) {
        Some((rule, place)) => Err(NoNetwork::Refused(rule, place)),
        None => sound_file(alloc, outline),
    }
}

// The file of an outline that breaks no rule.
fn sound_file(alloc: Global, outline: &Outline) -> Result<NetworkFile, NoNetwork>
    requires { value_refusal outline.now ≡ None }
    ensures { result ≢ Err NoNetwork.Memory → result ≡ Ok (file_of outline.now) }
{
    match numbered(alloc, outline) {
        Ok(file) => Ok(file),
        Err(Memory) => Err(NoNetwork::Memory),
    }
}
