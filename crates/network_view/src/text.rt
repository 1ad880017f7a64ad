// The whole text of a network, and how it is written.
ghost use Rattle.std.specs.Prelude.{◌≡◌, ◌≤◌, ◌++◌, IfErr, IfOk, flat_map, length, string_bytes};
ghost use Rattle.port_base.specs.PortViews.{sink_view};
ghost use Rattle.network_view.specs.NetworkText.{TellsNetwork, answer_of, fibre_line, head_line, is_met_by, numbered, status_word, trouble_line, troubles_in, way_lines};
ghost use Rattle.network_view.specs.Ways.{way_at};
ghost use Rattle.network_view.specs.Entries.{legs_of};

use crate::lines::{Trouble, line_of_fibre, line_of_trouble, lines_of_way};
use crate::named::{Leg, NamedNetwork, legs_of};
use crate::tracing::way_to;
use crate::trouble::is_taken;
use otn_base::Memory;
use port_base::{Sink, Written, write_whole};
use std::alloc::Global;

/// How the telling of a network ended.
#[derive(Clone, Copy, Debug, PartialEq, Eq)]
pub enum Told {
    /// All is told, and all meets.
    Met,
    /// All is told, and some does not meet.
    Unmet,
    /// A write of the report failed.
    ReportFault,
}

/// Writes what is told of a network: each fibre with its free slots, each way with its entries, what does not meet, and
/// whether all does. The text is made before the first write: for want of memory nothing is written.
pub fn write_network<K: Sink>(
    alloc: Global,
    named: &NamedNetwork,
    report: &mut K,
) -> Result<Told, Memory>
    ensures memory { IfErr result (λ _. report.new ≡ report.old) }
    ensures told { IfOk result (λ told. TellsNetwork named.now told (sink_view K.Sink report.old)
        (sink_view K.Sink report.new)) }
{
    let legs = legs_of(alloc, named)?;
    let head = line_of_head(alloc, named, legs.len())?;
    let fibres = lines_of_fibres(alloc, named)?;
    let ways = lines_of_ways(alloc, named, legs.as_slice())?;
    let troubles = lines_of_troubles(alloc, named, legs.as_slice())?;
    let met = is_met(troubles.as_bytes());
    let status = word_of_status(met);
    let text = format!(in alloc; "{head}{fibres}{ways}{troubles}status {status}\n")?;
    match write_whole(report, text.as_bytes()) {
        Written::Lost => Ok(Told::ReportFault),
        Written::Whole => Ok(answer_of(met)),
    }
}

// Whether nothing is told to be amiss.
fn is_met(troubles: &[u8]) -> bool
    ensures { result ≡ is_met_by troubles.now }
{
    match troubles {
        [] => true,
        [_, ..] => false,
    }
}

/// How a telling ended that was written whole, where all meets or not.
pub fn answer_of(met: bool) -> Told
    ensures { result ≡ answer_of met }
{
    if met { Told::Met } else { Told::Unmet }
}

/// Whether all meets, as the word of the last line.
pub fn word_of_status(met: bool) -> &'static str
    ensures { result.now ≡ status_word met }
{
    if met { "met" } else { "unmet" }
}

// How many nodes, fibres and entries there are.
#[tactic(auto, unfolding(crate::specs::NetworkText::head_line))]
fn line_of_head(alloc: Global, named: &NamedNetwork, entries: usize) -> Result<String, Memory>
    requires { entries ≡ length (legs_of named.now.network) }
    ensures { IfOk result (λ text. string_bytes text ≡ head_line named.now.network) }
{
    let nodes = named.plans().len();
    let fibres = named.fibres().len();
    Ok(format!(in alloc; "network nodes {nodes} fibres {fibres} connections {entries}\n")?)
}

// The lines of all fibres.
fn lines_of_fibres(alloc: Global, named: &NamedNetwork) -> Result<String, Memory>
    ensures { IfOk result (λ text. string_bytes text ≡ numbered (fibre_line named.now) 1 named.now.network.fibres) }
{
    let fibres = named.fibres();
    let mut text = String::new(alloc);
    for i in 0..fibres.len() {
        let line = line_of_fibre(alloc, named, i + 1, &fibres[i])?;
        text.push_str(&line)?;
    }
    Ok(text)
}

// The lines of the ways that end at these entries, of which the network has no more.
fn lines_of_ways(alloc: Global, named: &NamedNetwork, legs: &[Leg]) -> Result<String, Memory>
    ensures { IfOk result (λ text. string_bytes text
        ≡ numbered (way_lines named.now) 1 (flat_map (way_at named.now.network (length legs.now)) legs.now)) }
{
    let mut text = String::new(alloc);
    let mut count = 0;
    for i in 0..legs.len() {
        count += add_way(alloc, named, legs.len(), count + 1, &legs[i], &mut text)?;
    }
    Ok(text)
}

// Appends the lines of the way that ends at this entry, and says how many there are: one or none.
fn add_way(
    alloc: Global,
    named: &NamedNetwork,
    most: usize,
    number: usize,
    end: &Leg,
    text: &mut String,
) -> Result<usize, Memory>
    ensures text { IfOk result (λ _. string_bytes text.new ≡ string_bytes text.old
        ++ numbered (way_lines named.now) number (way_at named.now.network most end.now)) }
    ensures told { IfOk result (λ ways. ways ≡ length (way_at named.now.network most end.now)) }
    ensures one { IfOk result (λ ways. ways ≤ 1) }
{
    if is_taken(named, end) {
        return Ok(0);
    }
    let Some(way) = way_to(alloc, named, most, end)? else {
        return Ok(0);
    };
    let lines = lines_of_way(alloc, named, number, way.as_slice())?;
    text.push_str(&lines)?;
    Ok(1)
}

// The lines of all that is amiss.
fn lines_of_troubles(alloc: Global, named: &NamedNetwork, legs: &[Leg]) -> Result<String, Memory>
    ensures { IfOk result (λ text. string_bytes text ≡ troubles_in named.now legs.now) }
{
    let unmet = lines_of_trouble(alloc, named, Trouble::Unmet, legs)?;
    let untaken = lines_of_trouble(alloc, named, Trouble::Untaken, legs)?;
    let round = lines_of_trouble(alloc, named, Trouble::Round, legs)?;
    Ok(format!(in alloc; "{unmet}{untaken}{round}")?)
}

// The lines of one kind of them.
fn lines_of_trouble(
    alloc: Global,
    named: &NamedNetwork,
    trouble: Trouble,
    legs: &[Leg],
) -> Result<String, Memory>
    ensures { IfOk result (λ text. string_bytes text
        ≡ flat_map (trouble_line named.now (length legs.now) trouble) legs.now) }
{
    let mut text = String::new(alloc);
    for leg in legs {
        let line = line_of_trouble(alloc, named, legs.len(), trouble, leg)?;
        text.push_str(&line)?;
    }
    Ok(text)
}
