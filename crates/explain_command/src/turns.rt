// How many turns the packets of a client want.
use input_reasons::Packets;
use otn_base::Memory;
use otn_base::limits::MOST_TURNS;
use plan_file::{Connection, FromEnd, Plan};

/// The connection from this client.
pub(crate) fn connection_from(plan: &Plan, client: u8) -> Option<&Connection> {
    for connection in plan.connections.as_slice() {
        if matches!(connection.from, FromEnd::Client(n) if n == client) {
            return Some(connection);
        }
    }
    None
}

/// Says how many turns these packets want of a connection, and whether it has as many.
pub(crate) fn explain(
    connection: &Connection,
    packets: Packets,
    page: &mut String,
) -> Result<(), Memory> {
    let name = connection.name.as_str();
    let has = u64::from(connection.stop.saturating_sub(connection.start)).saturating_add(1);
    let bytes = packets.bytes_to_hand_on(connection.fcs);
    match turns_for(connection.pace.as_slice(), bytes) {
        Some(wants) if wants <= has => {
            let last = u64::from(connection.start)
                .saturating_add(wants)
                .saturating_sub(1);
            let there = last.saturating_add(4);
            writeln!(
                page,
                "    {name} has sent all of it after {wants} of its {has} turns, in turn {last}: at a client of the next node"
            )?;
            writeln!(
                page,
                "    by turn {there} of the plan there, and 3 turns later behind each node between"
            )?;
        }
        Some(wants) => {
            writeln!(
                page,
                "    {name} has {has} turns, and wants {wants} for it: not all is sent (otn: unfinished, status 1)"
            )?;
        }
        None => {
            writeln!(
                page,
                "    {name} wants more than the {MOST_TURNS} turns that a plan has at most"
            )?;
        }
    }
    Ok(())
}

// After how many turns of this pace so many bytes are handed on. None where a plan has fewer.
fn turns_for(pace: &[u32], bytes: u64) -> Option<u64> {
    let mut left = bytes;
    let mut at = 0;
    for turn in 1..MOST_TURNS as u64 + 1 {
        let now = u64::from(*pace.get(at)?);
        if left <= now {
            return Some(turn);
        }
        left -= now;
        at += 1;
        if at >= pace.len() {
            at = 0;
        }
    }
    None
}
