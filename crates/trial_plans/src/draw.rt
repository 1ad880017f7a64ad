// The packets of the trial, drawn by a generator.
ghost use Rattle.std.specs.Prelude.{◌≡◌, ℕ, IfOk};
ghost use Rattle.number_order.specs.NumberOrder.{generator_after};
ghost use Rattle.trial_plans.specs.TrialDraw.{DrawsText};
ghost use Rattle.trial_plans.specs.Steps.TrialDraw.{DrawsPacket};

use hex::encode;
use otn_base::Memory;
use rand_core::SeedableRng;
use rand_core::utils::NextWord;
use rand_pcg::Lcg64Xsh32;
use std::alloc::Global;

// Packets of each client, and bytes of a packet at most.
const PACKETS: u32 = 16;

const LONGEST: u32 = 1500;

/// The generator of a number, before its first word.
pub fn generator_of(number: u64) -> Lcg64Xsh32
    ensures { result ≡ generator_after number 0 }
{
    Lcg64Xsh32::seed_from_u64(number)
}

/// Draws the 16 packets of a client, as text: a line of hex digits for each.
pub fn draw_text(alloc: Global, generator: &mut Lcg64Xsh32) -> Result<Vec<u8>, Memory>
    ensures { IfOk result (λ text. DrawsText 16 generator.old generator.new text.items) }
{
    let mut text = Vec::new(alloc);
    for _ in 0..PACKETS {
        let packet = draw_packet(alloc, generator)?;
        let digits = encode(alloc, packet)?;
        text.extend_from_slice(digits.as_bytes())?;
        text.push(b'\n')?;
    }
    Ok(text)
}

// Draws a packet: a word for its length, 1 to 1,500 bytes, and one for each byte.
fn draw_packet(alloc: Global, generator: &mut Lcg64Xsh32) -> Result<Vec<u8>, Memory>
    ensures { IfOk result (λ packet. DrawsPacket generator.old generator.new packet.items) }
{
    let size = 1 + generator.next_word() % LONGEST;
    let mut packet = Vec::new(alloc);
    for _ in 0..size {
        packet.push((generator.next_word() % 256) as u8)?;
    }
    Ok(packet)
}
