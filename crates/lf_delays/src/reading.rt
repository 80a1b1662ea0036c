//! Late arrivals, read from text.

ghost use Rattle.std.specs.Prelude.{◌≡◌, ◌≢◌, ◌↔◌, List, IfOk, IfSome, IsTrue, MatchOption};
ghost use Rattle.lf_latency.specs.Arrivals.{IsArrivals, IsSlot};
ghost use Rattle.lf_delays.specs.declared.delay.Delay.{Delay};
ghost use Rattle.lf_delays.specs.Delays.{AreDelays, IsDelay, IsNew, IsRead, IsShort, delay_text, delayed, list_text};

use crate::Delay;
use lf_faults::{Slot, read_slot, read_step};
use lf_latency::{Arrivals, Network, keeps_limits};
use std::alloc::{AllocError, Global};

/// The arrivals that the text names: its notes arrive as it says, all others as early as they can. It is a list as `0>1 @9 13,2>0 @5 9`, joined by
/// single commas; the empty text names none.
///
/// None where the text is no such list, where a slot stands in it twice or is none of the network's, or where a note can't arrive at the step that it
/// names. The error is that memory has run out.
pub fn read_delays(
    alloc: Global,
    network: &Network,
    text: &str,
) -> Result<Option<Arrivals>, AllocError>
    ensures value { IfOk result (IsRead network.now text.now) }
    ensures arrivals { IfOk result (λ read. IfSome read (IsArrivals network.now)) }
{
    keeps_limits(network);
    match read_list(alloc, network, text)? {
        Some(delays) => Ok(Some(arrivals_of(network, delays.as_slice()))),
        None => Ok(None),
    }
}

/// The delays that the text names, in its order.
fn read_list(alloc: Global, network: &Network, text: &str) -> Result<Option<Vec<Delay>>, AllocError>
    ensures { IfOk result (λ read. MatchOption read
        ((ds : List Delay) → AreDelays network.now ds → text.now ≢ list_text ds)
        (λ delays. AreDelays network.now delays.items × (text.now ≡ list_text delays.items))) }
{
    keeps_limits(network);
    let mut delays = Vec::new(alloc);
    if text.is_empty() {
        return Ok(Some(delays));
    }
    'pieces: for piece in text.split(',') {
        match read_new(network, delays.as_slice(), piece) {
            Some(delay) => delays.push(delay)?,
            None => return Ok(None),
        }
    }
    Ok(Some(delays))
}

/// The delay that the piece names, of a slot that none of these is of. None where it names none.
fn read_new(network: &Network, delays: &[Delay], piece: &str) -> Option<Delay>
    ensures { MatchOption result
        ((d : Delay) → IsDelay network.now d → IsNew delays.now d → piece.now ≢ delay_text d)
        (λ d. IsDelay network.now d × IsNew delays.now d × (piece.now ≡ delay_text d)) }
{
    keeps_limits(network);
    let delay = read_delay(piece)?;
    if !is_delay(network, &delay) {
        return None;
    }
    if !is_new(delays, &delay) {
        return None;
    }
    Some(delay)
}

/// The delay that the piece names, whatever the network. None where it names none.
fn read_delay(piece: &str) -> Option<Delay>
    ensures { MatchOption result
        ((d : Delay) → IsShort d → piece.now ≢ delay_text d)
        (λ d. IsShort d × (piece.now ≡ delay_text d)) }
{
    let cut = piece.rfind(' ')?;
    let bytes = piece.as_bytes();
    let slot = read_slot(&bytes[..cut])?;
    let at = read_step(&bytes[cut + 1..])?;
    Some(Delay { slot, at })
}

/// Whether the delay's slot is one of the network's, and its step one at which the note can arrive.
fn is_delay(network: &Network, delay: &Delay) -> bool
    ensures { IsTrue result ↔ IsDelay network.now delay.now }
{
    keeps_limits(network);
    let Slot { from, to, step } = delay.slot;
    if !is_slot(network, from, to, step) {
        return false;
    }
    let earliest = step + network.least(from, to);
    if delay.at < earliest {
        return false;
    }
    delay.at <= earliest + network.spread(from, to)
}

/// Whether a node may send to another at a step.
fn is_slot(network: &Network, from: u32, to: u32, step: u32) -> bool
    ensures { IsTrue result ↔ IsSlot network.now from to step }
{
    let nodes = network.nodes();
    if from >= nodes || to >= nodes || from == to {
        return false;
    }
    1 <= step && step <= network.horizon()
}

/// Whether none of these is of the delay's slot.
fn is_new(delays: &[Delay], delay: &Delay) -> bool
    ensures { IsTrue result ↔ IsNew delays.now delay.now }
{
    'delays: for other in delays {
        if other.slot == delay.slot {
            return false;
        }
    }
    true
}

/// The arrivals by these delays of the network: each note as early as it can be, but for these.
pub fn arrivals_of(network: &Network, delays: &[Delay]) -> Arrivals
    requires { AreDelays network.now delays.now }
    ensures value { result ≡ delayed network.now delays.now }
    ensures arrivals { IsArrivals network.now result }
{
    keeps_limits(network);
    let mut arrivals = Arrivals::earliest(network);
    'delays: for delay in delays {
        let Slot { from, to, step } = delay.slot;
        arrivals.put(from, to, step, delay.at);
    }
    arrivals
}
