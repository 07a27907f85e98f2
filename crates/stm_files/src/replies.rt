// What a client of a served simulator is told: the device's replies, and Get Version besides, which
// the device refuses.
ghost use Rattle.std.specs.Prelude.{◌≡◌, ◌++◌, IsTrue, OnOk};
ghost use Rattle.stm_sim.specs.Simulator.{simulated_device, simulator_version};
ghost use Rattle.stm_files.specs.Replies.{telling_begun, completes, drained, telling, told_for, told_of};
ghost use Rattle.stm_files.specs.Replies.{version_reply, with_version};
ghost use Rattle.stm_files.specs.Serving.{fed_all};

use std::alloc::AllocError;
use stm_sim::Simulator;
use stm_wire::EraseKind;

/// The codes of Get and of Get Version, and the bytes that end them.
const GET: (u8, u8) = (0x00, 0xFF);

const GET_VERSION: (u8, u8) = (0x01, 0xFE);

const ACK: u8 = 0x79;

/// The version that a simulator of such a chip tells.
fn version_of(kind: EraseKind) -> u8
    ensures { result ≡ simulator_version kind }
{
    match kind {
        EraseKind::Page => 0x22,
        EraseKind::Extended => 0x31,
    }
}

/// Whether the device holds no more than this command's code, and the byte ends it.
fn is_completed(sim: &Simulator, command: (u8, u8), byte: u8) -> bool
    ensures { result ≡ completes command.0 command.1 sim.now.phase byte }
{
    match sim.rest() {
        Some([held]) => *held == command.0 && byte == command.1,
        _ => false,
    }
}

/// Takes all bytes that the device owes. False where memory is refused.
fn take_reply(sim: &mut Simulator, reply: &mut Vec<u8>) -> bool
    ensures device { IsTrue result → sim.new ≡ drained sim.old }
    ensures reply { IsTrue result → reply.new.items ≡ reply.old.items ++ sim.old.owed }
{
    for _ in 0..u64::MAX {
        match sim.take() {
            Some(byte) => {
                if reply.push(byte).is_err() {
                    return false;
                }
            }
            None => return true,
        }
    }
    false
}

/// Adds the reply to Get Version of a simulator of such a chip.
fn add_version(told: &mut Vec<u8>, kind: EraseKind) -> Result<(), AllocError>
    ensures { OnOk result (told.new.items ≡ told.old.items ++ version_reply kind) }
{
    told.extend_from_slice(&[ACK, version_of(kind), 0, 0, ACK])
}

/// Adds a reply to Get, with Get Version among its codes.
fn add_listed(told: &mut Vec<u8>, reply: &[u8]) -> Result<(), AllocError>
    ensures { OnOk result (told.new.items ≡ told.old.items ++ with_version reply.now) }
{
    match reply {
        [first, count, version, get, codes @ ..] if *count < u8::MAX => {
            told.extend_from_slice(&[*first, *count + 1, *version, *get, GET_VERSION.0])?;
            told.extend_from_slice(codes)
        }
        _ => told.extend_from_slice(reply),
    }
}

/// Adds what is told in the place of the device's reply.
fn add_told(
    told: &mut Vec<u8>,
    is_version: bool,
    is_get: bool,
    kind: EraseKind,
    reply: &[u8],
) -> Result<(), AllocError>
    ensures { OnOk result
        (told.new.items ≡ told.old.items ++ told_for is_version is_get kind reply.now) }
{
    if is_version {
        add_version(told, kind)
    } else if is_get {
        add_listed(told, reply)
    } else {
        told.extend_from_slice(reply)
    }
}

/// Feeds a byte, and adds what its client is told. False where memory is refused.
fn tell_byte(sim: &mut Simulator, byte: u8, reply: &mut Vec<u8>, told: &mut Vec<u8>) -> bool
    ensures device { IsTrue result → sim.new ≡ drained (simulated_device byte sim.old) }
    ensures told { IsTrue result → told.new.items ≡ told.old.items ++ told_of sim.old byte }
{
    let is_version = is_completed(sim, GET_VERSION, byte);
    let is_get = is_completed(sim, GET, byte);
    let kind = sim.chip().kind();
    reply.clear();
    sim.feed(byte).is_ok()
        && take_reply(sim, reply)
        && add_told(told, is_version, is_get, kind, reply.as_slice()).is_ok()
}

/// Feeds bytes, one after the other, and puts into `told` what their client is told; `reply` is room
/// for one reply. False where memory is refused.
pub fn tell_all(sim: &mut Simulator, bytes: &[u8], reply: &mut Vec<u8>, told: &mut Vec<u8>) -> bool
    ensures told { IsTrue result → record { device = sim.new; told = told.new.items }
        ≡ telling (telling_begun sim.old) bytes.now }
    ensures device { IsTrue result → sim.new
        ≡ record (fed_all sim.old bytes.now) { owed = sim.new.owed } }
{
    told.clear();
    for byte in bytes {
        if !tell_byte(sim, *byte, reply, told) {
            return false;
        }
    }
    true
}
