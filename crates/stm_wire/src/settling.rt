// Settling: ending whatever exchange a stopped host began, without harm.
ghost use Rattle.std.specs.Prelude.{◌≡◌, ◌≤◌, ◌+◌, ◌*◌, ℕ, suc, List, length, OnOk};
ghost use Rattle.std.specs.Prelude.{IfOk, IfErr, MatchBool, Some, None, [], ◌∷◌};
ghost use Rattle.stm_wire.specs.Awaited.{Awaits};
ghost use Rattle.stm_wire.specs.Command.{with_rest};
ghost use Rattle.stm_wire.specs.Call.{Put, Get};
ghost use Rattle.stm_wire.specs.Device.{Device, Fresh, Connected};
ghost use Rattle.stm_wire.specs.Dialogue.{Adds, GoesOn};
ghost use Rattle.stm_wire.specs.Harmless.{Harmless};
ghost use Rattle.stm_wire.specs.Intents.{settling_byte};
ghost use Rattle.stm_wire.specs.Rig.{waited};
ghost use Rattle.stm_wire.specs.Reply.{ack, nack};
ghost use Rattle.stm_wire.specs.SentList.{settling_run};
ghost use Rattle.stm_wire.specs.Settling.{IsSettling, IsGoing, LeadsTo, SendsOnce, Settles};
ghost use Rattle.stm_wire.specs.Settling.{PutsPart, SettlesWithin, HasLineCause, Speaks};
ghost use Rattle.stm_wire.specs.Settling.{WaitsOnce};
ghost use Rattle.stm_wire.specs.SettlingCalls.{AreUnrefused, IsRefused, IsReconnected, EndsSingly};
ghost use Rattle.stm_wire.specs.SettlingCalls.{IsConnected, IsUnconnected};
ghost use Rattle.stm_wire.specs.SettlingCalls.{EndsSettled, EndsQuiet, EndsGarbled, FailsAs};
ghost use Rattle.stm_wire.specs.SettlingCalls.{EndsInBatches, EndsUnder};
ghost use Rattle.stm_wire.specs.SettlingCalls.{Never, Floods, IsAnswer, IsAnswerTo};
ghost use Rattle.stm_wire.specs.SettlingCalls.{IsUnanswered, IsNoAck, IsUnconfirmed, IsUnended};

use crate::batch::send_batches;
use crate::dialogue::{ACK, NACK};
use crate::draining::drain;
use crate::{Intent, Patience, Rig, WireFault, settling_byte};

/// The byte that a device fresh from reset waits for (AN3155, section 2).
pub const CONNECT: u8 = 0x7F;

/// Sends the byte once, and answers whether it was refused.
fn send_once<R: Rig>(rig: &mut R, byte: u8) -> Result<bool, WireFault>
    ensures speaks { Speaks (byte ∷ []) 4099 result (R.view rig.old) (R.view rig.new) }
    ensures brief { (R.view rig.new).long_gets ≡ (R.view rig.old).long_gets }
    ensures refused { let old = (R.view rig.old).calls in let new = (R.view rig.new).calls in
        IfOk result (λ refused. MatchBool refused
        (GoesOn (IsRefused byte) old new) (GoesOn (AreUnrefused byte 1) old new)) }
    ensures fails { IfErr result
        (FailsAs Never Floods (R.view rig.old).calls (R.view rig.new).calls) }
    ensures once { (R.view rig.old).is_honest → (pages : List ℕ) (start : Device) (left : ℕ)
        → IsGoing byte pages start (suc left) (R.view rig.old).device
        → SendsOnce byte pages start left result (R.view rig.old) (R.view rig.new) }
{
    rig.put(byte)?;
    match rig.get(Patience::Brief)? {
        None => Ok(false),
        Some(first) => {
            drain(rig)?;
            Ok(first == NACK)
        }
    }
}

/// Nothing comes.
fn expect_quiet<R: Rig>(rig: &mut R) -> Result<(), WireFault>
    ensures speaks { Speaks [] 1 result (R.view rig.old) (R.view rig.new) }
    ensures brief { (R.view rig.new).long_gets ≡ (R.view rig.old).long_gets }
    ensures quiet { OnOk result
        (Adds (Get None ∷ []) (R.view rig.old).calls (R.view rig.new).calls) }
    ensures fails { IfErr result
        (FailsAs Never IsAnswer (R.view rig.old).calls (R.view rig.new).calls) }
    ensures honest { (R.view rig.old).is_honest → (byte : ℕ) (pages : List ℕ) (start : Device)
        → IsSettling byte pages start (R.view rig.old).device
        → (R.view rig.old).device.owed ≡ []
        → LeadsTo byte pages start result (R.view rig.old) (R.view rig.new)
        (R.view rig.old).device }
{
    match rig.get(Patience::Brief)? {
        None => Ok(()),
        Some(_) => Err(WireFault::Garbled),
    }
}

/// Sends 7F once, and takes one reply for it, which has to be ACK (AN3155, section 2).
fn send_connect<R: Rig>(rig: &mut R) -> Result<(), WireFault>
    ensures speaks { Speaks (0x7F ∷ []) 2 result (R.view rig.old) (R.view rig.new) }
    ensures waits { WaitsOnce (R.view rig.old).long_gets (R.view rig.new).long_gets }
    ensures long { OnOk result
        ((R.view rig.new).long_gets ≡ waited Patience.Long (R.view rig.old).long_gets) }
    ensures answered { OnOk result
        (Adds (Put 0x7F ∷ Get (Some ack) ∷ []) (R.view rig.old).calls (R.view rig.new).calls) }
    ensures fails { IfErr result
        (FailsAs IsUnanswered IsNoAck (R.view rig.old).calls (R.view rig.new).calls) }
    ensures honest { (R.view rig.old).is_honest → (byte : ℕ) (pages : List ℕ) (start : Device)
        → IsSettling byte pages start (R.view rig.old).device
        → (R.view rig.old).device.phase ≡ Fresh → (R.view rig.old).device.owed ≡ []
        → LeadsTo byte pages start result (R.view rig.old) (R.view rig.new)
        (with_rest [] (R.view rig.old).device) }
{
    rig.put(CONNECT)?;
    match rig.get(Patience::Long)? {
        Some(ACK) => Ok(()),
        Some(_) => Err(WireFault::Garbled),
        None => Err(WireFault::Quiet),
    }
}

/// Connects a fresh device: sends 7F once, takes ACK for it, and then what else comes, since some
/// bootloaders acknowledge 7F twice. It leaves a device that follows the model as harmless as it
/// was, for any byte and pages.
///
/// # Errors
/// `Line` where a call of the Rig failed, `Quiet` where 7F stayed without an answer, `Garbled`
/// where another byte than ACK came, or more bytes after it than are taken.
pub fn connect<R: Rig>(rig: &mut R) -> Result<(), WireFault>
    ensures speaks { Speaks (0x7F ∷ []) 4099 result (R.view rig.old) (R.view rig.new) }
    ensures waits { WaitsOnce (R.view rig.old).long_gets (R.view rig.new).long_gets }
    ensures long { OnOk result
        ((R.view rig.new).long_gets ≡ waited Patience.Long (R.view rig.old).long_gets) }
    ensures answered { OnOk result
        (GoesOn IsConnected (R.view rig.old).calls (R.view rig.new).calls) }
    ensures fails { IfErr result
        (FailsAs IsUnanswered IsUnconnected (R.view rig.old).calls (R.view rig.new).calls) }
    ensures honest { (R.view rig.old).is_honest → (byte : ℕ) (pages : List ℕ) (start : Device)
        → IsSettling byte pages start (R.view rig.old).device
        → (R.view rig.old).device.phase ≡ Fresh → (R.view rig.old).device.owed ≡ []
        → LeadsTo byte pages start result (R.view rig.old) (R.view rig.new)
        (with_rest [] (R.view rig.old).device) }
{
    send_connect(rig)?;
    drain(rig)?;
    Ok(())
}

/// Sends the byte to a connected device, which then waits for the other byte of a pair.
fn probe<R: Rig>(rig: &mut R, byte: u8) -> Result<(), WireFault>
    ensures speaks { Speaks (byte ∷ []) 2 result (R.view rig.old) (R.view rig.new) }
    ensures brief { (R.view rig.new).long_gets ≡ (R.view rig.old).long_gets }
    ensures quiet { OnOk result
        (Adds (Put byte ∷ Get None ∷ []) (R.view rig.old).calls (R.view rig.new).calls) }
    ensures fails { IfErr result
        (FailsAs Never (IsAnswerTo byte) (R.view rig.old).calls (R.view rig.new).calls) }
    ensures honest { (R.view rig.old).is_honest → (pages : List ℕ) (start : Device)
        → IsSettling byte pages start (R.view rig.old).device
        → (R.view rig.old).device.phase ≡ Connected [] → (R.view rig.old).device.owed ≡ []
        → LeadsTo byte pages start result (R.view rig.old) (R.view rig.new)
        (with_rest (byte ∷ []) (R.view rig.old).device) }
{
    rig.put(byte)?;
    expect_quiet(rig)
}

/// Sends the byte again, which makes no pair.
fn confirm<R: Rig>(rig: &mut R, byte: u8) -> Result<(), WireFault>
    ensures speaks { Speaks (byte ∷ []) 3 result (R.view rig.old) (R.view rig.new) }
    ensures brief { (R.view rig.new).long_gets ≡ (R.view rig.old).long_gets }
    ensures refused { OnOk result (Adds (Put byte ∷ Get (Some nack) ∷ Get None ∷ [])
        (R.view rig.old).calls (R.view rig.new).calls) }
    ensures fails { IfErr result
        (FailsAs Never (IsUnconfirmed byte) (R.view rig.old).calls (R.view rig.new).calls) }
    ensures honest { (R.view rig.old).is_honest → (pages : List ℕ) (start : Device)
        → IsSettling byte pages start (R.view rig.old).device
        → (R.view rig.old).device.phase ≡ Connected (byte ∷ [])
        → (R.view rig.old).device.owed ≡ []
        → LeadsTo byte pages start result (R.view rig.old) (R.view rig.new)
        (with_rest [] (R.view rig.old).device) }
{
    rig.put(byte)?;
    match rig.get(Patience::Brief)? {
        Some(NACK) => expect_quiet(rig),
        _ => Err(WireFault::Garbled),
    }
}

/// Connects a device that has ignored the byte, and ends what the byte then begins.
fn reconnect<R: Rig>(rig: &mut R, byte: u8) -> Result<(), WireFault>
    ensures speaks { Speaks (0x7F ∷ byte ∷ byte ∷ []) 4104 result
        (R.view rig.old) (R.view rig.new) }
    ensures waits { WaitsOnce (R.view rig.old).long_gets (R.view rig.new).long_gets }
    ensures settled { OnOk result
        (GoesOn (IsReconnected byte) (R.view rig.old).calls (R.view rig.new).calls) }
    ensures fails { IfErr result
        (FailsAs IsUnanswered (IsUnended byte) (R.view rig.old).calls (R.view rig.new).calls) }
    ensures honest { (R.view rig.old).is_honest → (pages : List ℕ) (start : Device)
        → IsSettling byte pages start (R.view rig.old).device
        → (R.view rig.old).device.phase ≡ Fresh → (R.view rig.old).device.owed ≡ []
        → LeadsTo byte pages start result (R.view rig.old) (R.view rig.new)
        (with_rest [] (R.view rig.old).device) }
{
    connect(rig)?;
    probe(rig, byte)?;
    confirm(rig, byte)
}

/// Sends the byte until it is refused, from a device that owes nothing.
fn send_bytes<R: Rig>(rig: &mut R, byte: u8, limit: u32) -> Result<(), WireFault>
    ensures cause { HasLineCause result (R.view rig.old) (R.view rig.new) }
    ensures calls { GoesOn (PutsPart (settling_run byte limit) (4099 * limit + 4104))
        (R.view rig.old).calls (R.view rig.new).calls }
    ensures waits { WaitsOnce (R.view rig.old).long_gets (R.view rig.new).long_gets }
    ensures settled { OnOk result
        (GoesOn (EndsSingly byte limit) (R.view rig.old).calls (R.view rig.new).calls) }
    ensures fails { IfErr result (FailsAs (EndsQuiet byte limit) (EndsGarbled byte limit)
        (R.view rig.old).calls (R.view rig.new).calls) }
    ensures honest { (R.view rig.old).is_honest → (pages : List ℕ) (start : Device)
        → IsGoing byte pages start limit (R.view rig.old).device
        → Settles byte pages start result (R.view rig.old) (R.view rig.new) }
{
    for _sent in 0..limit {
        if send_once(rig, byte)? {
            return Ok(());
        }
    }
    reconnect(rig, byte)
}

/// Settles with batches of the byte first, and then byte by byte.
fn settle_in_batches<R: Rig>(rig: &mut R, byte: u8, limit: u32) -> Result<(), WireFault>
    ensures cause { HasLineCause result (R.view rig.old) (R.view rig.new) }
    ensures calls { GoesOn (SettlesWithin byte limit)
        (R.view rig.old).calls (R.view rig.new).calls }
    ensures waits { WaitsOnce (R.view rig.old).long_gets (R.view rig.new).long_gets }
    ensures settled { OnOk result
        (GoesOn (EndsInBatches byte limit) (R.view rig.old).calls (R.view rig.new).calls) }
    ensures fails { IfErr result (FailsAs (EndsQuiet byte limit) (EndsGarbled byte limit)
        (R.view rig.old).calls (R.view rig.new).calls) }
    ensures awaited { (R.view rig.old).is_honest
        → Awaits byte limit (R.view rig.old).device → (pages : List ℕ)
        → Harmless (R.view rig.old).device byte pages
        → length (R.view rig.old).device.owed ≤ 4096
        → Settles byte pages (R.view rig.old).device result (R.view rig.old) (R.view rig.new) }
{
    drain(rig)?;
    let left = send_batches(rig, byte, limit)?;
    send_bytes(rig, byte, left)
}

/// Brings a device to the end of whatever exchange a stopped host began, by sending it this byte
/// until it refuses.
///
/// It first takes what is still owed, 4,096 bytes at most. Then, for every byte but 7F, it sends
/// the byte in batches, with no get between: one of 256 bytes, one of 1,024, then of 7,168, or of as
/// many as leave 256 of the limit, and for the last 512 of 256; two of the limit are kept back. Behind
/// each it takes what is owed. It goes on so until NACK is among what it took, or two bytes of the limit
/// are left. Then it sends the byte one at a time, as often as the limit leaves, and is done where
/// the first byte of a reply is NACK. A device that has refused none of them is fresh from reset or
/// gone: it is sent 7F, and where it answers ACK, what else comes is taken, and it is sent the byte
/// twice, of which the second has to be refused.
///
/// On any line that keeps a record, what it puts is a beginning of the byte `limit` times, 7F, and
/// the byte twice. It answers Ok at the first refusal of a single byte: after each of those before
/// it one reply was asked for next, which was no NACK. Where it fails otherwise than by the line,
/// the record ends as the fault says. One get waits long at most: the one for the reply to 7F.
///
/// On a line that follows the model, from a device that is harmless for the byte and some pages and
/// owes at most 4,096 bytes, with a limit of as many bytes as it awaits or more, each moment leaves
/// such a device, with the same chip, version and codes, the same flash outside these pages and the
/// same journal, and awaits no more; it answers Ok, and the device is then settled, or `Line`. A
/// device whose pages are erased by numbers of one byte awaits 267 bytes at most, any other 131,047.
///
/// # Errors
/// `Line` where a call of the Rig failed, `Quiet` where 7F stayed without an answer, `Garbled`
/// where more bytes were owed, or another byte came than step by step is due. It never answers
/// `Nack`.
pub fn settle<R: Rig>(rig: &mut R, byte: u8, limit: u32) -> Result<(), WireFault>
    ensures cause { HasLineCause result (R.view rig.old) (R.view rig.new) }
    ensures calls { GoesOn (SettlesWithin byte limit)
        (R.view rig.old).calls (R.view rig.new).calls }
    ensures waits { WaitsOnce (R.view rig.old).long_gets (R.view rig.new).long_gets }
    ensures settled { OnOk result
        (GoesOn (EndsSettled byte limit) (R.view rig.old).calls (R.view rig.new).calls) }
    ensures fails { IfErr result (FailsAs (EndsQuiet byte limit) (EndsGarbled byte limit)
        (R.view rig.old).calls (R.view rig.new).calls) }
    ensures awaited { (R.view rig.old).is_honest
        → Awaits byte limit (R.view rig.old).device → (pages : List ℕ)
        → Harmless (R.view rig.old).device byte pages
        → length (R.view rig.old).device.owed ≤ 4096
        → Settles byte pages (R.view rig.old).device result (R.view rig.old) (R.view rig.new) }
    ensures honest { (R.view rig.old).is_honest → 131047 ≤ limit → (pages : List ℕ)
        → Harmless (R.view rig.old).device byte pages
        → length (R.view rig.old).device.owed ≤ 4096
        → Settles byte pages (R.view rig.old).device result (R.view rig.old) (R.view rig.new) }
{
    if byte != CONNECT {
        return settle_in_batches(rig, byte, limit);
    }
    drain(rig)?;
    send_bytes(rig, byte, limit)
}

/// Settles, as `settle` does, a device that a host has left which was stopped under this intent:
/// with the intent's byte, and where there is an intent in batches, even where that byte is 7F.
///
/// A host that was only asking, or one that stopped at nothing, leaves a short list behind; but an
/// erase of page 127, whose byte 7F is, may have left one of more than a hundred page numbers.
///
/// # Errors
/// As of `settle`.
pub fn settle_under<R: Rig>(
    rig: &mut R,
    intent: Option<Intent>,
    limit: u32,
) -> Result<(), WireFault>
    ensures cause { HasLineCause result (R.view rig.old) (R.view rig.new) }
    ensures calls { GoesOn (SettlesWithin (settling_byte intent) limit)
        (R.view rig.old).calls (R.view rig.new).calls }
    ensures waits { WaitsOnce (R.view rig.old).long_gets (R.view rig.new).long_gets }
    ensures settled { OnOk result
        (GoesOn (EndsUnder intent limit) (R.view rig.old).calls (R.view rig.new).calls) }
    ensures fails { let byte = settling_byte intent in
        IfErr result (FailsAs (EndsQuiet byte limit) (EndsGarbled byte limit)
        (R.view rig.old).calls (R.view rig.new).calls) }
    ensures awaited { let byte = settling_byte intent in (R.view rig.old).is_honest
        → Awaits byte limit (R.view rig.old).device → (pages : List ℕ)
        → Harmless (R.view rig.old).device byte pages
        → length (R.view rig.old).device.owed ≤ 4096
        → Settles byte pages (R.view rig.old).device result (R.view rig.old) (R.view rig.new) }
{
    let byte = settling_byte(intent);
    match intent {
        None => settle(rig, byte, limit),
        Some(_) => settle_in_batches(rig, byte, limit),
    }
}
