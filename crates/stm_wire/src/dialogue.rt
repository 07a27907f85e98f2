// The steps that every command is made of: bytes sent, and the reply bytes that have to come.
ghost use Rattle.std.specs.Prelude.{◌++◌, ◌≡◌, ◌≢◌, ◌≤◌, ◌∷◌, [], ℕ, List};
ghost use Rattle.std.specs.Prelude.{length, OnOk, IfOk, IfErr, Some};
ghost use Rattle.stm_wire.specs.declared.fault.WireFault.TheVariants.{Nack};
ghost use Rattle.stm_wire.specs.Device.{Fed};
ghost use Rattle.stm_wire.specs.Dialogue.{says, learns, step_turns, Expects};
ghost use Rattle.stm_wire.specs.Sending.{IsHeldToEnd, BreaksOff};
ghost use Rattle.stm_wire.specs.Command.{IsOkOrLine, OwesFirst, owing};
ghost use Rattle.stm_wire.specs.Command.{LeavesFirst, with_rest, TakesAddress};
ghost use Rattle.stm_wire.specs.Frames.{command, with_checksum, address_bytes, address_turns};
ghost use Rattle.stm_wire.specs.Reply.{ack};

use crate::{Patience, Rig, WireFault};

/// The byte that acknowledges a step (AN3155, section 1).
pub(crate) const ACK: u8 = 0x79;

/// The byte that refuses a step (AN3155, section 1).
pub(crate) const NACK: u8 = 0x1F;

/// Puts the bytes, one after another.
pub(crate) fn put_all<R: Rig>(rig: &mut R, bytes: &[u8]) -> Result<(), WireFault>
    ensures held { OnOk result
        (IsHeldToEnd bytes.now (says bytes.now) (R.view rig.old) (R.view rig.new)) }
    ensures broken { IfErr result
        (λ fault. BreaksOff fault bytes.now (says bytes.now) (R.view rig.old) (R.view rig.new)) }
    ensures fed { (R.view rig.old).is_honest
        → OnOk result (Fed bytes.now (R.view rig.old).device (R.view rig.new).device) }
    ensures line { IsOkOrLine result }
{
    for byte in bytes {
        rig.put(*byte)?;
    }
    Ok(())
}

/// Takes a byte, and waits long for it.
pub(crate) fn receive<R: Rig>(rig: &mut R) -> Result<u8, WireFault>
    ensures held { IfOk result
        (λ byte. IsHeldToEnd [] (learns (byte ∷ [])) (R.view rig.old) (R.view rig.new)) }
    ensures broken { IfErr result
        (λ fault. (byte : ℕ)
        → BreaksOff fault [] (learns (byte ∷ [])) (R.view rig.old) (R.view rig.new)) }
    ensures unrefused { IfErr result (λ fault. fault ≢ Nack) }
    ensures byte { (R.view rig.old).is_honest
        → IfOk result
        (λ byte. (R.view rig.old).device ≡ owing (byte ∷ []) (R.view rig.new).device) }
    ensures line { (R.view rig.old).is_honest → 1 ≤ length (R.view rig.old).device.owed
        → IsOkOrLine result }
{
    match rig.get(Patience::Long)? {
        Some(byte) => Ok(byte),
        None => Err(WireFault::Quiet),
    }
}

/// Sends a step of a command, and takes its acknowledgement.
pub(crate) fn send_step<R: Rig>(rig: &mut R, bytes: &[u8]) -> Result<(), WireFault>
    ensures held { OnOk result
        (IsHeldToEnd bytes.now (step_turns bytes.now) (R.view rig.old) (R.view rig.new)) }
    ensures broken { IfErr result
        (λ fault. BreaksOff fault bytes.now (step_turns bytes.now)
        (R.view rig.old) (R.view rig.new)) }
    ensures acknowledged { (R.view rig.old).is_honest
        → OnOk result
        (Fed bytes.now (R.view rig.old).device (owing (ack ∷ []) (R.view rig.new).device)) }
    ensures line { (R.view rig.old).is_honest → LeavesFirst ack bytes.now (R.view rig.old).device
        → IsOkOrLine result }
{
    put_all(rig, bytes)?;
    match receive(rig)? {
        ACK => Ok(()),
        NACK => Err(WireFault::Nack),
        _ => Err(WireFault::Garbled),
    }
}

/// Takes a further reply byte, which has to be this one.
pub(crate) fn expect_byte<R: Rig>(rig: &mut R, byte: u8) -> Result<(), WireFault>
    ensures held { OnOk result (IsHeldToEnd [] (Expects byte ∷ []) (R.view rig.old) (R.view rig.new)) }
    ensures broken { IfErr result
        (λ fault. BreaksOff fault [] (Expects byte ∷ []) (R.view rig.old) (R.view rig.new)) }
    ensures expected { (R.view rig.old).is_honest
        → OnOk result ((R.view rig.old).device ≡ owing (byte ∷ []) (R.view rig.new).device) }
    ensures line { (R.view rig.old).is_honest → OwesFirst byte (R.view rig.old).device
        → IsOkOrLine result }
{
    let came = receive(rig)?;
    if came == byte {
        Ok(())
    } else {
        Err(WireFault::Garbled)
    }
}

/// Takes as many data bytes as the buffer holds.
pub(crate) fn fill<R: Rig>(rig: &mut R, buf: &mut [u8]) -> Result<(), WireFault>
    ensures held { OnOk result (IsHeldToEnd [] (learns buf.new) (R.view rig.old) (R.view rig.new)) }
    ensures broken { IfErr result
        (λ fault. (answer : List ℕ) × (length answer ≡ length buf.old)
        × BreaksOff fault [] (learns answer) (R.view rig.old) (R.view rig.new)) }
    ensures unrefused { IfErr result (λ fault. fault ≢ Nack) }
    ensures bytes { (R.view rig.old).is_honest
        → OnOk result ((R.view rig.old).device ≡ owing buf.new (R.view rig.new).device) }
    ensures line { (R.view rig.old).is_honest
        → length buf.old ≤ length (R.view rig.old).device.owed → IsOkOrLine result }
{
    for slot in buf.iter_mut() {
        *slot = receive(rig)?;
    }
    Ok(())
}

/// The bytes of an address step: the address, high byte first, and its checksum.
pub(crate) fn address_step(address: u32) -> [u8; 5]
    ensures { result ≡ with_checksum (address_bytes address) }
{
    let [a, b, c, d] = address.to_be_bytes();
    [a, b, c, d, a ^ b ^ c ^ d]
}

/// Sends the code of a command that reads or writes, and its address.
pub(crate) fn send_address<R: Rig>(rig: &mut R, code: u8, address: u32) -> Result<(), WireFault>
    ensures held { OnOk result
        (IsHeldToEnd (command code ++ with_checksum (address_bytes address)) (address_turns code address)
        (R.view rig.old) (R.view rig.new)) }
    ensures broken { IfErr result
        (λ fault. BreaksOff fault (command code ++ with_checksum (address_bytes address))
        (address_turns code address) (R.view rig.old) (R.view rig.new)) }
    ensures waits { (R.view rig.old).is_honest → TakesAddress code address (R.view rig.old).device
        → OnOk result ((R.view rig.new).device
        ≡ with_rest (command code ++ with_checksum (address_bytes address))
        (R.view rig.old).device) }
    ensures line { (R.view rig.old).is_honest → TakesAddress code address (R.view rig.old).device
        → IsOkOrLine result }
{
    send_step(rig, &[code, !code])?;
    send_step(rig, &address_step(address))
}
