// Get ID (AN3155, section 3.3): code 0x02, which tells the product id.
ghost use Rattle.std.specs.Prelude.{◌≡◌, ◌/◌, ◌%◌, ◌++◌, ◌∷◌, [], ℕ, List, IfOk, IfErr};
ghost use Rattle.stm_wire.specs.Device.{IsSettled};
ghost use Rattle.stm_wire.specs.Dialogue.{Expects, Learns};
ghost use Rattle.stm_wire.specs.Sending.{IsHeldToEnd, BreaksOff};
ghost use Rattle.stm_wire.specs.Frames.{command, get_id_turns};
ghost use Rattle.stm_wire.specs.Reply.{ack};
ghost use Rattle.stm_wire.specs.Command.{Does, IsOkOrLine, owing};

use crate::dialogue::{ACK, expect_byte, receive, send_step};
use crate::{Rig, WireFault};
use byteorder::{BigEndian, ByteOrder};

/// The code of the command.
const GET_ID: u8 = 0x02;

/// Asks for the product id. A device that tells another number of bytes than two is answered as
/// `Garbled`.
///
/// On an honest Rig whose device is settled the answer is its chip's id, the device is as it was,
/// and no fault but `Line` is answered.
pub fn get_id<R: Rig>(rig: &mut R) -> Result<u16, WireFault>
    ensures held { IfOk result
        (λ id. IsHeldToEnd (command 0x02) (get_id_turns (id / 256) (id % 256))
        (R.view rig.old) (R.view rig.new)) }
    ensures broken { IfErr result
        (λ fault. (high : ℕ) × (low : ℕ)
        × BreaksOff fault (command 0x02) (get_id_turns high low)
        (R.view rig.old) (R.view rig.new)) }
    ensures honest { (R.view rig.old).is_honest → IsSettled (R.view rig.old).device
        → Does result
        (λ id. (id ≡ (R.view rig.old).device.chip.id)
        × ((R.view rig.new).device ≡ (R.view rig.old).device)) }
{
    send_step(rig, &[GET_ID, !GET_ID])?;
    receive_id(rig)
}

/// Takes the number of bytes less one, the id, high byte first, and the last acknowledgement.
fn receive_id<R: Rig>(rig: &mut R) -> Result<u16, WireFault>
    ensures held { IfOk result
        (λ id. IsHeldToEnd []
        (Expects 1 ∷ Learns (id / 256) ∷ Learns (id % 256) ∷ Expects ack ∷ [])
        (R.view rig.old) (R.view rig.new)) }
    ensures broken { IfErr result
        (λ fault. (high : ℕ) × (low : ℕ)
        × BreaksOff fault [] (Expects 1 ∷ Learns high ∷ Learns low ∷ Expects ack ∷ [])
        (R.view rig.old) (R.view rig.new)) }
    ensures bytes { (R.view rig.old).is_honest
        → IfOk result
        (λ id. (R.view rig.old).device
        ≡ owing (1 ∷ id / 256 ∷ id % 256 ∷ ack ∷ []) (R.view rig.new).device) }
    ensures line { (R.view rig.old).is_honest → (high low : ℕ)
        → (R.view rig.old).device.owed ≡ 1 ∷ high ∷ low ∷ ack ∷ []
        → IsOkOrLine result }
{
    expect_byte(rig, 1)?;
    let high = receive(rig)?;
    let low = receive(rig)?;
    expect_byte(rig, ACK)?;
    Ok(BigEndian::read_u16(&[high, low]))
}
