// Get (AN3155, section 3.1): code 0x00, which tells the bootloader's version and the codes of its
// commands.
ghost use Rattle.std.specs.Prelude.{◌≡◌, ◌++◌, ◌∷◌, [], ℕ, List, length};
ghost use Rattle.std.specs.Prelude.{take, ◌<◌, ◌≤◌, OnOk, IfOk, IfErr};
ghost use Rattle.stm_wire.specs.Device.{IsSettled};
ghost use Rattle.stm_wire.specs.Dialogue.{learns};
ghost use Rattle.stm_wire.specs.Sending.{IsHeldToEnd, BreaksOff};
ghost use Rattle.stm_wire.specs.Frames.{command, get_turns};
ghost use Rattle.stm_wire.specs.Command.{Does, IsOkOrLine, owing};

use crate::dialogue::{ACK, expect_byte, fill, receive, send_step};
use crate::{Rig, WireFault};

/// The code of the command.
const GET: u8 = 0x00;

/// What a bootloader tells of itself.
#[derive(Clone, Copy, Debug)]
pub struct Commands {
    /// The version byte: the major number in its upper half, the minor one in its lower.
    pub version: u8,
    /// How many codes there are.
    pub count: u8,
    /// The codes of the commands that it supports, in its order: the first `count` of these.
    pub codes: [u8; 256],
}

/// Asks for the version and the codes.
///
/// On an honest Rig whose device is settled the answer is the device's, the device is as it was,
/// and no fault but `Line` is answered.
pub fn get_commands<R: Rig>(rig: &mut R) -> Result<Commands, WireFault>
    ensures held { IfOk result
        (λ c. IsHeldToEnd (command 0x00) (get_turns c.version (take c.count c.codes))
        (R.view rig.old) (R.view rig.new)) }
    ensures broken { IfErr result
        (λ fault. (version : ℕ) × (codes : List ℕ) × (length codes < 256)
        × BreaksOff fault (command 0x00) (get_turns version codes)
        (R.view rig.old) (R.view rig.new)) }
    ensures honest { (R.view rig.old).is_honest → IsSettled (R.view rig.old).device
        → Does result
        (λ c. (c.version ≡ (R.view rig.old).device.version)
        × (take c.count c.codes ≡ (R.view rig.old).device.codes)
        × ((R.view rig.new).device ≡ (R.view rig.old).device)) }
{
    send_step(rig, &[GET, !GET])?;
    let commands = receive_commands(rig)?;
    expect_byte(rig, ACK)?;
    Ok(commands)
}

/// Takes the count, the version and the codes.
fn receive_commands<R: Rig>(rig: &mut R) -> Result<Commands, WireFault>
    ensures held { IfOk result
        (λ c. IsHeldToEnd []
        (learns (length (take c.count c.codes) ∷ c.version ∷ take c.count c.codes))
        (R.view rig.old) (R.view rig.new)) }
    ensures broken { IfErr result
        (λ fault. (version : ℕ) × (codes : List ℕ) × (length codes < 256)
        × BreaksOff fault [] (learns (length codes ∷ version ∷ codes))
        (R.view rig.old) (R.view rig.new)) }
    ensures bytes { (R.view rig.old).is_honest
        → IfOk result
        (λ c. (R.view rig.old).device
        ≡ owing (length (take c.count c.codes) ∷ c.version ∷ take c.count c.codes)
        (R.view rig.new).device) }
    ensures line { (R.view rig.old).is_honest → (version : ℕ) (codes rest : List ℕ)
        → (R.view rig.old).device.owed ≡ length codes ∷ version ∷ (codes ++ rest)
        → IsOkOrLine result }
{
    let count = receive(rig)?;
    let version = receive(rig)?;
    let mut codes = [0; 256];
    receive_codes(rig, count, &mut codes)?;
    Ok(Commands {
        version,
        count,
        codes,
    })
}

/// Takes so many codes into the front of the array.
fn receive_codes<R: Rig>(rig: &mut R, count: u8, codes: &mut [u8; 256]) -> Result<(), WireFault>
    ensures size { length (take count codes.new) ≡ count }
    ensures held { OnOk result
        (IsHeldToEnd [] (learns (take count codes.new)) (R.view rig.old) (R.view rig.new)) }
    ensures broken { IfErr result
        (λ fault. (answer : List ℕ) × (length answer ≡ count)
        × BreaksOff fault [] (learns answer) (R.view rig.old) (R.view rig.new)) }
    ensures bytes { (R.view rig.old).is_honest
        → OnOk result
        ((R.view rig.old).device ≡ owing (take count codes.new) (R.view rig.new).device) }
    ensures line { (R.view rig.old).is_honest → count ≤ length (R.view rig.old).device.owed
        → IsOkOrLine result }
{
    fill(rig, &mut codes[..usize::from(count)])
}
