// Erase Memory and Extended Erase Memory (AN3155, sections 3.7 and 3.8): codes 0x43 and 0x44, here
// always of one page.
ghost use Rattle.std.specs.Prelude.{◌≡◌, ◌<◌, ◌/◌, ◌%◌, ◌∷◌, [], OnOk, IfErr};
ghost use Rattle.stm_wire.specs.Chip.{page_limit};
ghost use Rattle.stm_wire.specs.Sending.{IsHeldToEnd, BreaksOff};
ghost use Rattle.stm_wire.specs.Frames.{erase_frame, erase_turns, with_checksum};
ghost use Rattle.stm_wire.specs.Command.{CanErase, Does, with_pages_erased};

use crate::dialogue::send_step;
use crate::{EraseKind, Rig, WireFault};

/// The code of the command whose page numbers have one byte.
const ERASE_MEMORY: u8 = 0x43;

/// The code of the command whose page numbers have two bytes.
const EXTENDED_ERASE_MEMORY: u8 = 0x44;

/// Erases page `n` by the command of this kind.
///
/// On an honest Rig whose device is settled, has that kind and has the page, all bytes of the page
/// are erased, the rest of the flash is the same, and no fault but `Line` is answered.
pub fn erase_page<R: Rig>(rig: &mut R, kind: EraseKind, n: u16) -> Result<(), WireFault>
    requires { n < page_limit kind }
    ensures held { OnOk result
        (IsHeldToEnd (erase_frame kind n) (erase_turns kind n) (R.view rig.old) (R.view rig.new)) }
    ensures broken { IfErr result
        (λ fault. BreaksOff fault (erase_frame kind n) (erase_turns kind n)
        (R.view rig.old) (R.view rig.new)) }
    ensures honest { (R.view rig.old).is_honest → CanErase kind n (R.view rig.old).device
        → Does result
        (λ _. (R.view rig.new).device ≡ with_pages_erased (n ∷ []) (R.view rig.old).device) }
{
    match kind {
        EraseKind::Page => erase_byte_page(rig, n as u8),
        EraseKind::Extended => erase_pair_page(rig, n),
    }
}

/// Erases a page by the command whose page numbers have one byte.
fn erase_byte_page<R: Rig>(rig: &mut R, n: u8) -> Result<(), WireFault>
    ensures held { OnOk result
        (IsHeldToEnd (erase_frame EraseKind.Page n) (erase_turns EraseKind.Page n)
        (R.view rig.old) (R.view rig.new)) }
    ensures broken { IfErr result
        (λ fault. BreaksOff fault (erase_frame EraseKind.Page n) (erase_turns EraseKind.Page n)
        (R.view rig.old) (R.view rig.new)) }
    ensures honest { (R.view rig.old).is_honest
        → CanErase EraseKind.Page n (R.view rig.old).device
        → Does result
        (λ _. (R.view rig.new).device ≡ with_pages_erased (n ∷ []) (R.view rig.old).device) }
{
    send_step(rig, &[ERASE_MEMORY, !ERASE_MEMORY])?;
    send_step(rig, &[0, n, n])
}

/// Erases a page by the command whose page numbers have two bytes.
fn erase_pair_page<R: Rig>(rig: &mut R, n: u16) -> Result<(), WireFault>
    ensures held { OnOk result
        (IsHeldToEnd (erase_frame EraseKind.Extended n) (erase_turns EraseKind.Extended n)
        (R.view rig.old) (R.view rig.new)) }
    ensures broken { IfErr result
        (λ fault. BreaksOff fault (erase_frame EraseKind.Extended n)
        (erase_turns EraseKind.Extended n) (R.view rig.old) (R.view rig.new)) }
    ensures honest { (R.view rig.old).is_honest
        → CanErase EraseKind.Extended n (R.view rig.old).device
        → Does result
        (λ _. (R.view rig.new).device ≡ with_pages_erased (n ∷ []) (R.view rig.old).device) }
{
    send_step(rig, &[EXTENDED_ERASE_MEMORY, !EXTENDED_ERASE_MEMORY])?;
    send_step(rig, &pages_step(n))
}

/// The bytes that name one page: how many pages less one, the page, each in two bytes, and their
/// checksum.
fn pages_step(n: u16) -> [u8; 5]
    ensures { result ≡ with_checksum (0 ∷ 0 ∷ n / 256 ∷ n % 256 ∷ []) }
{
    let [high, low] = n.to_be_bytes();
    [0, 0, high, low, high ^ low]
}
