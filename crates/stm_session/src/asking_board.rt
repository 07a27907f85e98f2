// Asking a device which board it is, and what size its flash has.
ghost use Rattle.std.specs.Prelude.{◌≡◌, ◌≤◌, Bool, ℕ, List, IsTrue, length};
ghost use Rattle.std.specs.Prelude.{IfErr, IfOk, IfSome, Option, Some, ◌+◌, ◌==◌};
ghost use Rattle.std.specs.List.{list_all};
ghost use Rattle.stm_wire.specs.declared.places.UniquePlace.{UniquePlace as PlaceData};
ghost use Rattle.stm_wire.specs.Chip.{ChipData};
ghost use Rattle.stm_wire.specs.Device.{IsSettled};
ghost use Rattle.stm_wire.specs.Dialogue.{GoesOn};
ghost use Rattle.stm_wire.specs.Parts.{AreFew, IsPart};
ghost use Rattle.stm_wire.specs.Refused.{IsTold};
ghost use Rattle.stm_wire.specs.UniqueId.{is_unique_length};
ghost use Rattle.stm_session.specs.Asking.{Asks};
ghost use Rattle.stm_session.specs.AskingBoard.{AsksSettled, AsksSize, AsksUnique, IsAnswered};
ghost use Rattle.stm_session.specs.AskingBoard.{came_in, most_of_asking, places_in};
ghost use Rattle.stm_session.specs.AskingBoard.{size_in, size_told, unique_told};
ghost use Rattle.stm_session.specs.Fault.{HasSessionCause, IsOfLine};
ghost use Rattle.stm_session.specs.Order.{Step, Begin, IsInOrder, FaultEnds};
ghost use Rattle.stm_session.specs.Reaching.{IsAsked};
ghost use Rattle.stm_session.specs.Sending.{is_whole};
ghost use Rattle.stm_session.specs.ToldBoard.{IsBoardOf, ToldBoardIsTheDevices, chip_of_board};
ghost use Rattle.stm_session.specs.ToldBoard.{size_of, unique_of};
ghost use Rattle.stm_session.specs.Unwritten.{AppendsNothing};

use crate::Fault;
use crate::contact::ask;
use stm_chip::Table;
use stm_wire::{
    BoardPlaces, Chip, Rig, UniqueId, UniquePlace, read_unless_refused,
    refusable_reads_are_harmless, sending_is_harmless,
};

/// What a device told of itself.
#[derive(Clone, Copy, Debug)]
pub struct Board {
    /// Its product id.
    pub id: u16,
    /// Its unique id, or none where it told none.
    pub unique: UniqueId,
    /// How many KiB its flash has, or None where it told none.
    pub size: Option<u16>,
}

impl Board {
    /// A chip of the table as the chip of this board: of its unique id, and with the pages that lie
    /// inside the size that it told; with all where it told none.
    pub fn chip_of(self, chip: Chip) -> Chip
        ensures { result ≡ chip_of_board chip self }
    {
        let cut = match self.size {
            Some(kib) => chip.cut(u32::from(kib)),
            None => chip,
        };
        cut.of_board(self.unique)
    }
}

/// A law, which does nothing: where a device has the pages of the table's chip that lie inside the
/// size that it tells, what it told of its board makes that chip its own.
pub fn told_board_is_the_devices()
    ensures { ToldBoardIsTheDevices }
{}

/// Whether each of these bytes is this one.
fn are_all(bytes: &[u8], byte: u8) -> bool
    ensures { result ≡ list_all (λ b. b == byte) bytes.now }
{
    bytes.iter().all(|b| *b == byte)
}

/// The unique id that is told by these bytes, where they came. None is by FF alone, or 00 alone:
/// nobody has written there.
fn unique_in(is_told: bool, bytes: &[u8]) -> UniqueId
    requires { IsTrue (is_unique_length (length bytes.now)) }
    ensures { result ≡ unique_told (came_in is_told bytes.now) }
{
    if !is_told || are_all(bytes, 0xFF) || are_all(bytes, 0) {
        return UniqueId::none();
    }
    match UniqueId::of(bytes) {
        Some(unique) => unique,
        None => unreachable!(),
    }
}

/// How many KiB these bytes tell, where they came: none by 0 and FFFF.
fn size_in(is_told: bool, bytes: [u8; 2]) -> Option<u16>
    ensures { result ≡ size_told (came_in is_told bytes) }
{
    let size = u16::from_le_bytes(bytes);
    if !is_told || size == 0 || size == 0xFFFF {
        None
    } else {
        Some(size)
    }
}

/// Asks a settled device for the bytes at an address, unless it refuses that: whether it told them.
pub fn ask_place<R: Rig>(rig: &mut R, address: u32, buf: &mut [u8]) -> Result<bool, Fault>
    requires some { 1 ≤ length buf.old }
    requires limit { length buf.old ≤ 256 }
    ensures size { length buf.new ≡ length buf.old }
    ensures unwritten { let old = R.view rig.old in let new = R.view rig.new in
        GoesOn AppendsNothing old.calls new.calls }
    ensures cause { let old = R.view rig.old in let new = R.view rig.new in
        HasSessionCause old new result }
    ensures few { let old = R.view rig.old in let new = R.view rig.new in
        GoesOn (AreFew (12 + length buf.old)) old.calls new.calls }
    // At the place of a chip's unique id no other frame is put, or of that no more than its head.
    ensures puts { let old = R.view rig.old in let new = R.view rig.new in
        (chip : ChipData) (place : PlaceData) → chip.places.unique ≡ Some place
        → address ≡ place.address → length buf.old ≡ place.length
        → GoesOn (IsPart (Some chip) (is_whole result) (12 + length buf.old))
        old.calls new.calls }
    ensures order { let old = R.view rig.old in let new = R.view rig.new in
        (torn : Bool) → IfOk result (λ told. (steps : List Step)
        × IsAsked address (length buf.old) (came_in told buf.new) steps
        × GoesOn (IsInOrder torn steps) old.calls new.calls) }
    ensures stops { let old = R.view rig.old in let new = R.view rig.new in
        (torn : Bool) → FaultEnds (Begin (λ steps. (came : Option (List ℕ))
        × IsAsked address (length buf.old) came steps)) torn old new result }
    ensures sent { IfErr result IsOfLine }
    ensures kept { let old = R.view rig.old in let new = R.view rig.new in
        old.is_honest → new.journal ≡ old.journal }
    ensures honest { let old = R.view rig.old in let new = R.view rig.new in
        old.is_honest → IsSettled old.device → Asks old new result
        (λ told. IsTold address (length buf.old) buf.new old.device told) }
{
    refusable_reads_are_harmless();
    let is_told = read_unless_refused(rig, address, buf)?;
    Ok(is_told)
}

/// Asks a settled device for its unique id, where its place is known.
fn ask_unique<R: Rig>(rig: &mut R, place: Option<UniquePlace>) -> Result<UniqueId, Fault>
    requires { IfSome place (λ p. IsTrue (is_unique_length p.length)) }
    ensures { let old = R.view rig.old in let new = R.view rig.new in
        AsksSettled 44 (AsksUnique place)
        (λ unique. place ≡ old.device.chip.places.unique → unique ≡ unique_of old.device.chip)
        old new result }
{
    sending_is_harmless();
    let Some(place) = place else {
        return Ok(UniqueId::none());
    };
    let mut held = [0u8; 32];
    let bytes = &mut held[..usize::from(place.length)];
    let is_told = ask_place(rig, place.address, bytes)?;
    Ok(unique_in(is_told, bytes))
}

/// Asks a settled device for the size of its flash, where its place is known.
fn ask_size<R: Rig>(rig: &mut R, place: Option<u32>) -> Result<Option<u16>, Fault>
    ensures { let old = R.view rig.old in let new = R.view rig.new in
        AsksSettled 14 (AsksSize place)
        (λ size. place ≡ old.device.chip.places.size → size ≡ size_of old.device.chip)
        old new result }
{
    sending_is_harmless();
    let Some(address) = place else {
        return Ok(None);
    };
    let mut bytes = [0u8; 2];
    let is_told = ask_place(rig, address, &mut bytes)?;
    Ok(size_in(is_told, bytes))
}

/// Where a device with this id tells its board, by the table.
fn places_in(table: &Table, id: u16) -> BoardPlaces
    ensures places { result ≡ places_in table.now id }
    ensures unique { IfSome result.unique (λ place. IsTrue (is_unique_length place.length)) }
{
    match table.find(id) {
        Some(chip) => {
            chip.keeps_limits();
            chip.places()
        }
        None => BoardPlaces::none(),
    }
}

/// Asks a settled device who it is, and which board.
pub fn ask_settled<R: Rig>(rig: &mut R, table: &Table) -> Result<Board, Fault>
    ensures { let old = R.view rig.old in let new = R.view rig.new in
        AsksSettled most_of_asking (IsAnswered table.now)
        (IsBoardOf table.now old.device.chip) old new result }
{
    let told = ask(rig)?;
    let places = places_in(table, told.id);
    let unique = ask_unique(rig, places.unique)?;
    let size = ask_size(rig, places.size)?;
    Ok(Board {
        id: told.id,
        unique,
        size,
    })
}
