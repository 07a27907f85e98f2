// The simulator: one device of the model, in memory.
ghost use Rattle.std.specs.Prelude.{if◌then◌else◌, ◌≡◌, ◌+◌, ◌<◌, ◌≤◌, ◌∷◌, [], List, ℕ};
ghost use Rattle.std.specs.Prelude.{length, OnOk, OnErr, MatchOption, IsTrue, ◌↔◌, vec_len};
ghost use Rattle.std.specs.Vec.{vec_capacity};
ghost use Rattle.std.specs.VecDeque.{deque_len, deque_capacity};
ghost use Rattle.stm_wire.specs.Chip.{flash_size, page_count, page_size};
ghost use Rattle.stm_wire.specs.Device.{Device, Connected, Gone, IsDevice, reset};
ghost use Rattle.stm_wire.specs.PowerLoss.{powered_again};
ghost use Rattle.stm_wire.specs.Rig.{GetsFirst};
ghost use Rattle.stm_wire.specs.Reply.{ack, step_reply};
ghost use Rattle.stm_wire.specs.Exchange.{verdict};
ghost use Rattle.stm_sim.specs.Rest.{IsCurrent};
ghost use Rattle.stm_sim.specs.Simulator.{simulated_device, after_verdict, after_loose};
ghost use Rattle.stm_sim.specs.Simulator.{device_of, simulator_codes, simulator_version};

mod effect;
mod reply;
mod rest;

use effect::change_flash;
use reply::{REPLY_ROOM, reply_to_done};
use rest::Rest;
use std::alloc::{AllocError, Global};
use std::collections::VecDeque;
use std::marker::Model;
use stm_wire::{Chip, EraseKind, Verdict};

/// Where the device stands: public, since the definitions of the simulator go over it.
#[derive(Clone, Copy, Debug, PartialEq, Eq)]
pub enum Stage {
    Fresh,
    Connected,
    Gone,
}

fn version_of(kind: EraseKind) -> u8
    ensures { result ≡ simulator_version kind }
{
    match kind {
        EraseKind::Page => 0x22,
        EraseKind::Extended => 0x31,
    }
}

fn codes_of(kind: EraseKind) -> [u8; 9]
    ensures { result ≡ simulator_codes kind }
{
    match kind {
        EraseKind::Page => [0x00, 0x02, 0x11, 0x21, 0x31, 0x43, 0x73, 0x82, 0x92],
        EraseKind::Extended => [0x00, 0x02, 0x11, 0x21, 0x31, 0x44, 0x73, 0x82, 0x92],
    }
}

/// Whether an open list ends a step that is acknowledged.
fn ends_step(bytes: &[u8]) -> bool
    ensures { step_reply bytes.now ≡ (if result then ack ∷ [] else []) }
{
    match bytes {
        [_, _] => true,
        [code, _, _, _, _, _, _] => *code == 0x11 || *code == 0x31,
        _ => false,
    }
}

/// Does what a done list asks: answers, changes the flash, and waits for the next list or is gone.
fn finish_done(
    chip: &Chip,
    flash: &mut Vec<u8>,
    owed: &mut VecDeque<u8>,
    rest: &mut Rest,
    stage: &mut Stage,
)
    requires room { deque_len owed.old + REPLY_ROOM ≤ deque_capacity owed.old }
    requires size { length flash.old.items ≡ flash_size chip.now }
    requires connected { stage.old ≡ Stage.Connected }
    requires done { verdict chip.now (simulator_codes chip.now.kind) rest.old.bytes.items
        ≡ Some Verdict.Done }
    ensures device { device_of chip.now flash.new.items owed.new.items
        rest.new.bytes.items stage.new
        ≡ after_verdict (device_of chip.now flash.old.items owed.old.items [] Stage.Connected)
        rest.old.bytes.items (Some Verdict.Done) }
    ensures current { IsCurrent chip.now (simulator_codes chip.now.kind) rest.new }
{
    let codes = codes_of(chip.kind());
    let bytes = rest.bytes();
    reply_to_done(owed, chip, version_of(chip.kind()), &codes, flash, bytes);
    change_flash(chip, flash, bytes);
    if let [0x21, ..] = bytes {
        *stage = Stage::Gone;
    }
    rest.clear();
}

/// Does what this device does with a list of which nothing is promised.
fn finish_loose(
    chip: &Chip,
    flash: &mut Vec<u8>,
    owed: &mut VecDeque<u8>,
    rest: &mut Rest,
    stage: &mut Stage,
)
    requires room { deque_len owed.old + 2 ≤ deque_capacity owed.old }
    requires some { 1 ≤ length rest.old.bytes.items }
    requires connected { stage.old ≡ Stage.Connected }
    ensures device { device_of chip.now flash.new.items owed.new.items
        rest.new.bytes.items stage.new
        ≡ after_loose (device_of chip.now flash.old.items owed.old.items [] Stage.Connected)
        rest.old.bytes.items }
    ensures current { IsCurrent chip.now (simulator_codes chip.now.kind) rest.new }
{
    let code = rest.bytes()[0];
    if code == 0x73 || code == 0x82 || code == 0x92 {
        if code == 0x92 {
            flash.fill(chip.erased());
        }
        owed.push_back_reserved(0x79);
        owed.push_back_reserved(0x79);
        *stage = Stage::Fresh;
    } else {
        owed.push_back_reserved(0x1F);
    }
    rest.clear();
}

/// Feeds a byte to a connected device. There is room for its reply.
#[tactic(auto, unfolding(crate::specs::Simulator::simulated_device))]
fn feed_connected(
    chip: &Chip,
    flash: &mut Vec<u8>,
    owed: &mut VecDeque<u8>,
    rest: &mut Rest,
    stage: &mut Stage,
    byte: u8,
)
    requires room { deque_len owed.old + REPLY_ROOM ≤ deque_capacity owed.old }
    requires rest_room { vec_len rest.old.bytes < vec_capacity rest.old.bytes }
    requires current { IsCurrent chip.now (simulator_codes chip.now.kind) rest.old }
    requires size { length flash.old.items ≡ flash_size chip.now }
    requires connected { stage.old ≡ Stage.Connected }
    ensures device { device_of chip.now flash.new.items owed.new.items
        rest.new.bytes.items stage.new
        ≡ simulated_device byte
        (device_of chip.now flash.old.items owed.old.items rest.old.bytes.items stage.old) }
    ensures current { IsCurrent chip.now (simulator_codes chip.now.kind) rest.new }
{
    let codes = codes_of(chip.kind());
    match rest.push(chip, &codes, byte) {
        None => {
            if ends_step(rest.bytes()) {
                owed.push_back_reserved(0x79);
            }
        }
        Some(Verdict::Refused) => {
            owed.push_back_reserved(0x1F);
            rest.clear();
        }
        Some(Verdict::Done) => finish_done(chip, flash, owed, rest, stage),
        Some(Verdict::Loose) => finish_loose(chip, flash, owed, rest, stage),
    }
}

/// Feeds a byte to a device. There is room for its reply.
#[tactic(auto, unfolding(crate::specs::Simulator::simulated_device))]
fn feed(
    chip: &Chip,
    flash: &mut Vec<u8>,
    owed: &mut VecDeque<u8>,
    rest: &mut Rest,
    stage: &mut Stage,
    byte: u8,
)
    requires room { deque_len owed.old + REPLY_ROOM ≤ deque_capacity owed.old }
    requires rest_room { vec_len rest.old.bytes < vec_capacity rest.old.bytes }
    requires current { IsCurrent chip.now (simulator_codes chip.now.kind) rest.old }
    requires size { length flash.old.items ≡ flash_size chip.now }
    ensures device { device_of chip.now flash.new.items owed.new.items
        rest.new.bytes.items stage.new
        ≡ simulated_device byte
        (device_of chip.now flash.old.items owed.old.items rest.old.bytes.items stage.old) }
    ensures current { IsCurrent chip.now (simulator_codes chip.now.kind) rest.new }
{
    match *stage {
        Stage::Fresh => {
            if byte == 0x7F {
                owed.push_back_reserved(0x79);
                rest.clear();
                *stage = Stage::Connected;
            }
        }
        Stage::Gone => {}
        Stage::Connected => feed_connected(chip, flash, owed, rest, stage, byte),
    }
}

/// A device in memory that follows the model, with each choice made that the model leaves open.
#[derive(Drop)]
pub struct Simulator {
    chip: Chip,
    flash: Vec<u8>,
    owed: VecDeque<u8>,
    rest: Rest,
    stage: Stage,
}

impl Model for Simulator {
    ghost Value = { Device };

    ghost view = { λ s. device_of s.chip s.flash.items s.owed.items s.rest.bytes.items s.stage };

    ghost invariant = { λ s.
        IsDevice (device_of s.chip s.flash.items s.owed.items s.rest.bytes.items s.stage)
        × IsCurrent s.chip (simulator_codes s.chip.kind) s.rest };
}

impl Simulator {
    /// A fresh device with this flash.
    pub fn new(alloc: Global, chip: Chip, flash: Vec<u8>) -> Simulator
        requires { length flash.items ≡ flash_size chip }
        ensures { result ≡ device_of chip flash.items [] [] Stage.Fresh }
    {
        let _ = chip.flash_size();
        Simulator {
            chip,
            flash,
            owed: VecDeque::new(alloc),
            rest: Rest::new(alloc),
            stage: Stage::Fresh,
        }
    }

    /// Feeds a byte. At `Err`, where memory for it or its reply is refused, the device is as it
    /// was.
    pub fn feed(&mut self, byte: u8) -> Result<(), AllocError>
        ensures fed { OnOk result (self.new ≡ simulated_device byte self.old) }
        ensures same { OnErr result (self.new ≡ self.old) }
    {
        self.owed.reserve(REPLY_ROOM)?;
        self.rest.reserve()?;
        feed(
            &self.chip,
            &mut self.flash,
            &mut self.owed,
            &mut self.rest,
            &mut self.stage,
            byte,
        );
        Ok(())
    }

    /// Takes the first byte owed.
    pub fn take(&mut self) -> Option<u8>
        ensures { GetsFirst result self.old self.new }
    {
        self.owed.pop_front()
    }

    /// Whether it owes a byte.
    pub fn owes(&self) -> bool
        ensures { IsTrue result ↔ (0 < length self.now.owed) }
    {
        !self.owed.is_empty()
    }

    /// Makes it fresh, with the same flash, owing nothing.
    pub fn reset(&mut self)
        ensures { self.new ≡ reset self.old }
    {
        self.rest.clear();
        self.owed.clear();
        self.stage = Stage::Fresh;
    }

    /// Makes it fresh, owing nothing, with these bytes as page `n`, whatever that held: what a loss
    /// of power inside an erase or a write of this page may leave.
    pub fn lose_power(&mut self, n: u16, page: &[u8])
        requires exists { n < page_count self.old.chip }
        requires size { length page.now ≡ page_size self.old.chip n }
        ensures lost { self.new ≡ powered_again n page.now self.old }
        ensures device { IsDevice self.new }
    {
        let at = (self.chip.page_start(n) - self.chip.base()) as usize;
        self.flash[at..at + page.len()].copy_from_slice(page);
        self.reset();
    }

    pub fn chip(&self) -> &Chip
        ensures { result.now ≡ self.now.chip }
    {
        &self.chip
    }

    pub fn flash(&self) -> &[u8]
        ensures { result.now ≡ self.now.flash }
    {
        &self.flash
    }

    /// The bytes since the last verdict, where it is connected.
    pub fn rest(&self) -> Option<&[u8]>
        ensures { MatchOption result
            ((rest : List ℕ) → self.now.phase ≡ Connected rest → ⊥)
            (λ rest. self.now.phase ≡ Connected rest.now) }
    {
        match self.stage {
            Stage::Connected => Some(self.rest.bytes()),
            _ => None,
        }
    }

    /// Whether it left the bootloader.
    pub fn is_gone(&self) -> bool
        ensures { IsTrue result ↔ (self.now.phase ≡ Gone) }
    {
        matches!(self.stage, Stage::Gone)
    }
}
