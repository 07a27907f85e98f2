// What is known of a device whose exchange is watched.
ghost use Rattle.std.specs.Prelude.{◌≡◌, ◌+◌, ◌≤◌, ◌++◌, ◌∷◌, [], OnOk, IfOk, OnErr, IsTrue};
ghost use Rattle.std.specs.Prelude.{length, MatchOption, Some, None};
ghost use Rattle.stm_wire.specs.Chip.{flash_size};
ghost use Rattle.stm_wire.specs.Exchange.{verdict};
ghost use Rattle.stm_wire.specs.Reply.{ack, step_reply};
ghost use Rattle.stm_watch.specs.Known.{Known, IsFed, IsWhole, known_of, known_at_first};
ghost use Rattle.stm_watch.specs.Known.{fed, heard, is_due, judged, lost, may_hold};
ghost use Rattle.stm_watch.specs.Known.{is_due_of, heard_of, first_due, address_due};

use crate::change::change_all;
use crate::replies::{count_read, place_read, sight_after, step_ends, tell};
use crate::sight::Sight;
use std::alloc::{AllocError, Global};
use std::marker::Model;
use stm_wire::{Chip, EraseKind, Verdict, verdict_of};

/// What is known of a device whose exchange is watched: where it stands, what it owes, and each
/// byte of its flash that was read, written or erased.
#[derive(Drop)]
pub struct Watch {
    chip: Chip,
    version: u8,
    codes: Vec<u8>,
    flash: Vec<Option<u8>>,
    list: Vec<u8>,
    due: Vec<u8>,
    at: usize,
    count: usize,
    sight: Sight,
}

impl Model for Watch {
    ghost Value = { Known };

    ghost view = { λ w. known_of w.chip w.version w.codes.items w.flash.items w.list.items
        w.due.items w.at w.count w.sight };

    ghost invariant = { λ w. IsWhole (known_of w.chip w.version w.codes.items w.flash.items
        w.list.items w.due.items w.at w.count w.sight) };
}

/// Whether a place of which this is known may hold this byte.
fn may_hold(byte: u8, place: Option<u8>) -> bool
    ensures { result ≡ may_hold byte place }
{
    match place {
        Some(known) => known == byte,
        None => true,
    }
}

/// Takes the first of these bytes.
fn take_first(bytes: &mut Vec<u8>) -> Option<u8>
    ensures { MatchOption result ((bytes.old.items ≡ []) × (bytes.new.items ≡ []))
        (λ byte. bytes.old.items ≡ byte ∷ bytes.new.items) }
{
    if bytes.is_empty() {
        None
    } else {
        Some(bytes.remove(0))
    }
}

impl Watch {
    /// Of a settled device with this chip, this version and these codes, of whose flash nothing is
    /// known.
    pub fn new(alloc: Global, chip: Chip, version: u8, codes: Vec<u8>) -> Result<Watch, AllocError>
        requires { length codes.items ≤ 255 }
        ensures { IfOk result (λ w. w ≡ known_at_first chip version codes.items) }
    {
        let size = chip.flash_size() as usize;
        let flash = vec![in alloc; None; size]?;
        Ok(Watch {
            chip,
            version,
            codes,
            flash,
            list: Vec::new(alloc),
            due: Vec::new(alloc),
            at: 0,
            count: 0,
            sight: Sight::Follows,
        })
    }

    /// Of a device of which nothing is known: any reply passes. Its chip is any.
    pub fn of_nothing(alloc: Global) -> Result<Watch, AllocError>
        ensures { IfOk result (λ w. w.sight ≡ Sight.Lost) }
    {
        let sizes = vec![in alloc; 256; 1]?;
        let Some(chip) = Chip::new(0, 0x0800_0000, sizes, EraseKind::Page, 0xFF) else {
            unreachable!()
        };
        let mut watch = Watch::new(alloc, chip, 0, Vec::new(alloc))?;
        watch.lose();
        Ok(watch)
    }

    /// Whether anything is known: while that is so, no reply passes but one that may come.
    pub fn is_watching(&self) -> bool
        ensures { IsTrue result → self.now.sight ≡ Sight.Lost → ⊥ }
    {
        !matches!(self.sight, Sight::Lost)
    }

    /// Nothing is known from here on.
    pub fn lose(&mut self)
        ensures { self.new ≡ lost self.old }
    {
        self.sight = Sight::Lost;
    }

    /// Takes a byte that was sent.
    pub fn feed(&mut self, byte: u8)
        ensures { IsFed byte self.old self.new }
    {
        if self.count != 0 {
            self.lose();
            return;
        }
        if let Sight::Follows = self.sight {
            if self.follow(byte).is_err() {
                self.lose();
            }
        }
    }

    /// Takes a byte that was sent to a connected device that owes no byte of its flash.
    fn follow(&mut self, byte: u8) -> Result<(), AllocError>
        requires connected { self.old.sight ≡ Sight.Follows }
        requires told { self.old.count ≡ 0 }
        ensures { OnOk result (IsFed byte self.old self.new) }
    {
        match self.push(byte)? {
            None => self.wait(),
            Some(Verdict::Refused) => self.refuse(),
            Some(Verdict::Done) => self.finish(),
            Some(Verdict::Loose) => {
                self.lose();
                Ok(())
            }
        }
    }

    /// Adds a byte to the list, and answers the list's verdict.
    fn push(&mut self, byte: u8) -> Result<Option<Verdict>, AllocError>
        ensures { IfOk result (λ v.
            (self.new ≡ record self.old { list = self.old.list ++ byte ∷ [] })
            × (v ≡ verdict self.old.chip self.old.codes (self.old.list ++ byte ∷ []))) }
    {
        self.list.push(byte)?;
        Ok(verdict_of(&self.chip, &self.codes, &self.list))
    }

    /// The list is open: what ends a step is acknowledged.
    fn wait(&mut self) -> Result<(), AllocError>
        ensures { OnOk result (self.new ≡ judged None self.old.list self.old) }
    {
        self.at = 0;
        self.count = 0;
        if step_ends(&self.list) {
            self.due.push(0x79)?;
        }
        Ok(())
    }

    /// The list is refused.
    fn refuse(&mut self) -> Result<(), AllocError>
        ensures { OnOk result (self.new ≡ judged (Some Verdict.Refused) self.old.list self.old) }
    {
        self.at = 0;
        self.count = 0;
        self.list.clear();
        self.due.push(0x1F)?;
        Ok(())
    }

    /// The list is done.
    fn finish(&mut self) -> Result<(), AllocError>
        requires { verdict self.old.chip self.old.codes self.old.list ≡ Some Verdict.Done }
        ensures { OnOk result (self.new ≡ judged (Some Verdict.Done) self.old.list self.old) }
    {
        let bytes = self.list.as_slice();
        tell(&mut self.due, &self.chip, self.version, &self.codes, bytes)?;
        change_all(&self.chip, &mut self.flash, bytes);
        self.at = place_read(&self.chip, bytes);
        self.count = count_read(&self.chip, bytes);
        self.sight = sight_after(bytes);
        self.list.clear();
        Ok(())
    }

    /// The byte that has to come next, where only one may.
    pub fn due(&self) -> Option<u8>
        ensures { result ≡ first_due self.now self.now.due }
    {
        match self.due.first() {
            Some(due) => Some(*due),
            None => {
                if self.count == 0 {
                    None
                } else {
                    self.flash[self.at]
                }
            }
        }
    }

    /// The address of the byte of the flash that has to come next, where one has.
    pub fn address(&self) -> Option<u32>
        ensures { result ≡ address_due self.now self.now.due }
    {
        if !self.due.is_empty() || self.count == 0 {
            return None;
        }
        Some(self.chip.base() + self.at as u32)
    }

    /// Takes a byte that came, and answers whether it may come.
    pub fn hear(&mut self, byte: u8) -> bool
        ensures whole { IsWhole self.old }
        ensures due { result ≡ is_due byte self.old }
        ensures heard { IsTrue result → self.new ≡ heard byte self.old }
    {
        match self.sight {
            Sight::Lost => true,
            Sight::Follows => self.hear_due(byte),
            Sight::Left => self.hear_due(byte),
        }
    }

    /// Takes a byte that came of a device of which something is known.
    fn hear_due(&mut self, byte: u8) -> bool
        ensures due { result ≡ is_due_of self.old self.old.due byte }
        ensures heard { IsTrue result → self.new ≡ heard_of self.old self.old.due byte }
    {
        match take_first(&mut self.due) {
            Some(due) => due == byte,
            None => self.hear_flash(byte),
        }
    }

    /// Takes a byte that came where nothing is due but bytes of the flash.
    fn hear_flash(&mut self, byte: u8) -> bool
        ensures due { result ≡ is_due_of self.old [] byte }
        ensures heard { IsTrue result → self.new ≡ heard_of self.old [] byte }
    {
        let is_due = self.count != 0 && may_hold(byte, self.flash[self.at]);
        if is_due {
            self.flash[self.at] = Some(byte);
            self.at += 1;
            self.count -= 1;
        }
        is_due
    }
}
