// The protections of a served simulator, which follows the model, and that knows none: where a byte
// would complete what one forbids, it is fed the complement, a wrong check, and refuses by itself.
ghost use Rattle.std.specs.Prelude.{◌≡◌, IfOk, IsTrue, false, fold, bit_xor, length};
ghost use Rattle.stm_wire.specs.Effect.{change_of, erase_change, extended_change, write_change};
ghost use Rattle.stm_wire.specs.Exchange.{is_listed, two_byte_numbers, xor};
ghost use Rattle.stm_files.specs.Replies.{telling_begun, completes};
ghost use Rattle.stmflash.specs.Protections.{Bars, Protected, Spares, changes_any, changes_page};
ghost use Rattle.stmflash.specs.Protections.{all_check, check_due, completes_barred, completes_change};
ghost use Rattle.stmflash.specs.Protections.{erase_check, extended_check, fed_behind};
ghost use Rattle.stmflash.specs.Protections.{fed_unreadable, fed_while_protected, guarding, is_check};
ghost use Rattle.stmflash.specs.Protections.{is_unprotected, protected_behind, reaches, write_check};

use std::alloc::Global;
use std::marker::Model;
use stm_files::tell_all;
use stm_sim::Simulator;
use stm_wire::{Chip, part};
use stm_words::{Served, UsageFault};
use stm_work::Failure;

/// The exclusive-or of a byte and these.
fn xor_from(first: u8, bytes: &[u8]) -> u8
    ensures { result ≡ fold bit_xor first bytes.now }
{
    bytes.iter().fold(first, |check, byte| check ^ *byte)
}

/// The check that a write lacks behind its code and the complement, where it lacks nothing else
/// (AN3155, section 3.6).
fn write_check(rest: &[u8]) -> Option<u8>
    ensures { result ≡ write_check rest.now }
{
    match rest {
        [_, _, _, _, _, n, data @ ..] if data.len() == usize::from(*n) + 1 => {
            Some(xor_from(*n, data))
        }
        _ => None,
    }
}

/// The check that an erase of all pages lacks, where nothing came behind their count.
fn all_check(rest: &[u8]) -> Option<u8>
    ensures { result ≡ all_check rest.now }
{
    if rest.is_empty() { Some(0) } else { None }
}

/// The check that an erase lacks behind its code and the complement, where it lacks nothing else
/// (AN3155, section 3.7).
fn erase_check(rest: &[u8]) -> Option<u8>
    ensures { result ≡ erase_check rest.now }
{
    match rest {
        [0xFF, pages @ ..] => all_check(pages),
        [n, pages @ ..] if pages.len() == usize::from(*n) + 1 => Some(xor_from(*n, pages)),
        _ => None,
    }
}

/// The same, where numbers have two bytes (AN3155, section 3.8).
fn extended_check(rest: &[u8]) -> Option<u8>
    ensures { result ≡ extended_check rest.now }
{
    match rest {
        [high, low, pages @ ..] => {
            let count = usize::from(*high) * 256 + usize::from(*low);
            if count == 0xFFFF {
                all_check(pages)
            } else if pages.len() == 2 * (count + 1) {
                Some(xor_from(*high ^ *low, pages))
            } else {
                None
            }
        }
        _ => None,
    }
}

/// The check that an erase or a write lacks, where it lacks nothing else.
fn check_due(bytes: &[u8]) -> Option<u8>
    ensures { result ≡ check_due bytes.now }
{
    match bytes {
        [0x31, _, rest @ ..] => write_check(rest),
        [0x43, _, rest @ ..] => erase_check(rest),
        [0x44, _, rest @ ..] => extended_check(rest),
        _ => None,
    }
}

/// Whether these bytes, put from an address on, reach into page `n`.
fn reaches(chip: &Chip, address: u32, sent: &[u8], n: u16) -> bool
    ensures { result ≡ reaches chip.now address (length sent.now) n }
{
    if n >= chip.pages() {
        return false;
    }
    let start = u64::from(chip.page_start(n));
    let end = start + u64::from(chip.page_size(n));
    let address = u64::from(address);
    address < end && start < address + sent.len() as u64
}

/// Whether a write changes page `n`, from its address on.
fn writes_page(chip: &Chip, rest: &[u8], n: u16) -> bool
    ensures { result ≡ changes_page chip.now (write_change rest.now) n }
{
    match rest {
        [a, b, c, d, _, count, data @ ..] => {
            let address = u32::from_be_bytes([*a, *b, *c, *d]);
            reaches(chip, address, part(data, 0, usize::from(*count) + 1), n)
        }
        _ => false,
    }
}

/// Whether one of these bytes is the number of page `n`.
fn has_byte(pages: &[u8], n: u16) -> bool
    ensures { result ≡ is_listed pages.now n }
{
    pages.iter().any(|page| u16::from(*page) == n)
}

/// Whether two of these bytes are the number of page `n`.
fn has_pair(pages: &[u8], n: u16) -> bool
    ensures { result ≡ is_listed (two_byte_numbers pages.now) n }
{
    let mut rest = pages;
    while let [high, low, after @ ..] = rest {
        if u16::from(*high) * 256 + u16::from(*low) == n {
            return true;
        }
        rest = after;
    }
    false
}

/// Whether an erase names page `n`, from its count on.
fn erases_page(chip: &Chip, rest: &[u8], n: u16) -> bool
    ensures { result ≡ changes_page chip.now (erase_change rest.now) n }
{
    match rest {
        [0xFF, ..] => true,
        [count, pages @ ..] => has_byte(&pages[..pages.len().min(usize::from(*count) + 1)], n),
        [] => false,
    }
}

/// The same, where numbers have two bytes.
fn erases_extended_page(chip: &Chip, rest: &[u8], n: u16) -> bool
    ensures { result ≡ changes_page chip.now (extended_change rest.now) n }
{
    match rest {
        [high, low, pages @ ..] => {
            let count = usize::from(*high) * 256 + usize::from(*low);
            count == 0xFFFF || has_pair(&pages[..pages.len().min(2 * (count + 1))], n)
        }
        _ => false,
    }
}

/// Whether bytes ask for a change of page `n`.
fn changes_page(chip: &Chip, bytes: &[u8], n: u16) -> bool
    ensures { result ≡ changes_page chip.now (change_of bytes.now) n }
{
    match bytes {
        [0x31, _, rest @ ..] => writes_page(chip, rest, n),
        [0x43, _, rest @ ..] => erases_page(chip, rest, n),
        [0x44, _, rest @ ..] => erases_extended_page(chip, rest, n),
        _ => false,
    }
}

/// Whether a byte would complete the code of a command that readout protection forbids.
fn completes_barred(rest: &[u8], byte: u8) -> bool
    ensures { result ≡ completes_barred rest.now byte }
{
    match rest {
        [code] => {
            matches!(*code, 0x11 | 0x21 | 0x31 | 0x43 | 0x44 | 0x63 | 0x73) && byte == !*code
        }
        _ => false,
    }
}

/// The protections of a simulator.
#[derive(Drop)]
pub struct Protections {
    /// The numbers of the pages that are write-protected.
    pages: Vec<u16>,
    /// Whether Readout Protect takes effect.
    has_readout: bool,
    /// Whether it did, so that the flash is readout-protected.
    is_unreadable: bool,
}

impl Model for Protections {
    ghost Value = { Protected };

    ghost view = { λ p. record {
      pages = p.pages.items;
      has_readout = p.has_readout;
      is_unreadable = p.is_unreadable;
    } };
}

impl Protections {
    /// What words protect of a simulator of this chip, which has each page of them and can be read.
    pub fn given<'a>(
        alloc: Global,
        chip: &Chip,
        served: &Served<'a>,
    ) -> Result<Protections, Failure<'a>>
        ensures { IfOk result (λ p. p ≡ record {
          pages = served.now.protected.items;
          has_readout = served.now.readout_protection;
          is_unreadable = false;
        }) }
    {
        let count = chip.pages();
        if let Some(page) = served.protected.iter().find(|page| **page >= count) {
            return Err(Failure::Usage(UsageFault::NoPage(served.id, *page)));
        }
        Ok(Protections {
            pages: Vec::from_slice(alloc, &served.protected)?,
            has_readout: served.readout_protection,
            is_unreadable: false,
        })
    }

    /// Whether nothing is protected, nor will be.
    pub fn is_unprotected(&self) -> bool
        ensures { result ≡ is_unprotected self.now }
    {
        self.pages.is_empty() && !self.has_readout && !self.is_unreadable
    }

    /// Whether bytes ask for a change of a protected page.
    fn are_changed(&self, chip: &Chip, bytes: &[u8]) -> bool
        ensures { result ≡ changes_any chip.now (change_of bytes.now) self.now.pages }
    {
        self.pages.iter().any(|n| changes_page(chip, bytes, *n))
    }

    /// Whether a byte would complete a change of a protected page, behind these bytes.
    fn is_completed(&self, chip: &Chip, rest: &[u8], byte: u8) -> bool
        ensures { result ≡ completes_change self.now.pages chip.now rest.now byte }
    {
        match check_due(rest) {
            Some(check) => byte == check && self.are_changed(chip, rest),
            None => false,
        }
    }

    /// What a device with these bytes since its last verdict is fed for its readout protection.
    fn fed_unreadable(&self, rest: &[u8], byte: u8) -> u8
        ensures { result ≡ fed_unreadable self.now.is_unreadable rest.now byte }
    {
        if self.is_unreadable && completes_barred(rest, byte) {
            !byte
        } else {
            byte
        }
    }

    /// The same for its protected pages.
    fn fed_behind(&self, chip: &Chip, rest: &[u8], byte: u8) -> u8
        ensures { result ≡ fed_behind self.now.pages chip.now rest.now byte }
    {
        if self.is_completed(chip, rest, byte) {
            !byte
        } else {
            byte
        }
    }

    /// What the simulator is fed in the place of a byte.
    #[tactic(auto, using(crate::proofs::Protecting::fed_connected, crate::proofs::Protecting::fed_apart))]
    fn fed(&self, sim: &Simulator, byte: u8) -> u8
        ensures { result ≡ fed_while_protected self.now sim.now byte }
    {
        match sim.rest() {
            Some(rest) => self.fed_behind(sim.chip(), rest, self.fed_unreadable(rest, byte)),
            None => byte,
        }
    }

    /// Takes protections off or on, where what is fed completes Write Unprotect, Readout Protect or
    /// Readout Unprotect (AN3155, sections 3.10 to 3.12).
    fn follow(&mut self, sim: &Simulator, fed: u8)
        ensures { self.new ≡ protected_behind self.old sim.now fed }
    {
        if let Some([code]) = sim.rest() {
            match (*code, fed) {
                (0x73, 0x8C) => self.pages.clear(),
                (0x82, 0x7D) => self.is_unreadable = self.has_readout,
                (0x92, 0x6D) => self.is_unreadable = false,
                _ => {}
            }
        }
    }

    /// What the simulator is fed in the place of a byte that comes: no list of bytes that ends so is
    /// done and changes a protected page; while the flash is readout-protected, no code passes that
    /// this forbids.
    #[tactic(auto, using(crate::proofs::Protecting::spares, crate::proofs::Protecting::bars))]
    pub fn feed(&mut self, sim: &Simulator, byte: u8) -> u8
        ensures fed { result ≡ fed_while_protected self.old sim.now byte }
        ensures spares { Spares self.old.pages sim.now.chip sim.now.phase result }
        ensures bars { Bars self.old.is_unreadable sim.now.chip sim.now.phase result }
        ensures left { self.new ≡ protected_behind self.old sim.now result }
    {
        let fed = self.fed(sim, byte);
        self.follow(sim, fed);
        fed
    }

    /// Feeds bytes, one after the other, each as its turn lets it, and puts into `told` what their
    /// client is told; `reply` and `one` are room for what is told of one byte. False where memory is
    /// refused.
    pub fn tell_all(
        &mut self,
        sim: &mut Simulator,
        bytes: &[u8],
        reply: &mut Vec<u8>,
        one: &mut Vec<u8>,
        told: &mut Vec<u8>,
    ) -> bool
        ensures { IsTrue result → record {
          protected = self.new;
          telling = record { device = sim.new; told = told.new.items };
        }
            ≡ guarding (record { protected = self.old; telling = telling_begun sim.old }) bytes.now }
    {
        told.clear();
        for byte in bytes {
            let fed = self.feed(sim, *byte);
            if !tell_all(sim, &[fed], reply, one) {
                return false;
            }
            if told.extend_from_slice(one.as_slice()).is_err() {
                return false;
            }
        }
        true
    }
}
