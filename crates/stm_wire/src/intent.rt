// What a host was about to do, and the byte that settles a stop in it.
ghost use Rattle.std.specs.Prelude.{◌≡◌};
ghost use Rattle.stm_wire.specs.Intents.{settling_byte};

/// What a host was about to do with a page, as it writes it down before the first byte of the
/// command.
#[derive(Clone, Copy, Debug, PartialEq, Eq)]
pub enum Intent {
    /// To erase this page.
    Erase(u16),
    /// To program this page.
    Program(u16),
}

/// The byte that ends an exchange which was stopped under this intent, and changes nothing outside
/// the intent's page.
pub fn settling_byte(intent: Option<Intent>) -> u8
    ensures { result ≡ settling_byte intent }
{
    match intent {
        None => 0x7F,
        Some(Intent::Erase(page)) if page < 256 => page as u8,
        Some(Intent::Erase(_) | Intent::Program(_)) => 0x02,
    }
}
