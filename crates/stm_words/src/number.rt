// Numbers as words give them.
ghost use Rattle.std.specs.Prelude.{◌≡◌, ◌≤◌, ◌<◌, ◌^◌, length, true};
ghost use Rattle.std.specs.List.{list_all};
ghost use Rattle.stm_words.specs.Number.{decimal_number, digit_value, has_leading_zero, hex_number};
ghost use Rattle.stm_words.specs.Number.{is_decimal_digit, is_hex_digit, word_number};
ghost use Rattle.stm_words.specs.Number.{number_of_digits};
ghost use Rattle.stm_words.specs.Given.{number_to};

fn is_decimal_digit(c: u8) -> bool
    ensures { result ≡ is_decimal_digit c }
{
    48 <= c && c <= 57
}

fn is_hex_digit(c: u8) -> bool
    ensures { result ≡ is_hex_digit c }
{
    is_decimal_digit(c) || (65 <= c && c <= 70) || (97 <= c && c <= 102)
}

/// The value of a digit.
fn digit_value(c: u8) -> u64
    requires { is_hex_digit c ≡ true }
    ensures value { result ≡ digit_value c }
    ensures small { result < 16 }
    ensures decimal { is_decimal_digit c ≡ true → result < 10 }
{
    if c >= 97 {
        u64::from(c - 87)
    } else if c >= 65 {
        u64::from(c - 55)
    } else {
        u64::from(c - 48)
    }
}

fn has_leading_zero(digits: &[u8]) -> bool
    ensures { result ≡ has_leading_zero digits.now }
{
    match digits {
        [] => false,
        [c, rest @ ..] => *c == 48 && !rest.is_empty(),
    }
}

/// The number that hexadecimal digits write.
fn value_of_hex(digits: &[u8]) -> u64
    requires digits { list_all is_hex_digit digits.now ≡ true }
    requires few { length digits.now ≤ 8 }
    ensures value { result ≡ number_of_digits 16 digits.now }
    ensures small { result < 2 ^ 32 }
{
    let mut n = 0;
    for c in digits {
        n = n * 16 + digit_value(*c);
    }
    n
}

/// Whether each of these is a hexadecimal digit, of either case.
pub fn are_hex_digits(digits: &[u8]) -> bool
    ensures { result ≡ list_all is_hex_digit digits.now }
{
    digits.iter().all(|c| is_hex_digit(*c))
}

/// The number that 1 to 8 hexadecimal digits write.
pub fn hex_number(digits: &[u8]) -> Option<u32>
    ensures { result ≡ hex_number digits.now }
{
    if digits.is_empty() || digits.len() > 8 {
        return None;
    }
    if !are_hex_digits(digits) {
        return None;
    }
    Some(value_of_hex(digits) as u32)
}

/// The number that decimal digits write.
fn value_of_decimal(digits: &[u8]) -> u64
    requires digits { list_all is_decimal_digit digits.now ≡ true }
    requires few { length digits.now ≤ 10 }
    ensures { result ≡ number_of_digits 10 digits.now }
{
    let mut n = 0;
    for c in digits {
        n = n * 10 + digit_value(*c);
    }
    n
}

fn are_decimal_digits(digits: &[u8]) -> bool
    ensures { result ≡ list_all is_decimal_digit digits.now }
{
    digits.iter().all(|c| is_decimal_digit(*c))
}

fn decimal_number(digits: &[u8]) -> Option<u32>
    ensures { result ≡ decimal_number digits.now }
{
    if digits.is_empty() || digits.len() > 10 {
        return None;
    }
    if !are_decimal_digits(digits) || has_leading_zero(digits) {
        return None;
    }
    let n = value_of_decimal(digits);
    if n < 1 << 32 { Some(n as u32) } else { None }
}

/// The number that a word gives: `0x` and 1 to 8 hexadecimal digits of either case, or decimal
/// digits without leading zeros, up to 4294967295.
pub fn parse_number(word: &str) -> Option<u32>
    ensures { result ≡ word_number word.now }
{
    match word.as_bytes() {
        [b'0', b'x', digits @ ..] => hex_number(digits),
        digits => decimal_number(digits),
    }
}

/// The same, from 1 to a limit.
pub fn parse_number_to(word: &str, limit: u32) -> Option<u32>
    ensures { result ≡ number_to limit word.now }
{
    match parse_number(word) {
        Some(n) if 1 <= n && n <= limit => Some(n),
        _ => None,
    }
}
