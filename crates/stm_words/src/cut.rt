// A text, cut at a byte.
ghost use Rattle.std.specs.Prelude.{◌≡◌, ◌<◌, option_map};
ghost use Rattle.stm_words.specs.Given.{cut_at};

/// What stands before the first of these characters, which is ASCII, and what behind it.
pub fn cut_at(text: &str, at: char) -> Option<(&str, &str)>
    requires { at < 128 }
    ensures { option_map (λ p. (p.0.now, p.1.now)) result ≡ cut_at at text.now }
{
    text.split_once(at)
}
