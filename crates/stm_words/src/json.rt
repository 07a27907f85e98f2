// Whether words ask for JSON, also where they can't be done.
ghost use Rattle.stm_words.specs.Json.{wants_json};
ghost use Rattle.std.specs.Prelude.{◌≡◌, map};

/// Whether the words ask for JSON: `--json` is one of those before a `--`. It is looked for by itself,
/// so that a fault of the words is told as JSON too.
pub fn wants_json(words: &[&str]) -> bool
    ensures { result ≡ wants_json (map (λ s. s.now) words.now) }
{
    for word in words {
        if *word == "--" {
            return false;
        }
        if *word == "--json" {
            return true;
        }
    }
    false
}
