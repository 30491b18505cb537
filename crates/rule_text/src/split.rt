// How a text parts into words.
ghost use Rattle.std.specs.Prelude.{◌≡◌, ℕ, ◌+◌, ◌<◌, ◌≤◌, true, false, ◌∷◌, length, drop, ◌≢◌, slice_index};
ghost use Rattle.std.specs.List.{between};
ghost use Rattle.rule_text.specs.Texts.{placed, words_from};

const SPACE: u8 = b' ';

// The first byte from `at` on that passes the test, or the text's length.
fn find_from<P: Fn(u8) -> bool>(text: &[u8], at: usize, test: P) -> usize
    requires within { at ≤ length text.now }
    requires callable { P.IsAlwaysCallable test }
    ensures from { at ≤ result }
    ensures within { result ≤ length text.now }
    ensures before { (k : ℕ) → at + k < result
        → P.post test (slice_index text.now (at + k)) false }
    ensures found { result < length text.now → P.post test (slice_index text.now result) true }
{
    (at..text.len())
        .find(|i| test(text[*i]))
        .unwrap_or(text.len())
}

// The first byte from `at` on that is no space, or the text's length.
pub(crate) fn skip_spaces(text: &[u8], at: usize) -> usize
    requires { at ≤ length text.now }
    ensures from { at ≤ result }
    ensures within { result ≤ length text.now }
    ensures same { words_from at (drop at text.now) ≡ words_from result (drop result text.now) }
    ensures next { result < length text.now → slice_index text.now result ≢ SPACE }
{
    find_from(text, at, |b| b != SPACE)
}

// Where the word that begins at `at` ends.
pub(crate) fn word_end(text: &[u8], at: usize) -> usize
    requires within { at < length text.now }
    requires no_space { slice_index text.now at ≢ SPACE }
    ensures from { at < result }
    ensures within { result ≤ length text.now }
    ensures word { words_from at (drop at text.now)
        ≡ placed at (between at result text.now) ∷ words_from result (drop result text.now) }
{
    if text[at].is_ascii_alphanumeric() {
        find_from(text, at + 1, |b| !b.is_ascii_alphanumeric())
    } else {
        at + 1
    }
}
