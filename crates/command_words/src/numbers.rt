//! Words that spell numbers.
ghost use Rattle.std.specs.Prelude.{◌≡◌, ◌<◌, ◌≤◌, ◌+◌, ◌^◌, IfSome};
ghost use Rattle.std.specs.Option.{option_map, option_to_list};
ghost use Rattle.command_words.specs.Words.{workers_of, workers_in, number_in};
ghost use Rattle.command_words.specs.Shown.{AreWorkers};

use line_text::read_decimal;

/// The most workers.
const MOST_WORKERS: u32 = 64;

/// The number of workers by the word that is given for it: 1 where none is, and `None` where the word is no number from
/// 1 to 64.
pub(crate) fn workers_of(word: Option<&str>) -> Option<usize>
    ensures number { result ≡ workers_of (option_to_list (option_map (λ word. word.now) word.entry)) }
    ensures range { IfSome result AreWorkers }
{
    match word {
        None => Some(1),
        Some(word) => workers_in(word.as_bytes()),
    }
}

/// The number from 1 to 64 that a word spells.
fn workers_in(word: &[u8]) -> Option<usize>
    ensures number { result ≡ workers_in word.now }
    ensures range { IfSome result AreWorkers }
{
    let number = number_in(word, 1, MOST_WORKERS)?;
    Some(number as usize)
}

/// The number that a word spells in decimal, without a sign or a leading zero: one of `count` numbers from `least` on.
pub(crate) fn number_in(word: &[u8], least: u32, count: u32) -> Option<u32>
    requires some { 0 < count }
    requires small { least + count < 2 ^ 32 }
    ensures number { result ≡ number_in least count word.now }
    ensures range { IfSome result (λ n. (least ≤ n) × (n < least + count)) }
{
    let number = read_decimal(word, u64::from(least + count - 1))? as u32;
    if number < least { None } else { Some(number) }
}
