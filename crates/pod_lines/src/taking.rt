// Any count of words as numbers into a lent buffer: the reply words of `read`.
ghost use Rattle.std.specs.Prelude.{◌≡◌, true, ◌≤◌, length};
ghost use Rattle.std.proofs.lemmas.List.Edits.{sets};
ghost use Rattle.words.specs.WordSteps.{words_left};
ghost use Rattle.numbers.specs.Numbers.{value, is_numeral};
ghost use Rattle.pod_lines.specs.Taking.{all_numerals, values, counted, TakingMeets};

use crate::NotTaken;
use words::Words;

#[tactic(auto, using(numbers::specs::NumberLaws::numeral_value, numbers::specs::NumberLaws::numeral_none))]
fn is_number(word: &[u8]) -> bool
    ensures { result ≡ is_numeral word.now }
{
    numbers::read_number(word).is_some()
}

fn value_of(word: &[u8]) -> u32
    requires { is_numeral word.now ≡ true }
    ensures { result ≡ value word.now }
{
    numbers::read_number(word).unwrap_or(0)
}

fn count_numbers(words: Words) -> Result<usize, NotTaken>
    ensures { result ≡ counted (words_left words.entry) }
{
    let mut count = 0;
    for word in words {
        if !is_number(word) {
            return Err(NotTaken::NotAllNumbers);
        }
        count += 1;
    }
    Ok(count)
}

fn put_numbers(words: Words, buffer: &mut [u32])
    requires { (all_numerals (words_left words) ≡ true) × (length (words_left words) ≤ length buffer.old) }
    ensures { buffer.new ≡ sets buffer.old 0 (values (words_left words.entry)) }
{
    let mut count = 0;
    for word in words {
        buffer[count] = value_of(word);
        count += 1;
    }
}

// The words that are left as numbers into the buffer, all of them or none.
pub fn take_numbers(words: Words, buffer: &mut [u32]) -> Result<usize, NotTaken>
    ensures { TakingMeets (words_left words.entry) buffer.old result buffer.new }
{
    let count = count_numbers(words)?;
    if buffer.len() < count {
        return Err(NotTaken::TooMany);
    }
    put_numbers(words, buffer);
    Ok(count)
}
