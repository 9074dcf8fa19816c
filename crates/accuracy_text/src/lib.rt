// A word, and the words of an accuracy.
#![tactic(auto)]

ghost use Rattle.std.specs.Prelude.{◌≡◌, [], ◌∷◌, ◌+◌, ◌*◌, ◌^◌, ◌≤◌, ◌<◌, length, None};
ghost use Rattle.text.specs.Written.{HasRoom, Gained};
ghost use Rattle.accuracy_text.specs.AccuracyText.{spaced, hex_letter, last_digits, percent_text, words_by, accuracy_words};

use percent::Percentage;
use text::Text;

// A space and a word.
pub fn put_word(text: &mut Text<'_>, word: &[u8])
    requires { HasRoom text.old (1 + length word.now) }
    ensures gained { Gained text.old text.new (spaced (word.now ∷ [])) }
    ensures value { text.new.len ≡ text.old.len + 1 + length word.now }
{
    text.put_byte(b' ');
    text.put_bytes(word);
}

fn hex_letter(d: u64) -> u8
    requires { d < 16 }
    ensures { result ≡ hex_letter d }
{
    if d < 10 {
        (48 + d) as u8
    } else {
        (87 + d) as u8
    }
}

// Sixteen digits of n to a base, from the last to the first.
fn digits_of(n: u64, base: u64) -> [u8; 16]
    requires { (0 < base) × (base ≤ 16) }
    ensures { result ≡ last_digits base 16 n [] }
{
    let mut digits = [0u8; 16];
    let mut left = n;
    for i in 0..16 {
        digits[15 - i] = hex_letter(left % base);
        left /= base;
    }
    digits
}

// The last decimal digits of n, as many as are asked for.
fn put_last(text: &mut Text<'_>, n: u64, count: usize)
    requires { (count ≤ 16) × HasRoom text.old count }
    ensures gained { Gained text.old text.new (last_digits 10 count n []) }
    ensures value { text.new.len ≡ text.old.len + count }
{
    let digits = digits_of(n, 10);
    text.put_bytes(&digits[16 - count..]);
}

// A space and a percentage: digits without the point, so many of them behind it.
fn put_percent(text: &mut Text<'_>, p: Percentage)
    requires room { HasRoom text.old 18 }
    requires places_bound { (p.places ≤ 12) × (p.digits < 1000 * 10 ^ p.places) }
    ensures gained { Gained text.old text.new (spaced (percent_text p.digits p.places ∷ [])) }
    ensures upper_bound { text.new.len ≤ text.old.len + 18 }
{
    let before = p.digits / 10u64.pow(p.places);
    text.put_byte(b' ');
    text.put_decimal(before as u32);
    if p.places > 0 {
        text.put_byte(b'.');
        put_last(text, p.digits, p.places as usize);
    }
}

fn put_bits(text: &mut Text<'_>, bits: u64)
    requires { HasRoom text.old 25 }
    ensures gained { Gained text.old text.new (spaced (words_by None bits)) }
    ensures upper_bound { text.new.len ≤ text.old.len + 25 }
{
    put_word(text, b"accbits");
    put_word(text, &digits_of(bits, 16));
}

// The accuracy, where it is given.
pub fn put_accuracy(text: &mut Text<'_>, given: bool, bits: u64)
    requires { HasRoom text.old 25 }
    ensures gained { Gained text.old text.new (spaced (accuracy_words given bits)) }
    ensures upper_bound { text.new.len ≤ text.old.len + 25 }
{
    if !given {
        return;
    }
    match percent::percentage_of(bits) {
        Some(p) => {
            put_word(text, b"acc");
            put_percent(text, p);
        }
        None => put_bits(text, bits),
    }
}
