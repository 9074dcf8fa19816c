// How a fault of a typed sheet is told, as bytes in a lent buffer.
#![tactic(auto)]

ghost use Rattle.std.specs.Prelude.{◌≡◌, ◌+◌, ◌≤◌, length, take, drop};
ghost use Rattle.io.specs.Counts.{IsPrefixLen};
ghost use Rattle.text.specs.Written.{HasRoom, Gained};
ghost use Rattle.fault_text.specs.FaultText.{shown_byte, shown, shown_word, phrase_of, sentence_of, fault_text};

use text::Text;

// The longest: `line `, 20 digits and `: `, 40 bytes of a word, `..`, ` is not sixteen hex digits`, and an end.
pub const ROOM: usize = 5 + 20 + 2 + 40 + 2 + 26 + 1;

fn shown_byte(b: u8) -> u8
    ensures { result ≡ shown_byte b }
{
    if b < 33 {
        return b'?';
    }
    if 126 < b {
        return b'?';
    }
    b
}

fn put_shown(text: &mut Text<'_>, word: &[u8])
    requires { HasRoom text.old (length word.now) }
    ensures gained { Gained text.old text.new (shown word.now) }
    ensures value { text.new.len ≡ text.old.len + length word.now }
{
    for b in word {
        text.put_byte(shown_byte(*b));
    }
}

// A word, cut where it is long.
fn put_word(text: &mut Text<'_>, word: &[u8])
    requires { HasRoom text.old 42 }
    ensures gained { Gained text.old text.new (shown_word word.now) }
    ensures upper_bound { text.new.len ≤ text.old.len + 42 }
{
    if 40 < word.len() {
        put_shown(text, &word[0..40]);
        text.put_bytes(b"..");
        return;
    }
    put_shown(text, word);
}

// What stands behind the word.
#[tactic(auto, unfolding(crate::specs::FaultText::phrase_of, crate::specs::FaultText::later_phrase, crate::specs::FaultText::begins_no_line, crate::specs::FaultText::one_too_many, crate::specs::FaultText::no_option, crate::specs::FaultText::given_twice, crate::specs::FaultText::no_whole_number, crate::specs::FaultText::too_large, crate::specs::FaultText::no_percentage, crate::specs::FaultText::not_hex, crate::specs::FaultText::no_method, crate::specs::FaultText::one_line_too_many))]
fn put_phrase(text: &mut Text<'_>, number: u32)
    requires { HasRoom text.old 26 }
    ensures gained { Gained text.old text.new (phrase_of number) }
    ensures upper_bound { text.new.len ≤ text.old.len + 26 }
{
    match number {
        1 => text.put_bytes(b" begins no line"),
        2 => text.put_bytes(b" is one too many"),
        3 => text.put_bytes(b" is no option"),
        4 => text.put_bytes(b" is given twice"),
        6 => text.put_bytes(b" is no whole number"),
        7 | 11 => text.put_bytes(b" is too large"),
        8 => text.put_bytes(b" is no percentage"),
        9 => text.put_bytes(b" is not sixteen hex digits"),
        10 => text.put_bytes(b" is no method"),
        _ => text.put_bytes(b" is one line too many"),
    }
}

fn put_sentence(text: &mut Text<'_>, number: u32, word: &[u8])
    requires { HasRoom text.old 68 }
    ensures gained { Gained text.old text.new (sentence_of number word.now) }
    ensures upper_bound { text.new.len ≤ text.old.len + 68 }
{
    if number == 5 {
        text.put_bytes(b"a value is missing after ");
        put_word(text, word);
    } else {
        put_word(text, word);
        put_phrase(text, number);
    }
}

fn put_fault(text: &mut Text<'_>, line: usize, number: u32, word: &[u8])
    requires { HasRoom text.old 96 }
    ensures { Gained text.old text.new (fault_text line number word.now) }
{
    text.put_bytes(b"line ");
    text.put_number(line as u64);
    text.put_bytes(b": ");
    put_sentence(text, number, word);
    text.put_byte(b'\n');
}

// Tells a fault, its number from 1 to 14, at the start of text. It answers how many bytes that is; those past them stay. It takes the
// number and no `words::Fault`: docs/STATEMENTS.md names it, and it promises what is told of any number.
pub fn tell_fault(line: usize, number: u32, word: &[u8], text: &mut [u8; ROOM]) -> usize
    ensures counted { IsPrefixLen result text.new }
    ensures told { take result text.new ≡ fault_text line number word.now }
    ensures beyond { drop result text.new ≡ drop result text.old }
{
    let mut text = Text::new(text);
    put_fault(&mut text, line, number, word);
    text.len()
}
