// The lines and the words of a typed sheet: where they start and end, whether a word is a keyword, and the values that words stand for.
#![tactic(auto)]

ghost use Rattle.std.specs.Prelude.{◌≡◌, false, ◌+◌, ◌*◌, ◌<◌, ◌≤◌, length, take, drop, not, eqb, IfSome, IfNone};
ghost use Rattle.std.specs.List.{position_from};
ghost use Rattle.std.specs.Float.{binary64};
ghost use Rattle.std.specs.Float.Ieee.{round, to_bits};
ghost use Rattle.words.specs.Faults.{fault_number};
ghost use Rattle.words.specs.Lines.{line_size, unended};
ghost use Rattle.words.specs.Words.{blank, parting, blanks, word_size, says, place, bytes_of, words};
ghost use Rattle.words.specs.Values.{number_of, before_point, behind_point, percent_of, hex_digit, hex_of};

// The faults of a typed sheet, in the order of their numbers, 1 to 14.
#[derive(Clone, Copy, PartialEq, Eq, Debug)]
pub enum Fault {
    BeginsNoLine = 1,
    OneTooMany,
    NoOption,
    GivenTwice,
    ValueMissing,
    NoWholeNumber,
    NumberTooLarge,
    NoPercentage,
    NotHex,
    NoMethod,
    ChartTooLarge,
    TooManyCharts,
    TooManyWeights,
    TooManyPlays,
}

impl From<Fault> for u32 {
    ghost from_gives = { λ f n. n ≡ fault_number f };

    fn from(fault: Fault) -> u32 {
        fault as u32
    }
}

fn first_lf(s: &[u8]) -> Option<usize>
    ensures value { result ≡ position_from (λ b. eqb b 10) 0 s.now }
    ensures bound { IfSome result (λ n. n < length s.now) }
{
    s.iter().position(|b| *b == b'\n')
}

// The end of the line that starts at a place: its LF, or the end of the text.
pub fn line_end(s: &[u8], at: usize) -> usize
    requires { at ≤ length s.now }
    ensures { (result ≡ at + line_size (drop at s.now)) × (result ≤ length s.now) }
{
    at + first_lf(&s[at..]).unwrap_or(s.len() - at)
}

// The lines of a text that are left: its rest, and where that starts.
#[derive(Drop)]
pub struct Lines<'a> {
    at: usize,
    rest: &'a [u8],
    ghost in_range: { at + length rest.now ≤ 18446744073709551615 },
}

impl<'a> Lines<'a> {
    ghost use Rattle.words.specs.Lines.{lines};
    ghost use Rattle.words.specs.Walk.{lines_left};

    pub fn new(text: &'a [u8]) -> Lines<'a>
        ensures { lines_left result ≡ lines text.now }
    {
        Lines { at: 0, rest: text }
    }
}

// Each line with where it starts.
impl<'a> Iterator for Lines<'a> {
    ghost use Rattle.std.specs.Iterator.{YieldsFirstBy, item_count};
    ghost use Rattle.words.specs.Walk.{lines_left, part_of};

    type Item = (usize, &'a [u8]);

    ghost next_gives = { YieldsFirstBy part_of lines_left };

    ghost remaining = { item_count lines_left };

    fn next(&mut self) -> Option<(usize, &'a [u8])> {
        if self.rest.is_empty() {
            return None;
        }
        let e = line_end(self.rest, 0);
        let line = (self.at, &self.rest[..e]);
        let n = self.rest.len().min(e + 1);
        self.at += n;
        self.rest = &self.rest[n..];
        Some(line)
    }
}

// How many bytes a line has without a CR that is its last byte.
pub fn size_unended(s: &[u8]) -> usize
    ensures { (result ≤ length s.now) × (take result s.now ≡ unended s.now) }
{
    let n = s.len();
    if n == 0 {
        return 0;
    }
    if s[n - 1] == b'\r' {
        return n - 1;
    }
    n
}

fn is_blank(b: u8) -> bool
    ensures { result ≡ blank b }
{
    b == b' ' || b == b'\t'
}

fn is_parting(b: u8) -> bool
    ensures { result ≡ parting b }
{
    b == b'#' || is_blank(b)
}

fn first_not_blank(s: &[u8]) -> Option<usize>
    ensures value { result ≡ position_from (λ b. not (blank b)) 0 s.now }
    ensures bound { IfSome result (λ n. n < length s.now) }
{
    s.iter().position(|b| !is_blank(*b))
}

// Past the blanks from a place on.
pub fn skip_blanks(s: &[u8], at: usize) -> usize
    requires { at ≤ length s.now }
    ensures { (result ≡ at + blanks (drop at s.now)) × (result ≤ length s.now) }
{
    at + first_not_blank(&s[at..]).unwrap_or(s.len() - at)
}

fn first_parting(s: &[u8]) -> Option<usize>
    ensures value { result ≡ position_from parting 0 s.now }
    ensures bound { IfSome result (λ n. n < length s.now) }
{
    s.iter().position(|b| is_parting(*b))
}

// The end of the word that starts at a place.
pub fn word_end(s: &[u8], at: usize) -> usize
    requires { at ≤ length s.now }
    ensures { (result ≡ at + word_size (drop at s.now)) × (result ≤ length s.now) }
{
    at + first_parting(&s[at..]).unwrap_or(s.len() - at)
}

// Whether a word is a keyword.
fn is_keyword(w: &[u8], k: &[u8]) -> bool
    ensures { result ≡ says w.now k.now }
{
    w.len() == k.len()
        && w.iter()
            .zip(k)
            .all(|(b, letter)| b.to_ascii_lowercase() == *letter)
}

// The words of a line that are left: its rest, and where that starts.
#[derive(Drop)]
pub struct Words<'a> {
    at: usize,
    rest: &'a [u8],
    ghost in_range: { at + length rest.now ≤ 18446744073709551615 },
}

impl<'a> Words<'a> {
    ghost use Rattle.words.specs.Walk.{words_left};

    // The words of a line that starts at a place.
    pub fn new(at: usize, line: &'a [u8]) -> Words<'a>
        requires { at + length line.now ≤ 18446744073709551615 }
        ensures { words_left result ≡ words at line.now }
    {
        Words { at, rest: line }
    }
}

// Each word with where it starts.
impl<'a> Iterator for Words<'a> {
    ghost use Rattle.std.specs.Iterator.{YieldsFirstBy, item_count};
    ghost use Rattle.words.specs.Walk.{words_left, part_of};

    type Item = (usize, &'a [u8]);

    ghost next_gives = { YieldsFirstBy part_of words_left };

    ghost remaining = { item_count words_left };

    fn next(&mut self) -> Option<(usize, &'a [u8])> {
        let a = skip_blanks(self.rest, 0);
        let e = word_end(self.rest, a);
        let word = (self.at + a, &self.rest[a..e]);
        self.at += e;
        self.rest = &self.rest[e..];
        if e == a { None } else { Some(word) }
    }
}

// Which of the keywords a word is; they are the words of a line.
pub fn place_in(w: &[u8], keywords: &[u8]) -> Option<usize>
    requires { length keywords.now ≤ 4294967295 }
    ensures { result ≡ place w.now (bytes_of (words 0 keywords.now)) }
{
    Words::new(0, keywords).position(|(_, k)| is_keyword(w, k))
}

// A whole number.
pub fn number(w: &[u8]) -> Result<u64, Fault>
    ensures { result ≡ number_of w.now }
{
    if w.is_empty() {
        return Err(Fault::NoWholeNumber);
    }
    let mut n: u64 = 0;
    for b in w {
        let c = u64::from(*b);
        if c < 48 {
            return Err(Fault::NoWholeNumber);
        }
        if 57 < c {
            return Err(Fault::NoWholeNumber);
        }
        let m = 10 * n + (c - 48);
        if 4294967295 < m {
            return Err(Fault::NumberTooLarge);
        }
        n = m;
    }
    Ok(n)
}

// The bits of p / q, one f64 division of two whole numbers that an f64 holds.
pub fn ratio_bits(p: u64, q: u64) -> u64
    requires p_bound { p < 1000000000000000 }
    requires q_nonzero { (0 < q) × (q ≤ 100000000000000) }
    ensures { result ≡ to_bits binary64 (round binary64 false p q) }
{
    f64::to_bits((p as f64) / (q as f64))
}

// A percentage by its digits behind the point, where v is the number before the point.
fn behind_point(w: &[u8], v: u64) -> Result<u64, Fault>
    requires { v < 1000 }
    ensures { result ≡ behind_point w.now v 0 }
{
    let mut n = v;
    let mut k: u32 = 0;
    let mut q: u64 = 100;
    for b in w {
        let c = u64::from(*b);
        if c < 48 {
            return Err(Fault::NoPercentage);
        }
        if 57 < c {
            return Err(Fault::NoPercentage);
        }
        if 11 < k {
            return Err(Fault::NoPercentage);
        }
        n = 10 * n + (c - 48);
        k += 1;
        q = 10 * q;
    }
    Ok(ratio_bits(n, q))
}

fn before_point(w: &[u8]) -> Result<u64, Fault>
    ensures { result ≡ before_point w.now 0 }
{
    let mut n: u64 = 0;
    for (i, b) in w.iter().enumerate() {
        let c = u64::from(*b);
        if c == 46 {
            return behind_point(&w[i + 1..], n);
        }
        if c < 48 {
            return Err(Fault::NoPercentage);
        }
        if 57 < c {
            return Err(Fault::NoPercentage);
        }
        let m = 10 * n + (c - 48);
        if 999 < m {
            return Err(Fault::NoPercentage);
        }
        n = m;
    }
    Ok(ratio_bits(n, 100))
}

// A percentage such as 97.53: the bits of the f64 nearest to its hundredth.
pub fn percentage(w: &[u8]) -> Result<u64, Fault>
    ensures { result ≡ percent_of w.now }
{
    if w.is_empty() || w[0] == b'.' {
        return Err(Fault::NoPercentage);
    }
    before_point(w)
}

// The value of a hex digit in small letters.
fn hex_digit(b: u8) -> Option<u64>
    ensures none { IfNone result (hex_digit b ≡ 16) }
    ensures some { IfSome result (λ d. (d ≡ hex_digit b) × (d < 16)) }
{
    match b {
        b'0'..=b'9' => Some(u64::from(b - b'0')),
        b'a'..=b'f' => Some(u64::from(b - b'a') + 10),
        _ => None,
    }
}

// Sixteen hex digits.
pub fn hex_bits(w: &[u8]) -> Result<u64, Fault>
    ensures { result ≡ hex_of w.now }
{
    if w.len() != 16 {
        return Err(Fault::NotHex);
    }
    let mut v: u64 = 0;
    for b in w {
        let Some(d) = hex_digit(b.to_ascii_lowercase()) else {
            return Err(Fault::NotHex);
        };
        v = 16 * v + d;
    }
    Ok(v)
}
