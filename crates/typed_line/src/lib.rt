// A line of a typed sheet, read word by word into a struct.
#![tactic(auto)]

ghost use Rattle.std.specs.Prelude.{◌≡◌, ◌+◌, ◌*◌, ◌<◌, ◌≤◌, length};
ghost use Rattle.words.specs.Lines.{part};
ghost use Rattle.typed_line.specs.Keywords.{kind_at, kind_of, method_of, option_at, option_of};
ghost use Rattle.typed_line.specs.Line.{span, fresh, noted, told, begun, awaits, stores, opens, field_of, named, names, value_for, slot, after, fills, judged, takes, takes_all, closed, line_of};
ghost use Rattle.words.specs.Walk.{words_left};

use words::{Fault, Words};

// A word by where it starts in the text, and how long it is.
#[derive(Clone, Copy, PartialEq, Eq, Debug)]
pub struct Span {
    pub at: usize,
    pub size: usize,
}

#[derive(Clone, Copy, PartialEq, Eq, Debug)]
pub enum Kind {
    Chart,
    Weights,
    Play,
}

// A play's option: one with a value, by its field's number, or one without.
#[derive(Clone, Copy, PartialEq, Eq, Debug)]
pub enum PlayOption {
    Valued(usize),
    Best,
    Worst,
    Classic,
}

// What the next word is to be; a value by its field's number.
#[derive(Clone, Copy, PartialEq, Eq, Debug)]
pub enum Want {
    FirstWord,
    Nothing,
    OptionName,
    Value(usize),
}

// What is known of a line after some of its words: specs/Line.antt says of each field what it is.
#[derive(Clone, Copy)]
pub struct Line {
    pub fault: Option<Fault>,
    pub word: Span,
    pub first: Span,
    pub kind: Option<Kind>,
    pub want: Want,
    pub fields: [Option<u64>; 13],
}

// A line's kind by the place of its first word among theirs.
fn kind_at(k: usize) -> Kind
    ensures { result ≡ kind_at k }
{
    match k {
        0 => Kind::Chart,
        1 => Kind::Weights,
        _ => Kind::Play,
    }
}

fn kind_of(w: &[u8]) -> Option<Kind>
    ensures { result ≡ kind_of w.now }
{
    words::place_in(w, b"chart weights play").map(kind_at)
}

fn method_of(w: &[u8]) -> Option<usize>
    ensures { result ≡ method_of w.now }
{
    words::place_in(w, b"ignore fast closest nearest")
}

// An option by the place of its name among theirs.
fn option_at(o: usize) -> PlayOption
    ensures { result ≡ option_at o }
{
    match o {
        9 => PlayOption::Valued(13),
        10 => PlayOption::Best,
        11 => PlayOption::Worst,
        12 => PlayOption::Classic,
        _ => PlayOption::Valued(o),
    }
}

fn option_of(w: &[u8]) -> Option<PlayOption>
    ensures { result ≡ option_of w.now }
{
    let place = words::place_in(
        w,
        b"n320 n300 n200 n100 n50 misses acc passed holds accbits best worst classic",
    );
    place.map(option_at)
}

#[tactic(auto, unfolding(crate::specs::Line::slot))]
fn slot_of(f: usize) -> usize
    ensures { (result ≡ slot f) × (result < 13) }
{
    if f < 13 { f } else { 6 }
}

// The field that an option is about.
fn field_of(option: PlayOption) -> usize
    ensures { (result ≡ field_of option) × (result < 13) }
{
    match option {
        PlayOption::Valued(f) => slot_of(f),
        PlayOption::Best => 9,
        PlayOption::Worst => 9,
        PlayOption::Classic => 10,
    }
}

#[tactic(auto, unfolding(crate::specs::Line::value_for))]
fn chart_number(w: &[u8]) -> Result<u64, Fault>
    ensures { result ≡ value_for 11 w.now }
{
    let n = words::number(w)?;
    if 65535 < n {
        return Err(Fault::ChartTooLarge);
    }
    Ok(n)
}

#[tactic(auto, unfolding(crate::specs::Line::value_for))]
fn method_value(w: &[u8]) -> Result<u64, Fault>
    ensures { result ≡ value_for 12 w.now }
{
    let m = method_of(w).ok_or(Fault::NoMethod)?;
    Ok(m as u64)
}

// The value of a word for a field.
#[tactic(auto, unfolding(crate::specs::Line::value_for))]
fn value_for(f: usize, w: &[u8]) -> Result<u64, Fault>
    ensures { result ≡ value_for f w.now }
{
    match f {
        6 => words::percentage(w),
        11 => chart_number(w),
        12 => method_value(w),
        13 => words::hex_bits(w),
        _ => words::number(w),
    }
}

// What follows the value of a field.
#[tactic(auto, unfolding(crate::specs::Line::after))]
fn want_after(kind: Option<Kind>, f: usize) -> Want
    ensures { result ≡ after kind f }
{
    match kind {
        Some(Kind::Chart) => {
            if f == 0 {
                Want::Value(1)
            } else {
                Want::Nothing
            }
        }
        Some(Kind::Weights) => {
            if f < 4 {
                Want::Value(f + 1)
            } else {
                Want::Nothing
            }
        }
        Some(Kind::Play) | None => {
            if f == 11 {
                Want::Value(12)
            } else {
                Want::OptionName
            }
        }
    }
}

impl Line {
    fn new() -> Line
        ensures { result ≡ fresh }
    {
        Line {
            fault: None,
            word: Span { at: 0, size: 0 },
            first: Span { at: 0, size: 0 },
            kind: None,
            want: Want::FirstWord,
            fields: [None; 13],
        }
    }

    fn note(&mut self, word: Span)
        ensures { self.new ≡ noted self.old word }
    {
        self.word = word;
    }

    fn tell(&mut self, fault: Fault)
        ensures { self.new ≡ told self.old fault }
    {
        self.fault = Some(fault);
    }

    fn begin(&mut self, kind: Kind, want: Want)
        ensures { self.new ≡ begun self.old kind want }
    {
        self.first = self.word;
        self.kind = Some(kind);
        self.want = want;
    }

    fn await_next(&mut self, want: Want)
        ensures { self.new ≡ awaits self.old want }
    {
        self.want = want;
    }

    fn store(&mut self, f: usize, n: u64, want: Want)
        requires { f < 13 }
        ensures { self.new ≡ stores self.old f n want }
    {
        self.fields[f] = Some(n);
        self.want = want;
    }

    // A line's first word.
    fn open(&mut self, kind: Option<Kind>)
        ensures { self.new ≡ opens self.old kind }
    {
        match kind {
            None => self.tell(Fault::BeginsNoLine),
            Some(Kind::Play) => self.begin(Kind::Play, Want::Value(11)),
            Some(other) => self.begin(other, Want::Value(0)),
        }
    }

    // An option that is not given yet.
    fn enter(&mut self, option: PlayOption)
        ensures { self.new ≡ named self.old option }
    {
        match option {
            PlayOption::Valued(f) => self.await_next(Want::Value(f)),
            PlayOption::Best => self.store(9, 0, Want::OptionName),
            PlayOption::Worst => self.store(9, 1, Want::OptionName),
            PlayOption::Classic => self.store(10, 1, Want::OptionName),
        }
    }

    // An option's name.
    #[tactic(auto, unfolding(crate::specs::Line::names))]
    fn name(&mut self, option: Option<PlayOption>)
        ensures { self.new ≡ names self.old option }
    {
        let Some(option) = option else {
            return self.tell(Fault::NoOption);
        };
        if self.fields[field_of(option)].is_some() {
            return self.tell(Fault::GivenTwice);
        }
        self.enter(option)
    }

    #[tactic(auto, unfolding(crate::specs::Line::fills))]
    fn fill(&mut self, f: usize, v: Result<u64, Fault>)
        ensures { self.new ≡ fills self.old f v }
    {
        match v {
            Ok(n) => self.store(slot_of(f), n, want_after(self.kind, f)),
            Err(fault) => self.tell(fault),
        }
    }

    #[tactic(auto, unfolding(crate::specs::Line::judged, crate::specs::Line::judged_as))]
    fn judge(&mut self, w: &[u8])
        ensures { self.new ≡ judged self.old w.now }
    {
        match self.want {
            Want::FirstWord => self.open(kind_of(w)),
            Want::Nothing => self.tell(Fault::OneTooMany),
            Want::OptionName => self.name(option_of(w)),
            Want::Value(f) => self.fill(f, value_for(f, w)),
        }
    }

    // A word more, which starts at a place of the text.
    #[tactic(auto, unfolding(crate::specs::Line::takes))]
    fn take_word(&mut self, at: usize, w: &[u8])
        ensures { self.new ≡ takes self.old (part at w.now) }
    {
        if self.fault.is_none() {
            self.note(Span { at, size: w.len() });
            self.judge(w);
        }
    }

    // The end of the line.
    fn close(&mut self)
        ensures { self.new ≡ closed self.old }
    {
        if self.fault.is_none() {
            if let Want::Value(_) = self.want {
                self.tell(Fault::ValueMissing);
            }
        }
    }

    // The words that are left of a line, and its end.
    #[tactic(auto, unfolding(crate::specs::Line::takes_all))]
    fn take_words(&mut self, words: Words<'_>)
        ensures { self.new ≡ closed (takes_all self.old (words_left words.entry)) }
    {
        for (at, w) in words {
            self.take_word(at, w);
        }
        self.close();
    }
}

// A line that starts at a place of the text, the CR of its end with it. One without a word is answered at once: nothing of it is copied.
#[tactic(auto, unfolding(crate::specs::Line::line_of, crate::specs::Line::read_of, crate::specs::Line::takes_all))]
pub fn read_line(s: &[u8], start: usize) -> Line
    requires { start + length s.now ≤ 18446744073709551615 }
    ensures { result ≡ line_of (part start s.now) }
{
    let n = words::size_unended(s);
    let mut words = Words::new(start, &s[0..n]);
    let Some((at, w)) = words.next() else {
        return Line::new();
    };
    let mut l = Line::new();
    l.take_word(at, w);
    l.take_words(words);
    l
}
