// The lines of a sheet's text.
#![tactic(auto)]

ghost use Rattle.std.specs.Prelude.{[], ◌∷◌, ◌+◌, ◌≤◌, length};
ghost use Rattle.text.specs.Text.{decimal_text};
ghost use Rattle.text.specs.Written.{HasRoom, Gained};
ghost use Rattle.accuracy_text.specs.AccuracyText.{spaced};
ghost use Rattle.sheet_lines.specs.Lines.{chart_text, weights_text, method_word, flagged, numbered, flag_words, high_words, low_words, reached_words, option_words, play_text};

use inspect::Chart;
use records::Row;
use score_state::Weights;
use text::Text;

// The longest line has fewer bytes: `play`, eleven for CHART, eight for METHOD, all options, and an end.
pub const ROOM: usize = 4 + 11 + 8 + (14 + 48 + 49 + 35 + 25) + 1;

// A space and a number.
fn put_value(text: &mut Text<'_>, n: u32)
    requires { HasRoom text.old 11 }
    ensures gained { Gained text.old text.new (spaced (decimal_text n ∷ [])) }
    ensures upper_bound { text.new.len ≤ text.old.len + 11 }
{
    text.put_next(n);
}

pub fn put_chart(text: &mut Text<'_>, chart: Chart)
    requires { HasRoom text.old 28 }
    ensures gained { Gained text.old text.new (chart_text chart) }
    ensures upper_bound { text.new.len ≤ text.old.len + 28 }
{
    text.put_bytes(b"chart");
    put_value(text, chart.n_objects);
    put_value(text, chart.n_hold_notes);
    text.put_byte(b'\n');
}

pub fn put_weights(text: &mut Text<'_>, w: Weights)
    requires { HasRoom text.old 63 }
    ensures gained { Gained text.old text.new (weights_text w) }
    ensures upper_bound { text.new.len ≤ text.old.len + 63 }
{
    text.put_bytes(b"weights");
    put_value(text, w.n320);
    put_value(text, w.n300);
    put_value(text, w.n200);
    put_value(text, w.n100);
    put_value(text, w.n50);
    text.put_byte(b'\n');
}

// The method stays the row's byte, which check 8 lets through.
fn put_method(text: &mut Text<'_>, method: u8)
    requires { HasRoom text.old 8 }
    ensures gained { Gained text.old text.new (spaced (method_word method ∷ [])) }
    ensures upper_bound { text.new.len ≤ text.old.len + 8 }
{
    match method {
        0 => accuracy_text::put_word(text, b"ignore"),
        1 => accuracy_text::put_word(text, b"fast"),
        2 => accuracy_text::put_word(text, b"closest"),
        _ => accuracy_text::put_word(text, b"nearest"),
    }
}

// An option without a value, where it is given.
fn put_flag(text: &mut Text<'_>, given: bool, name: &[u8])
    requires { HasRoom text.old (1 + length name.now) }
    ensures gained { Gained text.old text.new (spaced (flagged given name.now)) }
    ensures upper_bound { text.new.len ≤ text.old.len + 1 + length name.now }
{
    if given {
        accuracy_text::put_word(text, name);
    }
}

// An option with a number, where it is given.
fn put_option(text: &mut Text<'_>, given: bool, name: &[u8], n: u32)
    requires { HasRoom text.old (12 + length name.now) }
    ensures gained { Gained text.old text.new (spaced (numbered given name.now n)) }
    ensures upper_bound { text.new.len ≤ text.old.len + 12 + length name.now }
{
    if given {
        accuracy_text::put_word(text, name);
        put_value(text, n);
    }
}

fn put_flags(text: &mut Text<'_>, row: Row)
    requires { HasRoom text.old 14 }
    ensures gained { Gained text.old text.new (spaced (flag_words row)) }
    ensures upper_bound { text.new.len ≤ text.old.len + 14 }
{
    put_flag(text, row.priority == 1, b"worst");
    put_flag(text, row.classic == 1, b"classic");
}

// n320, n300 and n200.
fn put_high(text: &mut Text<'_>, row: Row)
    requires { HasRoom text.old 48 }
    ensures gained { Gained text.old text.new (spaced (high_words row)) }
    ensures upper_bound { text.new.len ≤ text.old.len + 48 }
{
    let p = row.presence;
    put_option(text, inspect::is_given(p, inspect::N320), b"n320", row.n320);
    put_option(text, inspect::is_given(p, inspect::N300), b"n300", row.n300);
    put_option(text, inspect::is_given(p, inspect::N200), b"n200", row.n200);
}

// n100, n50 and misses.
fn put_low(text: &mut Text<'_>, row: Row)
    requires { HasRoom text.old 49 }
    ensures gained { Gained text.old text.new (spaced (low_words row)) }
    ensures upper_bound { text.new.len ≤ text.old.len + 49 }
{
    let p = row.presence;
    put_option(text, inspect::is_given(p, inspect::N100), b"n100", row.n100);
    put_option(text, inspect::is_given(p, inspect::N50), b"n50", row.n50);
    put_option(
        text,
        inspect::is_given(p, inspect::MISSES),
        b"misses",
        row.misses,
    );
}

// Passed and holds passed.
fn put_reached(text: &mut Text<'_>, row: Row)
    requires { HasRoom text.old 35 }
    ensures gained { Gained text.old text.new (spaced (reached_words row)) }
    ensures upper_bound { text.new.len ≤ text.old.len + 35 }
{
    let given = inspect::is_given(row.presence, inspect::PASSED);
    put_option(text, given, b"passed", row.passed);
    put_option(text, row.holds_given == 1, b"holds", row.holds_passed);
}

fn put_options(text: &mut Text<'_>, row: Row)
    requires { HasRoom text.old 171 }
    ensures gained { Gained text.old text.new (spaced (option_words row)) }
    ensures upper_bound { text.new.len ≤ text.old.len + 171 }
{
    put_flags(text, row);
    put_high(text, row);
    put_low(text, row);
    put_reached(text, row);
    let given = inspect::is_given(row.presence, inspect::ACC);
    accuracy_text::put_accuracy(text, given, row.acc);
}

pub fn put_play(text: &mut Text<'_>, row: Row)
    requires { HasRoom text.old 195 }
    ensures gained { Gained text.old text.new (play_text row) }
    ensures upper_bound { text.new.len ≤ text.old.len + 195 }
{
    text.put_bytes(b"play");
    put_value(text, row.chart);
    put_method(text, row.method);
    put_options(text, row);
    text.put_byte(b'\n');
}
