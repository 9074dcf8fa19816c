// The record of a line of a typed sheet.
#![tactic(auto)]

ghost use Rattle.std.specs.Prelude.{◌≡◌, ◌+◌, ◌*◌, ◌%◌, ◌≤◌, ◌<◌, length};
ghost use Rattle.little_endian.specs.Bytes.{bytes4};
ghost use Rattle.text.specs.Written.{HasRoom, Gained};
ghost use Rattle.typed_records.specs.Records.{value, flag, value_bytes, presence, named_bytes, given_bytes, tail_bytes, play_bytes, record_bytes, record_size};

use text::Text;
use typed_line::{Kind, Line};

fn low(n: u64) -> u8
    ensures { result ≡ n % 256 }
{
    (n % 256) as u8
}

// The four low bytes of a number.
pub fn put_number(out: &mut Text<'_>, n: u64)
    requires { HasRoom out.old 4 }
    ensures gained { Gained out.old out.new (bytes4 n) }
    ensures value { out.new.len ≡ out.old.len + 4 }
{
    let mut bytes = [0u8; 4];
    little_endian::put_u32(&mut bytes, 0, (n % 4294967296) as u32);
    out.put_bytes(&bytes);
}

// A field's value, 0 where it is not typed.
fn value_of(l: Line, f: usize) -> u64
    requires { f < 13 }
    ensures { result ≡ value l f }
{
    l.fields[f].unwrap_or(0)
}

// The first n values of a line.
fn put_values(out: &mut Text<'_>, l: Line, n: usize)
    requires room { HasRoom out.old (4 * n) }
    requires n_bound { n ≤ 13 }
    ensures gained { Gained out.old out.new (value_bytes l n) }
    ensures value { out.new.len ≡ out.old.len + 4 * n }
{
    for f in 0..n {
        put_number(out, value_of(l, f));
    }
}

// 1 where a field is typed, else 0.
fn flag_of(l: Line, f: usize) -> u8
    requires { f < 13 }
    ensures { (result ≡ flag l f) × (result ≤ 1) }
{
    u8::from(l.fields[f].is_some())
}

fn presence_of(l: Line) -> u8
    ensures { result ≡ presence l }
{
    flag_of(l, 0)
        + 2 * flag_of(l, 1)
        + 4 * flag_of(l, 2)
        + 8 * flag_of(l, 3)
        + 16 * flag_of(l, 4)
        + 32 * flag_of(l, 5)
        + 64 * flag_of(l, 6)
        + 128 * flag_of(l, 7)
}

// The first four bytes of a query.
fn put_named(out: &mut Text<'_>, l: Line)
    requires { HasRoom out.old 4 }
    ensures gained { Gained out.old out.new (named_bytes l) }
    ensures value { out.new.len ≡ out.old.len + 4 }
{
    let chart = value_of(l, 11);
    out.put_byte(low(chart));
    out.put_byte(low(chart / 256));
    out.put_byte(low(value_of(l, 12)));
    out.put_byte(low(value_of(l, 9)));
}

// The next four.
fn put_given(out: &mut Text<'_>, l: Line)
    requires { HasRoom out.old 4 }
    ensures gained { Gained out.old out.new (given_bytes l) }
    ensures value { out.new.len ≡ out.old.len + 4 }
{
    out.put_byte(low(value_of(l, 10)));
    out.put_byte(presence_of(l));
    out.put_byte(flag_of(l, 8));
    out.put_byte(0);
}

// The last sixteen.
fn put_tail(out: &mut Text<'_>, l: Line)
    requires { HasRoom out.old 16 }
    ensures gained { Gained out.old out.new (tail_bytes l) }
    ensures value { out.new.len ≡ out.old.len + 16 }
{
    put_number(out, value_of(l, 7));
    let bits = value_of(l, 6);
    put_number(out, bits);
    put_number(out, bits / 4294967296);
    put_number(out, value_of(l, 8));
}

fn put_play(out: &mut Text<'_>, l: Line)
    requires { HasRoom out.old 48 }
    ensures gained { Gained out.old out.new (play_bytes l) }
    ensures value { out.new.len ≡ out.old.len + 48 }
{
    put_named(out, l);
    put_given(out, l);
    put_values(out, l, 6);
    put_tail(out, l);
}

// The record of a line that has a kind.
pub fn put_record(out: &mut Text<'_>, l: Line)
    requires { HasRoom out.old (record_size l.kind) }
    ensures gained { Gained out.old out.new (record_bytes l) }
    ensures value { out.new.len ≡ out.old.len + record_size l.kind }
{
    match l.kind {
        Some(Kind::Chart) => put_values(out, l, 2),
        Some(Kind::Weights) => put_values(out, l, 5),
        Some(Kind::Play) | None => put_play(out, l),
    }
}
