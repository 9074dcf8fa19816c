// The line that is printed of a row's answer.
#![tactic(auto)]

ghost use Rattle.std.specs.Prelude.{◌+◌, ◌*◌, ◌≤◌, ◌<◌, length};
ghost use Rattle.text.specs.Written.{HasRoom, Gained};
ghost use Rattle.row_text.specs.RowText.{field_text, fields_text, left_text, row_text};

use text::Text;

// A space and the k-th number of the answer that starts at `from`, up to tried.
fn put_field(text: &mut Text<'_>, out: &[u8], from: usize, k: usize)
    requires room { HasRoom text.old 11 }
    requires k_bound { (k < 8) × (from + 36 ≤ length out.now) }
    ensures gained { Gained text.old text.new (field_text out.now from k) }
    ensures upper_bound { text.new.len ≤ text.old.len + 11 }
{
    text.put_next(little_endian::u32_at(out, from + 4 * k));
}

// The eight fields up to tried of the answer that starts at `from`.
fn put_fields(text: &mut Text<'_>, out: &[u8], from: usize)
    requires room { HasRoom text.old 88 }
    requires from_in_bounds { from + 36 ≤ length out.now }
    ensures gained { Gained text.old text.new (fields_text out.now from) }
    ensures upper_bound { text.new.len ≤ text.old.len + 88 }
{
    for k in 0..8 {
        put_field(text, out, from, k);
    }
}

// A space and left of the answer that starts at `from`.
fn put_left(text: &mut Text<'_>, out: &[u8], from: usize)
    requires room { HasRoom text.old 12 }
    requires from_in_bounds { from + 36 ≤ length out.now }
    ensures gained { Gained text.old text.new (left_text out.now from) }
    ensures upper_bound { text.new.len ≤ text.old.len + 12 }
{
    text.put_byte(b' ');
    text.put_signed(little_endian::u32_at(out, from + 32));
}

// The line of query i.
pub fn put_row(text: &mut Text<'_>, out: &[u8], i: usize)
    requires room { HasRoom text.old 105 }
    requires i_bound { (i < 1024) × (36 * i + 36 ≤ length out.now) }
    ensures gained { Gained text.old text.new (row_text out.now i) }
    ensures upper_bound { text.new.len ≤ text.old.len + 105 }
{
    text.put_decimal(i as u32);
    put_fields(text, out, 36 * i);
    put_left(text, out, 36 * i);
    text.put_byte(b'\n');
}
