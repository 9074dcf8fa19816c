// The closing line of a sheet's table: `total` and the seven numbers.
#![tactic(auto)]

ghost use Rattle.std.specs.Prelude.{◌∷◌, ◌+◌, ◌≤◌};
ghost use Rattle.lists.specs.Lists.{joined};
ghost use Rattle.text.specs.Text.{decimal_text};
ghost use Rattle.text.specs.Written.{HasRoom, Gained};
ghost use Rattle.totals.specs.Totals.{seven_of};
ghost use Rattle.total_text.specs.TotalText.{sum_text, total_text};

use text::Text;
use totals::Totals;

// A space and a number of 64 bits, which has at most 20 digits.
fn put_sum(text: &mut Text<'_>, n: u64)
    requires { HasRoom text.old 21 }
    ensures gained { Gained text.old text.new (32 ∷ decimal_text n) }
    ensures upper_bound { text.new.len ≤ text.old.len + 21 }
{
    text.put_byte(b' ');
    text.put_number(n);
}

// The seven numbers.
fn put_sums(text: &mut Text<'_>, seven: &[u64; 7])
    requires { HasRoom text.old 147 }
    ensures gained { Gained text.old text.new (joined (sum_text seven.now) 7) }
    ensures upper_bound { text.new.len ≤ text.old.len + 147 }
{
    for n in seven {
        put_sum(text, *n);
    }
}

// The line.
pub fn put_total(text: &mut Text<'_>, totals: Totals)
    requires { HasRoom text.old 153 }
    ensures gained { Gained text.old text.new (total_text (seven_of totals)) }
    ensures upper_bound { text.new.len ≤ text.old.len + 153 }
{
    text.put_bytes(b"total");
    let seven = [
        totals.rows,
        totals.n320,
        totals.n300,
        totals.n200,
        totals.n100,
        totals.n50,
        totals.misses,
    ];
    put_sums(text, &seven);
    text.put_byte(b'\n');
}
