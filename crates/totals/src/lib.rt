// The seven numbers of a sheet's closing line, taken over the answers that its output holds.
#![tactic(auto)]

ghost use Rattle.std.specs.Prelude.{◌≡◌, ◌+◌, ◌*◌, ◌≤◌, ◌<◌, length};
ghost use Rattle.little_endian.specs.Bytes.{u32_at};
ghost use Rattle.totals.specs.Totals.{totals_over, seven_of, Within};

// How many rows have status 0, and the sums of their six counts.
#[derive(Clone, Copy, Default)]
pub struct Totals {
    pub rows: u64,
    pub n320: u64,
    pub n300: u64,
    pub n200: u64,
    pub n100: u64,
    pub n50: u64,
    pub misses: u64,
}

// A sum, and the number at a place of the output, which has 32 bits.
fn plus_at(sum: u64, out: &[u8], at: usize) -> u64
    requires sum_bound { sum + 4294967295 ≤ 18446744073709551615 }
    requires at_in_bounds { at + 4 ≤ length out.now }
    ensures { (result ≡ sum + u32_at out.now at) × (result ≤ sum + 4294967295) }
{
    sum + u64::from(little_endian::u32_at(out, at))
}

impl Totals {
    // Those of the first k answers, and the next: it adds nothing where it is refused.
    fn with_next(self, out: &[u8], k: usize) -> Totals
        requires k_bound { (k < 1024) × (36 * k + 36 ≤ length out.now) }
        requires within { Within (4294967295 * k) self × (seven_of self ≡ totals_over out.now k) }
        ensures { Within (4294967295 * (k + 1)) result × (seven_of result ≡ totals_over out.now (k + 1)) }
    {
        let at = 36 * k;
        if little_endian::u32_at(out, at) > 0 {
            return self;
        }
        Totals {
            rows: self.rows + 1,
            n320: plus_at(self.n320, out, at + 4),
            n300: plus_at(self.n300, out, at + 8),
            n200: plus_at(self.n200, out, at + 12),
            n100: plus_at(self.n100, out, at + 16),
            n50: plus_at(self.n50, out, at + 20),
            misses: plus_at(self.misses, out, at + 24),
        }
    }
}

// Those of the first n answers of the output.
pub fn totals_of(out: &[u8], n: usize) -> Totals
    requires { (n ≤ 1024) × (36 * n ≤ length out.now) }
    ensures { seven_of result ≡ totals_over out.now n }
{
    let mut totals = Totals::default();
    for k in 0..n {
        totals = totals.with_next(out, k);
    }
    totals
}
