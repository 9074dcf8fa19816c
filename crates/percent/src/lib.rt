// The percentage that an accuracy's text says: with as few digits behind the point as give the same f64.
#![tactic(auto)]

ghost use Rattle.std.specs.Prelude.{◌≡◌, ◌*◌, ◌^◌, ◌≤◌};
ghost use Rattle.percent.specs.Percent.{percent_with, shortest};

// A percentage by its digits without the point, and how many of them stand behind it.
#[derive(Clone, Copy, PartialEq, Eq, Debug)]
pub struct Percentage {
    pub digits: u64,
    pub places: u32,
}

// The percentage with k digits behind the point that has these bits, q being 100 times 10 to k: of all whole numbers only the f64
// product, rounded, can be its digits, and that lies below 2^51.
fn percentage_with(bits: u64, k: u32, q: u64) -> Option<Percentage>
    requires { (k ≤ 12) × (q ≡ 100 * 10 ^ k) }
    ensures { result ≡ percent_with bits k }
{
    let x = little_endian::f64_of(bits) * (q as f64);
    if !(x >= 0.0) {
        return None;
    }
    if !(x < 2251799813685248.0) {
        return None;
    }
    let n = rounding::round_whole(x);
    if n >= 10 * q {
        return None;
    }
    if words::ratio_bits(n, q) != bits {
        return None;
    }
    Some(Percentage {
        digits: n,
        places: k,
    })
}

// The percentage with the fewest digits behind the point that has these bits.
pub fn percentage_of(bits: u64) -> Option<Percentage>
    ensures { result ≡ shortest bits }
{
    let mut q: u64 = 100;
    for k in 0..13 {
        if let Some(found) = percentage_with(bits, k, q) {
            return Some(found);
        }
        q = 10 * q;
    }
    None
}
